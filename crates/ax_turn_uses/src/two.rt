//! Two threads at one turn, and two looks of one seat.
ghost use Rattle.std.specs.Prelude.{◌≡◌, ◌+◌, ◌<◌, ◌++◌, [], ◌∷◌, false, List, IfSome, MatchBool};
ghost use Rattle.ax_turn.specs.Makers.{GrowsByOthers};
ghost use Rattle.ax_turn_uses.specs.declared.notes.Note.{Note};
ghost use Rattle.ax_turn_uses.specs.Numbers.{maker_of, numbers_by, first_numbers, IsSeatFor};

use crate::notes::{Note, Notes};
use ax_turn::{Seat, Turn};
use std::alloc::{AllocError, Global};
use std::sync::Wait;
use std::thread::{Threads, join};

// One stay in the turn. False where memory ran out.
fn add_one<R: Wait>(
    rt: &R,
    turn: &Turn<Notes>,
    seat: &mut Seat<Notes>,
    by: u64,
    number: u64,
) -> bool
    requires { IsSeatFor turn.now by seat.old }
    ensures seat { IsSeatFor turn.now by seat.new }
    ensures added { MatchBool result (numbers_by by seat.new.seen ≡ numbers_by by seat.old.seen ++ number ∷ []) (numbers_by by seat.new.seen ≡ numbers_by by seat.old.seen) }
{
    let mut notes = turn.enter(rt, seat);
    match notes.items.push(Note { by, number }) {
        Ok(()) => {
            turn.leave(seat, notes);
            true
        }
        Err(_) => {
            turn.leave(seat, notes);
            false
        }
    }
}

// Adds the numbers below `count`.
fn add_all<R: Wait>(
    rt: &R,
    turn: &Turn<Notes>,
    mut seat: Seat<Notes>,
    by: u64,
    count: u64,
) -> Option<Seat<Notes>>
    requires seat { IsSeatFor turn.now by seat }
    requires none { numbers_by by seat.seen ≡ [] }
    ensures seat { IfSome result (λ s. IsSeatFor turn.now by s) }
    ensures all { IfSome result (λ s. numbers_by by s.seen ≡ first_numbers count) }
{
    for number in 0..count {
        if !add_one(rt, turn, &mut seat, by, number) {
            return None;
        }
    }
    Some(seat)
}

/// Two threads add the numbers below `count` each. The notes have each thread's numbers in its order. `None` comes only
/// where memory ran out.
pub fn two_writers<R: Threads + Wait + Sync>(rt: &R, alloc: Global, count: u64) -> Option<Notes>
    ensures first { IfSome result (λ notes. numbers_by 0 notes.items.items ≡ first_numbers count) }
    ensures second { IfSome result (λ notes. numbers_by 1 notes.items.items ≡ first_numbers count) }
{
    let notes = Notes {
        items: Vec::new(alloc),
    };
    let (turn, mut first) = Turn::new(alloc, notes, 2).ok()?;
    let second = turn.split(&mut first, 1).ok()?;
    let lent = &turn;
    let (a, b) = join(
        rt,
        move || -> Option<Seat<Notes>>
            requires { IsSeatFor lent.now 0 first × (numbers_by 0 first.seen ≡ []) }
            ensures { IfSome result (λ s. IsSeatFor lent.entry.now 0 s × (numbers_by 0 s.seen ≡ first_numbers count)) }
        { add_all(rt, lent, first, 0, count) },
        move || -> Option<Seat<Notes>>
            requires { IsSeatFor lent.now 1 second × (numbers_by 1 second.seen ≡ []) }
            ensures { IfSome result (λ s. IsSeatFor lent.entry.now 1 s × (numbers_by 1 s.seen ≡ first_numbers count)) }
        { add_all(rt, lent, second, 1, count) },
    );
    let a = a?;
    let b = b?;
    Some(finish(turn, a, b))
}

fn finish(turn: Turn<Notes>, mut all: Seat<Notes>, other: Seat<Notes>) -> Notes
    requires makers { turn.makers ≡ 2 }
    requires first { IsSeatFor turn 0 all }
    requires second { IsSeatFor turn 1 other }
    ensures first { numbers_by 0 result.items.items ≡ numbers_by 0 all.seen }
    ensures second { numbers_by 1 result.items.items ≡ numbers_by 1 other.seen }
{
    turn.join(&mut all, other);
    turn.close_with(all)
}

// The notes as they stand during one stay. `None` where memory ran out.
fn look<R: Wait>(rt: &R, turn: &Turn<Notes>, seat: &mut Seat<Notes>) -> Option<Vec<Note>>
    requires seat { (seat.old.turn ≡ turn.now) × (seat.old.inside ≡ false) }
    requires number { seat.old.low < seat.old.high }
    ensures seat { seat.new ≡ record seat.old { seen = seat.new.seen; enters = seat.old.enters + 1 } }
    ensures begins { GrowsByOthers maker_of seat.old.low seat.old.high seat.old.seen seat.new.seen }
    ensures all { IfSome result (λ notes. notes.items ≡ seat.new.seen) }
{
    let notes = turn.enter(rt, seat);
    let copy: Result<Vec<Note>, AllocError> = notes.items.clone();
    turn.leave(seat, notes);
    copy.ok()
}

/// Looks at the notes twice. The second look begins with the first, and is all that the seat then has seen.
pub fn look_twice<R: Wait>(
    rt: &R,
    turn: &Turn<Notes>,
    seat: &mut Seat<Notes>,
) -> Option<(Vec<Note>, Vec<Note>)>
    requires seat { (seat.old.turn ≡ turn.now) × (seat.old.inside ≡ false) }
    requires number { seat.old.low < seat.old.high }
    ensures enters { IfSome result (λ looks. seat.new.enters ≡ seat.old.enters + 2) }
    ensures last { IfSome result (λ looks. looks.1.items ≡ seat.new.seen) }
    ensures begins { IfSome result (λ looks. (rest : List Note) × (looks.1.items ≡ looks.0.items ++ rest)) }
{
    let first = look(rt, turn, seat)?;
    let second = look(rt, turn, seat)?;
    Some((first, second))
}
