//! The inbox: letters that wait, who posts them and who takes them.
ghost use Rattle.std.specs.Prelude.{◌≡◌, ◌<◌, ◌++◌, ◌∷◌, [], length, IfOk, IfNone, MatchOption};
ghost use Rattle.ax_actions.specs.declared.hand.Letter.{Letter};
ghost use Rattle.ax_actions.specs.Ends.{Begins, IsNextLull};

use crate::hand::{Hand, Letter};
use crate::rule::{InOrder, Posts, Roles, Takes, Whole};
use ax_base::NoMemory;
use crossbeam_queue::{Pass, RuledArrayQueue};
use std::alloc::Global;
use std::marker::Model;
use std::sync::Wait;

type Row = RuledArrayQueue<Letter, Hand, InOrder>;

/// Letters that wait, in order. Contracts see which inbox it is, and its room.
#[derive(Drop)]
pub struct Inbox {
    row: Row,
}

impl Model for Inbox {
    ghost use Rattle.ax_actions.specs.Ends.{InboxId};

    ghost Value = { InboxId };

    ghost view = { λ i. record { table = i.row.table.shared.table_id; room = i.row.cap } };
}

/// Who posts. Contracts see which inbox it is of, and what it has posted.
#[derive(Drop)]
pub struct Poster {
    pass: Pass<Letter, Hand>,
}

impl Model for Poster {
    ghost use Rattle.ax_actions.specs.Ends.{PosterView, poster_view, IsPoster};

    ghost Value = { PosterView };

    ghost view = { λ p. poster_view p.pass };

    ghost invariant = { λ p. IsPoster p.pass };
}

/// Who takes. It counts how often the inbox was empty, up to the end of `u64`. Contracts see which inbox it is of, what
/// it has taken, and that count.
#[derive(Drop)]
pub struct Doer {
    pass: Pass<Letter, Hand>,
    lulls: u64,
}

impl Model for Doer {
    ghost use Rattle.ax_actions.specs.Ends.{DoerView, doer_view, IsDoer};

    ghost Value = { DoerView };

    ghost view = { λ d. doer_view d.pass d.lulls };

    ghost invariant = { λ d. IsDoer d.pass };
}

impl Inbox {
    /// An inbox with room for so many letters, and its two ends. It waits for nothing.
    pub fn new<R: Wait>(
        _rt: &R,
        alloc: Global,
        room: usize,
    ) -> Result<(Inbox, Poster, Doer), NoMemory>
        requires { 0 < room }
        ensures room { IfOk result (λ made. made.0.room ≡ room) }
        ensures poster { IfOk result (λ made. made.1 ≡ record { table = made.0.table; posted = [] }) }
        ensures doer { IfOk result (λ made. made.2 ≡ record { table = made.0.table; taken = []; lulls = 0 }) }
    {
        let Ok((row, mut pass)) = Row::ruled(alloc, room) else {
            return Err(NoMemory);
        };
        let other = row.another::<Roles>(&mut pass);
        Ok((
            Inbox { row },
            Poster { pass },
            Doer {
                pass: other,
                lulls: 0,
            },
        ))
    }

    /// Adds the letter at the back. It takes no memory.
    pub fn post<R: Wait>(&self, rt: &R, by: &mut Poster, l: Letter)
        requires inbox { by.old.table ≡ self.now.table }
        requires room { length by.old.posted < self.now.room }
        ensures { by.new ≡ record by.old { posted = by.old.posted ++ l ∷ [] } }
    {
        match self.row.push_as::<Posts, R>(rt, &mut by.pass, l) {
            Ok(()) => {}
            Err(_) => unreachable!(),
        }
    }

    /// Takes the letter at the front. `None` comes where the inbox was empty at one moment of the call.
    pub fn next<R: Wait>(&self, rt: &R, by: &mut Doer) -> Option<Letter>
        requires { by.old.table ≡ self.now.table }
        ensures taken { MatchOption result (by.new ≡ record by.old { lulls = by.new.lulls }) (λ l. by.new ≡ record by.old { taken = by.old.taken ++ l ∷ [] }) }
        ensures lulls { IfNone result (IsNextLull by.old.lulls by.new.lulls) }
    {
        let front = self.row.pop_as::<Takes, R>(rt, &mut by.pass);
        if front.is_none() && by.lulls < u64::MAX {
            by.lulls += 1;
        }
        front
    }

    /// Ends the inbox by both its ends: what was taken is a first part of what was posted, in order. The letters that
    /// were not taken are given up.
    pub fn close(self, poster: Poster, doer: Doer)
        requires poster { poster.table ≡ self.table }
        requires doer { doer.table ≡ self.table }
        ensures { Begins doer.taken poster.posted }
    {
        let Inbox { row } = self;
        let Poster { mut pass } = poster;
        let Doer {
            pass: other,
            lulls: _,
        } = doer;
        row.absorb::<Roles>(&mut pass, other);
        row.learn_as::<Whole>(&mut pass);
    }
}
