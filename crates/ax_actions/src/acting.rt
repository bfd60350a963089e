//! The actions of many frames, by workers.
ghost use Rattle.std.specs.Prelude.{◌≡◌, ◌<◌, ◌+◌, ℕ, ◌++◌, ◌∷◌, [], List, IfOk, OnOk, length, map, flat_map};
ghost use Rattle.std.specs.List.{AllZip};
ghost use Rattle.ax_ask.specs.declared.action.Action.{Action};
ghost use Rattle.ax_frame.specs.Frames.{Journaled};
ghost use Rattle.ax_trees.specs.Lists.{NoneTwice};
ghost use Rattle.ax_actions.specs.declared.acting.Acted.{Acted};
ghost use Rattle.ax_actions.specs.declared.acting.Slot.{Slot};
ghost use Rattle.ax_actions.specs.Acting.{act_one, at_start, letters, one_by_one, AreGathered, Comes, HasEnds, IsPosted, IsReady, IsWaiting, Reads, Serves, Takes, Works};

use crate::performing::{line_of, perform};
use crate::sharing::{Share, shares_of};
use crate::{Doer, Inbox, Letter, Poster};
use ax_ask::{Action, Actions, Line, Lines};
use ax_base::NoMemory;
use ax_frame::{Frame, Frames};
use ax_workers::{Gate, Spot};
use std::alloc::Global;
use std::sync::Wait;
use std::thread;
use std::thread::Threads;

/// How many workers there are at most.
const WORKERS: usize = 32;

/// A frame whose letters are posted.
#[derive(Drop)]
struct Job {
    frame: Frame,
    inbox: Inbox,
    poster: Poster,
    doer: Doer,
}

/// A frame whose actions are done, and their lines.
#[derive(Drop)]
pub(crate) struct Acted {
    pub frame: Frame,
    pub lines: Lines,
}

/// What a worker has of a frame.
#[derive(Drop)]
enum Slot {
    Waits(Job),
    Ends(Acted),
    /// There was no memory.
    Lacks,
}

/// Posts the actions, and that no further one comes. It takes no memory.
fn post_all<R: Wait>(rt: &R, inbox: &Inbox, by: &mut Poster, own: Vec<Action>)
    requires inbox { by.old.table ≡ inbox.now.table }
    requires room { length by.old.posted + length own.items < inbox.now.room }
    ensures { by.new ≡ record by.old { posted = by.old.posted ++ letters own.items } }
{
    for action in own {
        inbox.post(rt, by, Letter::Do(action));
    }
    inbox.post(rt, by, Letter::End);
}

/// Posts a frame's letters into an inbox with room for them.
fn job_of<R: Wait>(rt: &R, alloc: Global, share: Share) -> Result<Job, NoMemory>
    ensures { IfOk result (λ job. IsPosted share.own share.frame job) }
{
    let Share { frame, own } = share;
    let (inbox, mut poster, doer) = Inbox::new(rt, alloc, own.len() + 1)?;
    post_all(rt, &inbox, &mut poster, own.into_vec());
    Ok(Job {
        frame,
        inbox,
        poster,
        doer,
    })
}

/// Does an action, and adds its line.
fn act_one(alloc: Global, acted: &mut Acted, action: &Action) -> Result<(), NoMemory>
    ensures { OnOk result (acted.new ≡ act_one acted.old action.now) }
{
    let done = perform(alloc, &mut acted.frame, action)?;
    acted.lines.push(line_of(action, done.note()))?;
    Ok(())
}

/// Does an action; before the first one the worker pauses at the gate.
fn act_at_gate<G: Gate>(
    alloc: Global,
    action: &Action,
    acted: &mut Acted,
    begun: &mut bool,
    gate: &G,
) -> Result<(), NoMemory>
    ensures { OnOk result (acted.new ≡ act_one acted.old action.now) }
{
    if !*begun {
        gate.pause(Spot::Act(acted.frame.tree()));
        *begun = true;
    }
    act_one(alloc, acted, action)
}

/// Does what a letter says, and tells whether it was the last one.
fn read<G: Gate>(
    alloc: Global,
    letter: Letter,
    acted: &mut Acted,
    begun: &mut bool,
    gate: &G,
) -> Result<bool, NoMemory>
    ensures { IfOk result (λ last. Reads letter last acted.old acted.new) }
{
    match letter {
        Letter::Do(action) => act_at_gate(alloc, &action, acted, begun, gate)?,
        Letter::End => return Ok(true),
    }
    Ok(false)
}

/// Takes a letter, where one is there, and tells whether it was the last one.
fn take_one<R: Wait, G: Gate>(
    rt: &R,
    alloc: Global,
    inbox: &Inbox,
    by: &mut Doer,
    acted: &mut Acted,
    begun: &mut bool,
    gate: &G,
) -> Result<bool, NoMemory>
    requires { by.old.table ≡ inbox.now.table }
    ensures table { by.new.table ≡ by.old.table }
    ensures took { IfOk result (λ last. Takes by.old.taken acted.old last by.new.taken acted.new) }
{
    match inbox.next(rt, by) {
        Some(letter) => read(alloc, letter, acted, begun, gate),
        None => {
            thread::yield_now();
            Ok(false)
        }
    }
}

/// Takes letters and does them until the last.
fn serve<R: Wait, G: Gate>(
    rt: &R,
    alloc: Global,
    inbox: &Inbox,
    by: &mut Doer,
    acted: &mut Acted,
    gate: &G,
) -> Result<(), NoMemory>
    requires { by.old.table ≡ inbox.now.table }
    ensures table { by.new.table ≡ by.old.table }
    ensures served { OnOk result (Serves by.old.taken acted.old by.new.taken acted.new) }
{
    let mut begun = false;
    for _ in rt.forever() {
        let last = take_one(rt, alloc, inbox, by, acted, &mut begun, gate)?;
        if last {
            return Ok(());
        }
    }
    unreachable!()
}

/// Does all actions of a job.
fn work<R: Wait, G: Gate>(rt: &R, alloc: Global, job: Job, gate: &G) -> Result<Acted, NoMemory>
    requires { HasEnds job }
    ensures { IfOk result (Comes job) }
{
    let Job {
        frame,
        inbox,
        poster,
        mut doer,
    } = job;
    let mut acted = Acted {
        frame,
        lines: Lines::new(alloc),
    };
    serve(rt, alloc, &inbox, &mut doer, &mut acted, gate)?;
    inbox.close(poster, doer);
    Ok(acted)
}

/// Does the job that waits in a slot, and gives what the slot then has.
fn worked<R: Wait, G: Gate>(rt: &R, alloc: Global, slot: Slot, gate: &G) -> Slot
    requires { IsReady slot }
    ensures { Works slot result }
{
    match slot {
        Slot::Waits(job) => match work(rt, alloc, job, gate) {
            Ok(acted) => Slot::Ends(acted),
            Err(_) => Slot::Lacks,
        },
        Slot::Ends(acted) => Slot::Ends(acted),
        Slot::Lacks => Slot::Lacks,
    }
}

fn work_in<R: Wait, G: Gate>(rt: &R, alloc: Global, slot: &mut Slot, gate: &G)
    requires { IsReady slot.old }
    ensures { Works slot.old slot.new }
{
    let taken = std::mem::replace(slot, Slot::Lacks);
    *slot = worked(rt, alloc, taken, gate);
}

/// A slot for each frame, its letters posted.
fn slots_of<R: Wait>(rt: &R, alloc: Global, shares: Vec<Share>) -> Result<Vec<Slot>, NoMemory>
    ensures { IfOk result (λ slots. AllZip IsWaiting shares.items slots.items) }
{
    let mut slots = Vec::with_capacity(alloc, shares.len())?;
    for share in shares {
        let job = job_of(rt, alloc, share)?;
        slots.push(Slot::Waits(job))?;
    }
    Ok(slots)
}

/// Adds lines behind others.
fn add_lines(lines: &mut Lines, own: Vec<Line>) -> Result<(), NoMemory>
    ensures { OnOk result (lines.new ≡ lines.old ++ own.items) }
{
    for line in own {
        lines.push(line)?;
    }
    Ok(())
}

/// Adds a frame, and its lines behind the others.
fn gather_one(frames: &mut Frames, lines: &mut Lines, slot: Slot) -> Result<(), NoMemory>
    ensures { IfOk result (λ _. (slots : List Slot) → AreGathered slots frames.old.items lines.old → AreGathered (slots ++ slot ∷ []) frames.new.items lines.new) }
{
    match slot {
        Slot::Ends(acted) => {
            let Acted { frame, lines: own } = acted;
            frames.push(frame)?;
            add_lines(lines, own.into_vec())
        }
        _ => Err(NoMemory),
    }
}

/// All frames and their lines; there was no memory where a slot lacks its frame.
fn gather(alloc: Global, slots: Vec<Slot>) -> Result<(Frames, Lines), NoMemory>
    ensures { IfOk result (λ out. AreGathered slots.items out.0.items out.1) }
{
    let mut frames = Vec::with_capacity(alloc, slots.len())?;
    let mut lines = Lines::new(alloc);
    for slot in slots {
        gather_one(&mut frames, &mut lines, slot)?;
    }
    Ok((frames, lines))
}

/// Does each action at the frame of its tree, each frame's in their order, by at most 32 workers; the lines are gathered
/// frame by frame. Before a frame's first action its worker pauses at the gate. Where there is no memory, the frames are
/// given up. It costs the actions and what their edits cost.
pub fn act_all<G: Gate, R: Threads + Wait + Sync>(
    rt: &R,
    alloc: Global,
    frames: Frames,
    actions: &Actions,
    gate: &G,
) -> Result<(Frames, Lines), NoMemory>
    requires { NoneTwice (map (λ (j : Journaled). j.tree) frames.items) }

    // They are those of performing the actions one after the other, for every schedule.
    ensures frames { IfOk result (λ out. out.0.items ≡ map (λ (a : Acted). a.frame) (one_by_one actions.now (map at_start frames.items))) }
    ensures lines { IfOk result (λ out. out.1 ≡ flat_map (λ (a : Acted). a.lines) (one_by_one actions.now (map at_start frames.items))) }
{
    let shares = shares_of(alloc, frames, actions)?;
    let mut slots = slots_of(rt, alloc, shares)?;
    thread::for_each_mut(
        rt,
        slots.as_mut_slice(),
        WORKERS,
        &|_: usize, slot: &mut Slot|
            requires { IsReady slot.old }
            ensures { Works slot.old slot.new }
        { work_in(rt, alloc, slot, gate) },
    );
    gather(alloc, slots)
}
