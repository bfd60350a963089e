//! What `gen` tells of the run of a made script.
ghost use Rattle.std.specs.Prelude.{◌≡◌, ℕ, ◌+◌, ◌<◌, ◌≤◌, ◌∷◌, [], length, sum_by, string_bytes, IfOk, Some};
ghost use Rattle.ax_ask.specs.declared.line.Line.TheVariants.{Passed, Received};
ghost use Rattle.ax_ask.specs.declared.line.UpdateNote.{UpdateNote as Note};
ghost use Rattle.ax_trees.specs.Lists.{NoneTwice};
ghost use Rattle.ax_tree.specs.Forest.{live_tree};
ghost use Rattle.ax_forest.specs.Past.{forest_of};
ghost use Rattle.ax_top.specs.Gen.{gen_text, nodes_in, nodes_of};
ghost use Rattle.ax_top.specs.Counting.{plus, counts_of, counts_line};

use ax_ask::{Line, PassNote, UpdateNote};
use ax_base::{NoMemory, TreeId};
use ax_core::{Core, Listener};
use ax_forest::Forest;
use ax_gen::make;
use ax_report::Bytes;
use ax_tree::{Grove, TreeView, Verdict};
use std::alloc::{AllocError, Global};

/// What the lines of a run tell.
#[derive(Clone, Copy)]
struct Counts {
    /// Packets that passes made.
    passes: u64,
    /// Node data that their updates list.
    listed: u64,
    /// Receipts that were applied.
    applied: u64,
    /// Events that these told.
    events: u64,
}

/// Makes a script, runs it, and gives its line. The lines of the run are counted as they come, and not kept.
pub(crate) fn gen_text(alloc: Global, seed: u32, frames: u32, ops: u32) -> Result<Bytes, NoMemory>
    requires some { 0 < frames }
    requires frames { frames ≤ 1000 }
    requires ops { ops ≤ 900000 }
    ensures { IfOk result (λ line. gen_text seed frames ops ≡ Some line.items) }
{
    let script = make(alloc, seed, frames, ops)?;
    let mut core = Core::new(alloc, script)?;
    let mut counts = no_counts();
    core.tell_finale(&mut counts)?;
    let nodes = nodes_of(core.forest())?;
    let head = format!(in alloc; "gen {seed} {frames} {ops}")?;
    let line = counts_line(alloc, &head, counts, nodes)?;
    Ok(line.into_bytes())
}

#[tactic(auto, unfolding(crate::specs::Counting::counts_line))]
fn counts_line(alloc: Global, head: &str, counts: Counts, nodes: u64) -> Result<String, AllocError>
    ensures { IfOk result (λ line. string_bytes line ≡ counts_line head.now counts nodes) }
{
    let Counts {
        passes,
        listed,
        applied,
        events,
    } = counts;
    format!(in alloc;
        "{head} passes {passes} listed {listed} applied {applied} events {events} nodes {nodes}\n"
    )
}

/// The sum. One that is beyond 64 bits counts as want of memory: what it counts stood in memory.
fn sum_of(count: u64, more: usize) -> Result<u64, NoMemory>
    ensures { IfOk result (λ sum. sum ≡ count + more) }
{
    match count.checked_add(more as u64) {
        Some(sum) => Ok(sum),
        None => Err(NoMemory),
    }
}

/// The sum with how many node data the updates list.
fn with_listed(listed: u64, updates: &[UpdateNote]) -> Result<u64, NoMemory>
    ensures { IfOk result (λ sum. sum ≡ listed + sum_by (λ (u : Note). length u.nodes) updates.now) }
{
    let mut sum = listed;
    for update in updates {
        sum = sum_of(sum, update.nodes.len())?;
    }
    Ok(sum)
}

/// The counts with what a pass tells, of whatever tree.
fn with_pass(counts: Counts, note: &PassNote) -> Result<Counts, NoMemory>
    ensures { IfOk result (λ sum. (tree : ℕ) → sum ≡ plus counts (counts_of (Passed tree note.now ∷ []))) }
{
    match note {
        PassNote::Made(made) => Ok(Counts {
            passes: sum_of(counts.passes, 1)?,
            listed: with_listed(counts.listed, made.updates.as_slice())?,
            ..counts
        }),
        PassNote::Nothing => Ok(counts),
    }
}

/// The counts with what a receipt tells, of whatever tree.
fn with_receipt(counts: Counts, verdict: &Verdict) -> Result<Counts, NoMemory>
    ensures { IfOk result (λ sum. (tree : ℕ) → sum ≡ plus counts (counts_of (Received tree verdict.now ∷ []))) }
{
    match verdict {
        Verdict::Applied { events, .. } => Ok(Counts {
            applied: sum_of(counts.applied, 1)?,
            events: sum_of(counts.events, events.len())?,
            ..counts
        }),
        _ => Ok(counts),
    }
}

/// The counts with what one more line tells.
fn with_line(counts: Counts, line: &Line) -> Result<Counts, NoMemory>
    ensures { IfOk result (λ sum. sum ≡ plus counts (counts_of (line.now ∷ []))) }
{
    match line {
        Line::Passed { note, .. } => with_pass(counts, note),
        Line::Received { verdict, .. } => with_receipt(counts, verdict),
        _ => Ok(counts),
    }
}

/// Each line adds what it tells.
impl Listener for Counts {
    ghost heard = { λ counts line. plus counts (counts_of (line ∷ [])) };

    fn hear(&mut self, line: Line) -> Result<(), NoMemory> {
        *self = with_line(*self, &line)?;
        Ok(())
    }
}

fn no_counts() -> Counts
    ensures { result ≡ counts_of [] }
{
    Counts {
        passes: 0,
        listed: 0,
        applied: 0,
        events: 0,
    }
}

/// How many nodes the tree's mirror has, where the tree is live.
fn nodes_in(forest: &Forest, tree: TreeId) -> usize
    ensures { result ≡ nodes_in (live_tree (forest_of forest.now) tree) }
{
    match forest.tree(tree) {
        Some(mirror) => mirror.count(),
        None => 0,
    }
}

/// How many nodes all mirrors have.
fn nodes_of(forest: &Forest) -> Result<u64, NoMemory>
    requires { NoneTwice forest.now.trees }
    ensures { IfOk result (λ nodes. nodes ≡ nodes_of (forest_of forest.now)) }
{
    let mut nodes = 0;
    for tree in forest.trees() {
        nodes = sum_of(nodes, nodes_in(forest, *tree))?;
    }
    Ok(nodes)
}
