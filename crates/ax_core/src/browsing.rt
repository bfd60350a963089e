//! The operations of the browser, and their lines.
ghost use Rattle.std.specs.Prelude.{◌≡◌, true, if◌then◌else◌, None, Some, ◌++◌, ◌∷◌, [], IfOk, OnOk, OnErr};
ghost use Rattle.ax_trees.specs.Lists.{contains};
ghost use Rattle.ax_tree.specs.declared.packet.HEntry.TheVariants.{Asked, Ended, Probed};
ghost use Rattle.ax_ask.specs.declared.line.Line.TheVariants as lines;
ghost use Rattle.ax_ask.specs.Calls.{tree_of};
ghost use Rattle.ax_rules.specs.Histories.{is_gone, got};
ghost use Rattle.ax_tree.specs.Packets.{IsGood};
ghost use Rattle.ax_run_rules.specs.Steps.{next_token, probe_note};
ghost use Rattle.ax_core.specs.Receipts.{with_entry, entry_by, line_by, note_of};

use ax_ask::{BrowserOp, Line, ProbeNote};
use ax_base::{NoMemory, TreeId};
use ax_forest::{Forest, ForestErr, ProbeOut};
use ax_tree::TreeUpdate;

/// Asks for a tree, and gives the line.
pub(crate) fn ask(forest: &mut Forest, tree: TreeId) -> Result<Line, NoMemory>
    requires { contains forest.old.trees tree ≡ true }
    ensures line { IfOk result (λ line. line ≡ lines.Asked tree (if is_gone forest.old.history tree then None else Some (record { 0 = next_token forest.old.history tree }))) }
    ensures after { OnOk result (forest.new ≡ record forest.old { history = forest.old.history ++ Asked tree ∷ [] }) }
    ensures err { OnErr result (forest.new ≡ forest.old) }
{
    let token = match forest.ask(tree) {
        Ok(token) => Some(token),
        Err(ForestErr::AlreadyGone(_)) => None,
        Err(_) => return Err(NoMemory),
    };
    Ok(Line::Asked { tree, token })
}

/// Ends a tree, and gives the line.
fn destroy(forest: &mut Forest, tree: TreeId) -> Result<Line, NoMemory>
    requires { contains forest.old.trees tree ≡ true }
    ensures line { IfOk result (λ line. line ≡ lines.Destroyed tree (is_gone forest.old.history tree)) }
    ensures after { OnOk result (forest.new ≡ record forest.old { history = forest.old.history ++ Ended tree ∷ [] }) }
    ensures err { OnErr result (forest.new ≡ forest.old) }
{
    let gone = match forest.destroy(tree) {
        Ok(()) => false,
        Err(ForestErr::AlreadyGone(_)) => true,
        Err(_) => return Err(NoMemory),
    };
    Ok(Line::Destroyed { tree, gone })
}

/// What is told of a probe.
fn note_of(out: ProbeOut) -> ProbeNote
    ensures { result ≡ note_of out }
{
    match out {
        ProbeOut::Accepted(nodes) => ProbeNote::Accepted(nodes),
        ProbeOut::Refused(refusal) => ProbeNote::Refused(refusal),
    }
}

/// Tries an update, and gives the line.
fn probe(forest: &mut Forest, tree: TreeId, update: &TreeUpdate) -> Result<Line, NoMemory>
    requires named { contains forest.old.trees tree ≡ true }
    requires good { IsGood tree (got forest.old.history tree) }
    ensures line { IfOk result (λ line. line ≡ lines.Probed tree (probe_note forest.old.history tree update.now)) }
    ensures after { OnOk result (forest.new ≡ record forest.old { history = forest.old.history ++ Probed tree update.now ∷ [] }) }
    ensures err { OnErr result (forest.new ≡ forest.old) }
{
    match forest.probe(tree, update) {
        Ok(out) => Ok(Line::Probed {
            tree,
            note: note_of(out),
        }),
        Err(ForestErr::AlreadyGone(_)) => Ok(Line::Probed {
            tree,
            note: ProbeNote::Gone,
        }),
        Err(_) => Err(NoMemory),
    }
}

/// Does an operation of the browser, and gives the line.
pub(crate) fn browse(forest: &mut Forest, op: &BrowserOp) -> Result<Line, NoMemory>
    requires named { contains forest.old.trees (tree_of op.now) ≡ true }
    requires good { IsGood (tree_of op.now) (got forest.old.history (tree_of op.now)) }
    ensures line { IfOk result (λ line. line ≡ line_by forest.old.history op.now) }
    ensures after { OnOk result (forest.new ≡ with_entry forest.old (entry_by op.now)) }
    ensures err { OnErr result (forest.new ≡ forest.old) }
{
    match op {
        BrowserOp::Ask(tree) => ask(forest, *tree),
        BrowserOp::Destroy(tree) => destroy(forest, *tree),
        BrowserOp::Probe(tree, update) => probe(forest, *tree, update),
    }
}
