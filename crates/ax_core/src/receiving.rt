//! The receipt of the oldest packet that waits.
ghost use Rattle.std.specs.Prelude.{◌≡◌, ◌++◌, IfOk, OnErr};
ghost use Rattle.ax_tree.specs.Packets.{IsGood};
ghost use Rattle.ax_rules.specs.Histories.{got};
ghost use Rattle.ax_core.specs.Receipts.{ReceiptDone};

use crate::operating::Waiting;
use ax_ask::Line;
use ax_base::{NoMemory, TreeId};
use ax_forest::Forest;

/// Receives the oldest packet of a tree, and gives the line, or none where no packet waits. A packet that finds no memory is
/// the oldest again. Beside the receipt it takes constant time.
pub(crate) fn receive_oldest(
    forest: &mut Forest,
    tree: TreeId,
    waiting: &mut Waiting,
) -> Result<Option<Line>, NoMemory>
    requires { IsGood tree (got forest.old.history tree ++ waiting.old.items) }
    ensures done { IfOk result (λ line. ReceiptDone tree forest.old waiting.old.items forest.new waiting.new.items line) }
    ensures forest { OnErr result (forest.new ≡ forest.old) }
    ensures waiting { OnErr result (waiting.new.items ≡ waiting.old.items) }
{
    let Some(packet) = waiting.pop_front() else {
        return Ok(None);
    };
    match forest.receive(packet) {
        Ok(verdict) => Ok(Some(Line::Received { tree, verdict })),
        Err(refused) => {
            waiting.push_front_reserved(refused.packet);
            Err(NoMemory)
        }
    }
}
