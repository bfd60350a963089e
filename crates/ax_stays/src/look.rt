//! What a reader sees of the forest.
ghost use Rattle.std.specs.Prelude.{◌≡◌, true, length, IfOk, IfErr};
ghost use Rattle.ax_query.specs.Memory.{takes_memory};
ghost use Rattle.ax_rules.specs.Mirrors.{forest_of};
ghost use Rattle.ax_run_rules.specs.Replies.{answer_of};
ghost use Rattle.ax_stays.specs.Received.{received, KeepsReceipts};

use ax_ask::{Query, Reply};
use ax_base::NoMemory;
use ax_forest::{Forest, ForestView};
use ax_query::answer;
use std::alloc::Global;
use std::marker::Model;
use std::snapshot::Snapshot;

/// A forest that no later call changes. Contracts see it as the trees in their order and the history that made it.
#[derive(Drop)]
pub struct Look {
    view: ForestView,
    entries: usize,
    receipts: usize,
    past: Snapshot<Forest>,
    alloc: Global,
}

impl Model for Look {
    ghost use Rattle.ax_forest.specs.Past.{Past, coded_past};
    ghost use Rattle.ax_stays.specs.Looks.{IsLook};

    ghost Value = { Past };

    ghost coded = { coded_past };

    ghost view = { λ l. l.past.value };

    ghost invariant = { λ l. IsLook l.past.value l.view l.entries l.receipts };
}

impl Look {
    /// Constant time: the view shares all that the forest has.
    pub(crate) fn at(alloc: Global, forest: &Forest, receipts: usize) -> Result<Look, NoMemory>
        requires { KeepsReceipts forest.now.history receipts }
        ensures { IfOk result (λ look. look ≡ forest.now) }
    {
        let view = forest.view()?;
        Ok(Look {
            view,
            entries: forest.history().len(),
            receipts,
            past: Snapshot::of(forest),
            alloc,
        })
    }

    /// How many entries the history has.
    pub fn entries(&self) -> u64
        ensures { result ≡ length self.now.history }
    {
        self.entries as u64
    }

    /// How many packets were received.
    pub fn receipts(&self) -> u64
        ensures { result ≡ length (received self.now.history) }
    {
        self.receipts as u64
    }

    /// The reply over the forest that is shown. It costs what the query costs.
    pub fn reply(&self, query: &Query) -> Result<Reply, NoMemory>
        ensures reply { IfOk result (λ reply. reply ≡ answer_of (forest_of self.now.trees self.now.history) query.now) }
        ensures memory { IfErr result (λ _. takes_memory query.now ≡ true) }
    {
        answer(self.alloc, &self.view, query)
    }
}
