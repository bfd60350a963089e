//! What a reader has seen, for queries.
ghost use Rattle.std.specs.Prelude.{◌≡◌, true, length, IfOk, IfErr};
ghost use Rattle.ax_query.specs.Memory.{takes_memory};
ghost use Rattle.ax_rules.specs.Mirrors.{forest_of};
ghost use Rattle.ax_run_rules.specs.Replies.{answer_of};
ghost use Rattle.ax_stays.specs.Received.{received};

use ax_ask::{Query, Reply};
use ax_base::NoMemory;
use ax_stays::Look;
use std::alloc::Global;
use std::marker::Model;
use std::sync::Arc;

/// A snapshot: the forest as a reader has seen it, which no later call changes. Contracts see it as the trees in their order
/// and the history that it shows. It may go to another thread, and its queries wait for nobody.
#[derive(Drop)]
pub struct Snap {
    look: Arc<Look>,
}

impl Model for Snap {
    ghost use Rattle.std.specs.Arc.{arc_value};
    ghost use Rattle.ax_forest.specs.Past.{Past, coded_past};

    ghost Value = { Past };

    ghost coded = { coded_past };

    ghost view = { λ s. arc_value s.look };
}

impl Snap {
    pub(crate) fn of(alloc: Global, look: Look) -> Result<Snap, NoMemory>
        ensures { IfOk result (λ snap. snap ≡ look) }
    {
        match Arc::new(alloc, look) {
            Ok(look) => Ok(Snap { look }),
            Err(_) => Err(NoMemory),
        }
    }

    /// How many entries the history has.
    pub fn entries(&self) -> u64
        ensures { result ≡ length self.now.history }
    {
        self.look.entries()
    }

    /// How many packets were received.
    pub fn receipts(&self) -> u64
        ensures { result ≡ length (received self.now.history) }
    {
        self.look.receipts()
    }

    /// The same snapshot, at the cost of a count.
    pub fn again(&self) -> Result<Snap, NoMemory>
        ensures { IfOk result (λ snap. snap ≡ self.now) }
    {
        match Arc::try_clone(&self.look) {
            Ok(look) => Ok(Snap { look }),
            Err(_) => Err(NoMemory),
        }
    }

    /// The reply over the forest that is shown. It takes no runtime: no turn is entered, and nothing waits for it. It costs what
    /// the query costs.
    pub fn answer(&self, query: &Query) -> Result<Reply, NoMemory>
        ensures reply { IfOk result (λ reply. reply ≡ answer_of (forest_of self.now.trees self.now.history) query.now) }
        ensures memory { IfErr result (λ _. takes_memory query.now ≡ true) }
    {
        self.look.reply(query)
    }
}
