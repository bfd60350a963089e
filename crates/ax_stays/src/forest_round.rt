//! The value in the forest's turn.
ghost use Rattle.std.specs.Prelude.{◌≡◌, ◌≤◌, ◌+◌, ◌++◌, ◌∷◌, [], length, IfOk, MatchResult};
ghost use Rattle.ax_trees.specs.Lists.{NoneTwice};
ghost use Rattle.ax_tree.specs.declared.packet.HEntry.TheVariants.{Got, Asked, Ended, Probed};
ghost use Rattle.ax_forest.specs.declared.answers.ForestErr.TheVariants.{NoMemory as ForestNoMemory};
ghost use Rattle.ax_forest.specs.Entries.{past_after, IsAnswer, IsProbed};
ghost use Rattle.ax_rules.specs.Histories.{token_of};
ghost use Rattle.ax_rules.specs.Mirrors.{mirror_of, verdict_of};
ghost use Rattle.ax_stays.specs.Received.{CanBeReceived};

use crate::look::Look;
use ax_base::{NoMemory, Token, TreeId};
use ax_forest::{Forest, ForestErr, ProbeOut, ReceiveErr};
use ax_tree::{HEntry, Packet, TreeUpdate, Verdict};
use ax_turn::Kept;
use std::alloc::Global;
use std::marker::Model;

/// The forest, as its turn keeps it: the browser's seat makes all entries of its history, and what was received of each
/// tree is good.
#[derive(Drop)]
pub struct ForestRound {
    forest: Forest,
    /// How many packets were received.
    receipts: usize,
}

impl Model for ForestRound {
    ghost use Rattle.ax_forest.specs.Past.{Past, coded_past};
    ghost use Rattle.ax_stays.specs.Received.{KeepsReceipts};

    ghost Value = { Past };

    ghost coded = { coded_past };

    ghost view = { λ round. round.forest };

    ghost invariant = { λ round. KeepsReceipts round.forest.history round.receipts };
}

impl Kept for ForestRound {
    ghost use Rattle.ax_stays.specs.Makers.{by_browser};

    type Entry = HEntry;

    ghost entries = { λ past. past.history };

    ghost maker = { by_browser };

    ghost name = { λ past. past.trees };
}

impl ForestRound {
    pub fn new(alloc: Global, trees: &[TreeId]) -> Result<ForestRound, NoMemory>
        requires some { 1 ≤ length trees.now }
        requires once { NoneTwice trees.now }
        ensures { IfOk result (λ past. past ≡ record { trees = trees.now; history = [] }) }
    {
        let forest = Forest::new(alloc, trees)?;
        Ok(ForestRound {
            forest,
            receipts: 0,
        })
    }

    /// Receives a packet that comes next of its tree. None is refused.
    pub(crate) fn receive(&mut self, packet: Packet) -> Result<Verdict, (NoMemory, Packet)>
        requires { CanBeReceived self.old.trees self.old.history packet }
        ensures { MatchResult result
            (λ verdict. (verdict ≡ verdict_of self.old.history packet) × (self.new ≡ record self.old { history = self.old.history ++ Got packet ∷ [] }))
            (λ refused. (refused.1 ≡ packet) × (self.new ≡ self.old)) }
    {
        // More receipts than `usize` counts want more memory than there is.
        let Some(receipts) = self.receipts.checked_add(1) else {
            return Err((NoMemory, packet));
        };
        match self.forest.receive(packet) {
            Ok(verdict) => {
                self.receipts = receipts;
                Ok(verdict)
            }
            Err(refused) => Err(without_memory(refused)),
        }
    }

    pub(crate) fn ask(&mut self, t: TreeId) -> Result<Token, ForestErr>
        ensures token { IfOk result (λ k. k.0 ≡ token_of self.old.history t + 1) }
        ensures answer { IsAnswer self.old.trees self.old.history t result }
        ensures entry { self.new ≡ past_after result (Asked t) self.old }
    {
        self.forest.ask(t)
    }

    pub(crate) fn destroy(&mut self, t: TreeId) -> Result<(), ForestErr>
        ensures answer { IsAnswer self.old.trees self.old.history t result }
        ensures entry { self.new ≡ past_after result (Ended t) self.old }
    {
        self.forest.destroy(t)
    }

    pub(crate) fn probe(&mut self, t: TreeId, update: &TreeUpdate) -> Result<ProbeOut, ForestErr>
        ensures out { IfOk result (IsProbed update.now (mirror_of self.old.history t)) }
        ensures answer { IsAnswer self.old.trees self.old.history t result }
        ensures entry { self.new ≡ past_after result (Probed t update.now) self.old }
    {
        self.forest.probe(t, update)
    }

    /// What a reader sees, in constant time.
    pub(crate) fn look(&self, alloc: Global) -> Result<Look, NoMemory>
        ensures { IfOk result (λ look. look ≡ self.now) }
    {
        Look::at(alloc, &self.forest, self.receipts)
    }

    pub fn into_forest(self) -> Forest
        ensures { result ≡ self }
    {
        let ForestRound {
            forest,
            receipts: _,
        } = self;
        forest
    }
}

fn without_memory(refused: ReceiveErr) -> (NoMemory, Packet)
    requires { refused.why ≡ ForestNoMemory }
    ensures { result.1 ≡ refused.packet }
{
    (NoMemory, refused.packet)
}
