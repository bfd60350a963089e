//! The forest: all mirrors with their tokens, and their one history.
ghost use Rattle.std.specs.Prelude.{if◌then◌else◌, ◌≡◌, ◌≤◌, ◌<◌, ◌+◌, ◌++◌, ◌∷◌, [], length, IfOk, OnOk, OnErr, IfErr};
ghost use Rattle.ax_trees.specs.Lists.{contains, NoneTwice};
ghost use Rattle.ax_tree.specs.declared.packet.HEntry.TheVariants.{Got, Asked, Ended, Probed};
ghost use Rattle.ax_rules.specs.Histories.{token_of, applied_pass};
ghost use Rattle.ax_rules.specs.Mirrors.{built_of, built_verdict_of};
ghost use Rattle.ax_forest.specs.Fates.{IsTaken, IsWhy, ContinuesGood, IsOfSource, IsNoRefusal};
ghost use Rattle.ax_forest.specs.Past.{forest_of};
ghost use Rattle.ax_forest.specs.Entries.{past_after, IsAnswer, IsProbed};

use crate::answers::{ForestErr, ProbeOut, ReceiveErr};
use crate::asking::{ask_in, destroy_in};
use crate::probing::probe_in;
use crate::taking::receive_in;
use crate::tally::{Tallies, first_tallies, pass_at, token_at};
use crate::trees::Trees;
use crate::view::ForestView;
use ax_base::{NoMemory, PassNo, Place, Token, TreeId};
use ax_mirror::Mirror;
use ax_pages::Steps;
use ax_tree::{Grove, History, Packet, TreeUpdate, Verdict};
use std::alloc::Global;
use std::marker::{Brand, Model};
use std::sync::ledger::{Blank, Ledger};

/// The trees in their order, and all that the browser has done and received. As a grove it has the trees that the applied
/// bundles build. docs/FORMATS.md has the verdict rule.
#[derive(Drop)]
pub struct Forest {
    trees: Trees,
    tallies: Tallies,
    history: History,
    alloc: Global,
}

impl Model for Forest {
    ghost use Rattle.ax_forest.specs.Past.{Past, coded_past};
    ghost use Rattle.ax_forest.specs.Shown.{ids_of};
    ghost use Rattle.ax_forest.specs.Tallied.{IsPast};

    ghost Value = { Past };

    ghost coded = { coded_past };

    ghost view = { λ f. record { trees = ids_of f.trees; history = f.history } };

    ghost invariant = { λ f. IsPast f.trees f.tallies (ids_of f.trees) f.history };
}

impl Forest {
    /// All trees are live and empty. The first is the first tree.
    pub fn new(alloc: Global, trees: &[TreeId]) -> Result<Forest, NoMemory>
        requires some { 1 ≤ length trees.now }
        requires once { NoneTwice trees.now }
        ensures { IfOk result (λ f. f ≡ record { trees = trees.now; history = [] }) }
    {
        let tallies = first_tallies(alloc, trees)?;
        let trees = Trees::new(alloc, trees)?;
        Ok(Forest {
            trees,
            tallies,
            history: History::new(alloc),
            alloc,
        })
    }

    /// The trees in their order.
    pub fn trees(&self) -> &[TreeId]
        ensures { result.now ≡ self.now.trees }
    {
        self.trees.ids()
    }

    /// All that was done and received, in order.
    pub fn history(&self) -> &History
        ensures { result.now ≡ self.now.history }
    {
        &self.history
    }

    /// The tree's last applied pass, 0 before the first and for a strange tree. Constant time.
    pub fn at(&self, t: TreeId) -> PassNo
        ensures { result.0 ≡ (if contains self.now.trees t then applied_pass self.now.history t else 0) }
    {
        pass_at(&self.tallies, t)
    }

    /// How often the tree was asked for before it ended, 0 for a strange tree. Constant time.
    pub fn token(&self, t: TreeId) -> Token
        ensures { result.0 ≡ (if contains self.now.trees t then token_of self.now.history t else 0) }
    {
        token_at(&self.tallies, t)
    }

    /// Receives a packet by the verdict rule, whatever its slip says. Where it is applied, the tree's mirror becomes what the
    /// update rule makes of the bundle, and the verdict has the events between the two. A packet that is refused comes back,
    /// and nothing has changed. Where its tree's packets are good, none is refused, and the mirror is the source at the last
    /// applied pass. It costs what the bundle costs; where a view holds the trees, it also copies a page of at most 64 mirrors and
    /// the table of at most 16 pages.
    pub fn receive(&mut self, packet: Packet) -> Result<Verdict, ReceiveErr>
        ensures verdict { IfOk result (λ v. v ≡ built_verdict_of self.old.history packet) }
        ensures taken { OnOk result (IsTaken self.old.trees self.old.history packet) }
        ensures ok { OnOk result (self.new ≡ record self.old { history = self.old.history ++ Got packet ∷ [] }) }
        ensures packet { IfErr result (λ e. e.packet ≡ packet) }
        ensures why { IfErr result (λ e. IsWhy self.old.trees self.old.history packet e.why) }
        ensures unchanged { OnErr result (self.new ≡ self.old) }
        ensures source { OnOk result (ContinuesGood self.old.history packet → IsOfSource self.old.history packet) }
        ensures good { IfErr result (λ e. ContinuesGood self.old.history packet → IsNoRefusal e.why) }
    {
        self.receive_counted::<Brand>(packet, Blank::new(1))
    }

    fn receive_counted<L: Ledger>(
        &mut self,
        packet: Packet,
        blank: Blank,
    ) -> Result<Verdict, ReceiveErr>
        requires { (blank.name ≡ L.name) × (blank.parts ≡ L.parts) × (0 < L.parts) }
        ensures verdict { IfOk result (λ v. v ≡ built_verdict_of self.old.history packet) }
        ensures taken { OnOk result (IsTaken self.old.trees self.old.history packet) }
        ensures ok { OnOk result (self.new ≡ record self.old { history = self.old.history ++ Got packet ∷ [] }) }
        ensures packet { IfErr result (λ e. e.packet ≡ packet) }
        ensures why { IfErr result (λ e. IsWhy self.old.trees self.old.history packet e.why) }
        ensures unchanged { OnErr result (self.new ≡ self.old) }
    {
        let mut steps: Steps<L> = Steps::start(blank);
        receive_in(
            self.alloc,
            &mut self.trees,
            &mut self.tallies,
            &mut self.history,
            packet,
            &mut steps,
        )
    }

    /// The trees as they stand, which no later call changes. Constant time: the view shares all that the forest has of them.
    pub fn view(&self) -> Result<ForestView, NoMemory>
        ensures { IfOk result (λ v. v ≡ forest_of self.now) }
    {
        ForestView::of(&self.trees)
    }

    /// Asks for a tree, and gives its new token, one more than the last. Constant time.
    pub fn ask(&mut self, t: TreeId) -> Result<Token, ForestErr>
        ensures token { IfOk result (λ k. k.0 ≡ token_of self.old.history t + 1) }
        ensures answer { IsAnswer self.old.trees self.old.history t result }
        ensures entry { self.new ≡ past_after result (Asked t) self.old }
    {
        ask_in(&self.trees, &mut self.tallies, &mut self.history, t)
    }

    /// Ends a tree, which then isn't live. Constant time, and where a view holds the trees, a count for each.
    pub fn destroy(&mut self, t: TreeId) -> Result<(), ForestErr>
        ensures answer { IsAnswer self.old.trees self.old.history t result }
        ensures entry { self.new ≡ past_after result (Ended t) self.old }
    {
        destroy_in(&mut self.trees, &self.tallies, &mut self.history, t)
    }

    /// Tries an update on a tree, which stays as it is, by the update rule. It costs what the update costs.
    pub fn probe(&mut self, t: TreeId, update: &TreeUpdate) -> Result<ProbeOut, ForestErr>
        ensures out { IfOk result (IsProbed update.now (built_of self.old.history t)) }
        ensures answer { IsAnswer self.old.trees self.old.history t result }
        ensures entry { self.new ≡ past_after result (Probed t update.now) self.old }
    {
        probe_in(
            self.alloc,
            &self.trees,
            &self.tallies,
            &mut self.history,
            t,
            update,
        )
    }
}

impl Grove for Forest {
    ghost use Rattle.ax_forest.specs.Past.{forest_of};

    ghost forest = { λ f. forest_of f };

    type Tree = Mirror;

    fn first(&self) -> TreeId {
        self.trees.first()
    }

    fn live(&self, t: TreeId) -> bool {
        self.trees.live(t)
    }

    fn tree(&self, t: TreeId) -> Option<&Mirror> {
        self.trees.tree(t)
    }

    fn host_of(&self, t: TreeId) -> Option<Place> {
        self.trees.host_of(t)
    }

    fn hosted_by(&self, p: Place) -> Option<TreeId> {
        self.trees.hosted_by(p)
    }
}
