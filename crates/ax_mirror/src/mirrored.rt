//! The mirror: a tree that updates and bundles change, or leave as it was.

ghost use Rattle.std.specs.Prelude.{[], ◌∷◌, ◌≡◌, ◌≤◌, ◌<◌, ◌+◌, length, take, OnOk, OnErr, IfOk, IfErr, Ok};
ghost use Rattle.ax_trees.specs.Trees.{height, root_of};
ghost use Rattle.ax_tree.specs.Tree.{empty, IsWellFormed};
ghost use Rattle.ax_tree.specs.Updates.{applied, applied_all};
ghost use Rattle.ax_mirror.specs.Mirrors.{NamesChanges, RefusedAs, BrokenAs, IsForMemory, base_of};
ghost use Rattle.ax_mirror.specs.Accounts.{NamesOnly, StepsFor};

use crate::about::About;
use crate::bundling::{begin, begin_anew, take_all, take_one};
use crate::entries::Entries;
use ax_base::{NoMemory, NodeId, TreeId};
use ax_node::{NodeData, TreeData};
use ax_pages::Steps;
use ax_tree::{Bundle, BundleErr, Refusal, Touched, TreeUpdate, TreeView};
use std::alloc::Global;
use std::marker::{Brand, Model};
use std::sync::ledger::{Blank, Ledger};

/// The receiver's copy of a tree. docs/FORMATS.md has the update rule.
#[derive(Drop)]
pub struct Mirror {
    nodes: Entries,
    root: Option<NodeId>,
    about: About,
}

impl Model for Mirror {
    ghost use Rattle.ax_tree.specs.Tree.{Tree};
    ghost use Rattle.ax_mirror.specs.Kept.{HoldsTree, shown};
    ghost use Rattle.ax_mirror.specs.Mirrors.{coded_tree};

    ghost Value = { Tree };

    ghost coded = { coded_tree };

    ghost view = { λ s. record { about = s.about; trees = shown s.nodes s.root } };

    ghost invariant = { λ s. HoldsTree s.nodes s.root (shown s.nodes s.root) };
}

impl Mirror {
    /// A tree without nodes.
    pub fn new(alloc: Global, tree: TreeId) -> Mirror
        ensures { result ≡ empty tree }
    {
        Mirror {
            nodes: Entries::new(alloc),
            root: None,
            about: About::new(alloc, tree),
        }
    }

    /// The same mirror. It shares nodes and tree data, and takes no memory.
    pub fn share(&self) -> Result<Mirror, NoMemory>
        ensures { IfOk result (λ m. m ≡ self.now) }
    {
        let nodes = self.nodes.share()?;
        let about = self.about.share()?;
        Ok(Mirror {
            nodes,
            root: self.root,
            about,
        })
    }

    /// Applies an update by the update rule of docs/FORMATS.md, or refuses it and stays as it was. The tree keeps its id. The
    /// answer names each id whose node is changed. Linear in the update, in what it removes, and in the child lists of the
    /// nodes that it lists.
    pub fn unserialize(&mut self, update: &TreeUpdate) -> Result<Touched, Refusal>
        ensures ok { OnOk result (applied update.now self.old ≡ Ok self.new) }
        ensures err { IfErr result (λ r. RefusedAs r (applied update.now self.old)) }
        ensures unchanged { OnErr result (self.new ≡ self.old) }
        ensures same_tree { self.new.about.tree ≡ self.old.about.tree }
        ensures named { IfOk result (λ t. NamesChanges self.old self.new t) }
        ensures only { IfOk result (λ t. NamesOnly (update.now ∷ []) self.old self.new t) }
    {
        self.unserialize_counted::<Brand>(update, Blank::new(1))
    }

    fn unserialize_counted<L: Ledger>(
        &mut self,
        update: &TreeUpdate,
        blank: Blank,
    ) -> Result<Touched, Refusal>
        requires { (blank.name ≡ L.name) × (blank.parts ≡ L.parts) × (0 < L.parts) }
        ensures ok { OnOk result (applied update.now self.old ≡ Ok self.new) }
        ensures err { IfErr result (λ r. RefusedAs r (applied update.now self.old)) }
        ensures unchanged { OnErr result (self.new ≡ self.old) }
        ensures named { IfOk result (λ t. NamesChanges self.old self.new t) }
        ensures only { IfOk result (λ t. NamesOnly (update.now ∷ []) self.old self.new t) }
    {
        let mut steps: Steps<L> = Steps::start(blank);
        let Ok(mut draft) = begin(&self.nodes, self.root) else {
            return Err(Refusal::NoMemory);
        };
        let Ok(mut about) = self.about.share() else {
            return Err(Refusal::NoMemory);
        };
        match take_one(&mut draft, &mut about, update, &mut steps) {
            Ok(()) => {}
            Err(refusal) => return Err(refusal),
        }
        self.nodes = draft.nodes;
        self.root = draft.root;
        self.about = about;
        Ok(draft.touched)
    }

    /// Applies the updates one after the other, upon the empty tree where `fresh` is true, or refuses them and stays as it
    /// was. The tree keeps its id. A refusal names the first refused update. It takes a step for each page of nodes that is
    /// copied: no more than there are touched ids. A refused call takes no more than there are ids that were in the tree or
    /// that an update up to the refused one names.
    pub fn apply<L: Ledger>(
        &mut self,
        bundle: &Bundle,
        fresh: bool,
        steps: &mut Steps<L>,
    ) -> Result<Touched, BundleErr>
        ensures ok { OnOk result (applied_all bundle.now (base_of fresh self.old) ≡ Ok self.new) }
        ensures err { IfErr result (λ r. BrokenAs r (applied_all bundle.now (base_of fresh self.old))) }
        ensures at { IfErr result (λ r. r.at ≤ length bundle.now) }
        ensures unchanged { OnErr result (self.new ≡ self.old) }
        ensures same_tree { self.new.about.tree ≡ self.old.about.tree }
        ensures named { IfOk result (λ t. NamesChanges self.old self.new t) }
        ensures cost { IfOk result (λ t. steps.new ≤ steps.old + length t) }
        ensures only { IfOk result (λ t. NamesOnly bundle.now self.old self.new t) }
        ensures spent { IfErr result (λ r. StepsFor (take (r.at + 1) bundle.now) self.old steps.old steps.new) }
    {
        if fresh {
            return self.apply_anew(bundle, steps);
        }
        self.apply_on(bundle, steps)
    }

    fn apply_on<L: Ledger>(
        &mut self,
        bundle: &Bundle,
        steps: &mut Steps<L>,
    ) -> Result<Touched, BundleErr>
        ensures ok { OnOk result (applied_all bundle.now self.old ≡ Ok self.new) }
        ensures err { IfErr result (λ r. BrokenAs r (applied_all bundle.now self.old)) }
        ensures at { IfErr result (λ r. r.at ≤ length bundle.now) }
        ensures unchanged { OnErr result (self.new ≡ self.old) }
        ensures named { IfOk result (λ t. NamesChanges self.old self.new t) }
        ensures cost { IfOk result (λ t. steps.new ≤ steps.old + length t) }
        ensures only { IfOk result (λ t. NamesOnly bundle.now self.old self.new t) }
        ensures spent { IfErr result (λ r. StepsFor (take (r.at + 1) bundle.now) self.old steps.old steps.new) }
    {
        let Ok(mut draft) = begin(&self.nodes, self.root) else {
            return Err(no_memory());
        };
        let Ok(mut about) = self.about.share() else {
            return Err(no_memory());
        };
        match take_all(&mut draft, &mut about, bundle.as_slice(), steps) {
            Ok(()) => {}
            Err(refusal) => return Err(refusal),
        }
        self.nodes = draft.nodes;
        self.root = draft.root;
        self.about = about;
        Ok(draft.touched)
    }

    fn apply_anew<L: Ledger>(
        &mut self,
        bundle: &Bundle,
        steps: &mut Steps<L>,
    ) -> Result<Touched, BundleErr>
        ensures ok { OnOk result (applied_all bundle.now (empty self.old.about.tree) ≡ Ok self.new) }
        ensures err { IfErr result (λ r. BrokenAs r (applied_all bundle.now (empty self.old.about.tree))) }
        ensures at { IfErr result (λ r. r.at ≤ length bundle.now) }
        ensures unchanged { OnErr result (self.new ≡ self.old) }
        ensures named { IfOk result (λ t. NamesChanges self.old self.new t) }
        ensures cost { IfOk result (λ t. steps.new ≤ steps.old + length t) }
        ensures only { IfOk result (λ t. NamesOnly bundle.now self.old self.new t) }
        ensures spent { IfErr result (λ r. StepsFor (take (r.at + 1) bundle.now) self.old steps.old steps.new) }
    {
        let Ok(mut draft) = begin_anew(&self.nodes, self.root) else {
            return Err(no_memory());
        };
        let mut about = About::new(self.nodes.allocator(), self.about.get().tree);
        match take_all(&mut draft, &mut about, bundle.as_slice(), steps) {
            Ok(()) => {}
            Err(refusal) => return Err(refusal),
        }
        self.nodes = draft.nodes;
        self.root = draft.root;
        self.about = about;
        Ok(draft.touched)
    }
}

fn no_memory() -> BundleErr
    ensures why { IsForMemory result }
    ensures at { result.at ≡ 0 }
{
    BundleErr {
        at: 0,
        why: Refusal::NoMemory,
    }
}

impl TreeView for Mirror {
    ghost tree = { λ t. t };

    /// The root's id. No chain has more than 256 nodes.
    fn root(&self) -> Option<NodeId>
        ensures root { result ≡ root_of self.now.trees }
        ensures well_formed { IsWellFormed self.now }
        ensures low { height self.now.trees ≤ 256 }
    {
        self.root
    }

    fn node(&self, id: NodeId) -> Option<&NodeData> {
        match self.nodes.read(id) {
            Some(entry) => Some(&entry.node),
            None => None,
        }
    }

    fn parent(&self, id: NodeId) -> Option<NodeId> {
        match self.nodes.read(id) {
            Some(entry) => entry.above,
            None => None,
        }
    }

    fn tree_data(&self) -> &TreeData {
        self.about.get()
    }

    fn count(&self) -> usize {
        self.nodes.len()
    }
}
