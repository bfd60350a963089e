//! The ids that a change touched.
ghost use Rattle.std.specs.Prelude.{◌≡◌, ◌↔◌, [], length, not, slice_get, IsTrue, IfOk, OnOk, OnErr};
ghost use Rattle.std.specs.Option.{option_copied};
ghost use Rattle.ax_trees.specs.Lists.{contains, NoneTwice};
ghost use Rattle.ax_tree.specs.Touching.{with_id};

use ax_base::{NoMemory, NodeId};
use indexmap::IndexSet;
use std::alloc::Global;
use std::marker::Model;

/// Ids that a change touched, each once, in the order in which they were. Each call costs constant time, taken over all
/// calls.
#[derive(Drop)]
pub struct Touched {
    ids: IndexSet<NodeId>,
}

impl Model for Touched {
    ghost use Rattle.std.specs.Prelude.{List, ℕ};
    ghost use Rattle.ax_trees.specs.Lists.{NoneTwice};

    ghost Value = { List ℕ };

    ghost view = { λ t. t.ids.keys };

    ghost invariant = { λ t. NoneTwice t.ids.keys };
}

impl Touched {
    pub fn new(alloc: Global) -> Touched
        ensures { result ≡ [] }
    {
        Touched {
            ids: IndexSet::new(alloc),
        }
    }

    /// All of them. No id stands twice.
    pub fn as_slice(&self) -> &[NodeId]
        ensures ids { result.now ≡ self.now }
        ensures once { NoneTwice self.now }
    {
        self.ids.as_slice()
    }

    pub fn len(&self) -> usize
        ensures { result ≡ length self.now }
    {
        self.ids.len()
    }

    pub fn is_empty(&self) -> bool
        ensures { IsTrue result ↔ (self.now ≡ []) }
    {
        self.as_slice().is_empty()
    }

    /// The id that was touched after `i` others.
    pub fn get(&self, i: usize) -> Option<&NodeId>
        ensures { option_copied result ≡ slice_get self.now i }
    {
        self.ids.get_index(i)
    }

    /// Whether the id is one of them.
    pub fn has(&self, id: NodeId) -> bool
        ensures { result ≡ contains self.now id }
    {
        self.ids.contains(&id)
    }

    /// Adds an id, and tells whether it is new.
    pub fn add(&mut self, id: NodeId) -> Result<bool, NoMemory>
        ensures ok { OnOk result (self.new ≡ with_id self.old id) }
        ensures new { IfOk result (λ b. b ≡ not (contains self.old id)) }
        ensures err { OnErr result (self.new ≡ self.old) }
    {
        match self.ids.insert(id) {
            Ok(new) => Ok(new),
            Err(_) => Err(NoMemory),
        }
    }

    /// Adds an id, where it isn't there already.
    pub fn push(&mut self, id: NodeId) -> Result<(), NoMemory>
        ensures ok { OnOk result (self.new ≡ with_id self.old id) }
        ensures err { OnErr result (self.new ≡ self.old) }
    {
        self.add(id)?;
        Ok(())
    }
}
