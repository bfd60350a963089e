//! The place of each tree among the trees of a hub.
ghost use Rattle.std.specs.Prelude.{◌≡◌, false, IfOk, MatchOption, Some, slice_get, replicate};
ghost use Rattle.ax_trees.specs.Lists.{contains, NoneTwice};
ghost use Rattle.ax_hub.specs.Hubs.{ArePlaces};

use ax_base::{NoMemory, Seq, TreeId};
use std::alloc::Global;
use std::marker::Model;

/// The trees in their order, with the place of each by its number.
#[derive(Drop)]
pub(crate) struct Places {
    trees: Seq<TreeId>,
    places: Vec<usize>,
}

impl Model for Places {
    ghost use Rattle.std.specs.Prelude.{List, ℕ};
    ghost use Rattle.ax_hub.specs.Hubs.{ArePlaces};

    ghost Value = { List ℕ };

    ghost view = { λ p. p.trees };

    ghost invariant = { λ p. ArePlaces p.trees p.places.items };
}

impl Places {
    pub(crate) fn new(alloc: Global, trees: &[TreeId]) -> Result<Places, NoMemory>
        requires { NoneTwice trees.now }
        ensures { IfOk result (λ places. places ≡ trees.now) }
    {
        let places = places_of(alloc, trees)?;
        let trees = Seq::from_slice(alloc, trees)?;
        Ok(Places { trees, places })
    }

    /// Constant time.
    pub(crate) fn place_of(&self, t: TreeId) -> Option<usize>
        ensures { MatchOption result (contains self.now t ≡ false) (λ at. slice_get self.now at ≡ Some t) }
    {
        let at = *self.places.get(t.get() as usize)?;
        let tree = *self.trees.get(at)?;
        if tree != t {
            return None;
        }
        Some(at)
    }
}

fn places_of(alloc: Global, trees: &[TreeId]) -> Result<Vec<usize>, NoMemory>
    requires { NoneTwice trees.now }
    ensures { IfOk result (λ places. ArePlaces trees.now places.items) }
{
    let mut places = zeros(alloc)?;
    for at in 0..trees.len() {
        places[trees[at].get() as usize] = at;
    }
    Ok(places)
}

/// A place for each number that a tree may have.
fn zeros(alloc: Global) -> Result<Vec<usize>, NoMemory>
    ensures { IfOk result (λ zeros. zeros.items ≡ replicate 1001 0) }
{
    match vec![in alloc; 0usize; 1001] {
        Ok(zeros) => Ok(zeros),
        Err(_) => Err(NoMemory),
    }
}
