//! The trees that a script's frames have, as a set.
ghost use Rattle.std.specs.Prelude.{◌≡◌, IfOk, OnOk};
ghost use Rattle.ax_script.specs.Trees.{has_tree, knows, tree_or};

use crate::FrameScript;
use ax_base::{NoMemory, TreeId};
use std::alloc::Global;
use std::collections::BTreeSet;

#[tactic(auto, unfolding(crate::specs::Trees::knows))]
pub(crate) fn is_known(trees: &BTreeSet<u32>, tree: TreeId) -> bool
    ensures { result ≡ knows trees.now tree }
{
    trees.contains(&tree.get())
}

/// Adds a tree to the set.
#[tactic(auto, using(crate::proofs::Steps::added))]
pub(crate) fn add_tree(trees: &mut BTreeSet<u32>, tree: TreeId) -> Result<(), NoMemory>
    ensures { OnOk result (knows trees.new ≡ tree_or tree (knows trees.old)) }
{
    match trees.insert(tree.get()) {
        Ok(_) => Ok(()),
        Err(_) => Err(NoMemory),
    }
}

/// The trees of the frames.
#[tactic(auto, using(crate::proofs::Steps::none_known, crate::proofs::Steps::trees_are))]
pub(crate) fn trees_of(alloc: Global, frames: &[FrameScript]) -> Result<BTreeSet<u32>, NoMemory>
    ensures { IfOk result (λ set. knows set ≡ has_tree frames.now) }
{
    let mut trees = BTreeSet::new(alloc);
    for frame in frames {
        add_tree(&mut trees, frame.tree)?;
    }
    Ok(trees)
}
