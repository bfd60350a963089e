//! A forest as it was.
ghost use Rattle.std.specs.Prelude.{◌≡◌, IfOk};

use crate::trees::Trees;
use ax_base::{NoMemory, Place, TreeId};
use ax_mirror::Mirror;
use ax_tree::Grove;
use std::marker::Model;

/// The trees of a forest as they stood when the view was taken. No later call of the forest changes it.
#[derive(Drop)]
pub struct ForestView {
    trees: Trees,
}

impl Model for ForestView {
    ghost use Rattle.ax_tree.specs.Forest.{Forest};
    ghost use Rattle.ax_forest.specs.Shown.{coded_forest};

    ghost Value = { Forest };

    ghost coded = { coded_forest };

    ghost view = { λ v. v.trees };
}

impl ForestView {
    /// A view of these trees.
    pub(crate) fn of(trees: &Trees) -> Result<ForestView, NoMemory>
        ensures { IfOk result (λ v. v ≡ trees.now) }
    {
        let trees = trees.share()?;
        Ok(ForestView { trees })
    }
}

impl Grove for ForestView {
    ghost forest = { λ f. f };

    type Tree = Mirror;

    fn first(&self) -> TreeId {
        self.trees.first()
    }

    fn live(&self, t: TreeId) -> bool {
        self.trees.live(t)
    }

    fn tree(&self, t: TreeId) -> Option<&Mirror> {
        self.trees.tree(t)
    }

    fn host_of(&self, t: TreeId) -> Option<Place> {
        self.trees.host_of(t)
    }

    fn hosted_by(&self, p: Place) -> Option<TreeId> {
        self.trees.hosted_by(p)
    }
}
