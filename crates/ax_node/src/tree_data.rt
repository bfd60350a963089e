//! What is known of a whole tree.
ghost use Rattle.std.specs.Prelude.{◌≡◌, [], None, false, IfOk};

use ax_base::{NoMemory, NodeId, Text, TreeId};
use std::alloc::Global;

/// What is known of a whole tree. `parent` is the tree that this one hangs in, `anchor` and `end` are where the selection
/// begins and ends: a node, and an offset in its text or among its children.
#[derive(Debug, Drop)]
pub struct TreeData {
    pub tree: TreeId,
    pub parent: Option<TreeId>,
    pub focused: Option<TreeId>,
    pub loaded: bool,
    pub focus: Option<NodeId>,
    pub anchor: Option<(NodeId, u32)>,
    pub end: Option<(NodeId, u32)>,
    pub title: Text,
    pub url: Text,
}

impl TreeData {
    /// No parent, no focus, no selection, not loaded, empty texts.
    pub fn blank(alloc: Global, tree: TreeId) -> TreeData
        ensures { result ≡ record { tree = tree; parent = None; focused = None; loaded = false; focus = None; anchor = None; end = None; title = []; url = [] } }
    {
        TreeData {
            tree,
            parent: None,
            focused: None,
            loaded: false,
            focus: None,
            anchor: None,
            end: None,
            title: Text::new(alloc),
            url: Text::new(alloc),
        }
    }

    /// It takes no memory: the texts are shared.
    pub fn copy(&self) -> Result<TreeData, NoMemory>
        ensures { IfOk result (λ d. d ≡ self.now) }
    {
        let title = self.title.copy()?;
        let url = self.url.copy()?;
        Ok(TreeData {
            tree: self.tree,
            parent: self.parent,
            focused: self.focused,
            loaded: self.loaded,
            focus: self.focus,
            anchor: self.anchor,
            end: self.end,
            title,
            url,
        })
    }
}
