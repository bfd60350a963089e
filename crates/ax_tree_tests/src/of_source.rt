//! Source trees: marks of what is removed, the greatest chain, the greatest count, and walks. Each step says whether it was done.
//! What edits do is told in the printed text of pages.

ghost use Rattle.ax_tree.specs.Edits.{HasLeaf};

use crate::given::tree_id;
use ax_base::{Ids, NodeId};
use ax_node::NodeData;
use ax_source::SourceTree;
use ax_tree::{Edit, EditErr, TreeView};
use ax_views::{chain, depth, height_below, is_below, pre};
use std::alloc::Global;
use std::test::Fail;

fn leaf(alloc: Global, parent: NodeId, index: usize, id: NodeId) -> Edit
    ensures { HasLeaf result }
{
    Edit::Insert {
        parent,
        index,
        node: NodeData::blank(alloc, id),
    }
}

/// Whether the leaf is there now, or why not.
fn inserted(
    alloc: Global,
    s: &mut SourceTree,
    parent: u32,
    index: usize,
    n: u32,
) -> Option<Result<(), EditErr>> {
    let parent = NodeId::new(parent)?;
    let id = NodeId::new(n)?;
    let edit = leaf(alloc, parent, index, id);
    Some(s.edit(&edit))
}

fn insert(alloc: Global, s: &mut SourceTree, parent: u32, index: usize, n: u32) -> bool {
    inserted(alloc, s, parent, index, n) == Some(Ok(()))
}

/// The root 1 alone.
fn root(alloc: Global, s: &mut SourceTree) -> bool {
    match NodeId::new(1) {
        Some(id) => s.edit(&Edit::Root(NodeData::blank(alloc, id))).is_ok(),
        None => false,
    }
}

/// 1 over 2 and 4, 3 below 2, and no mark.
fn four(alloc: Global, s: &mut SourceTree) -> bool {
    root(alloc, s)
        && insert(alloc, s, 1, 0, 2)
        && insert(alloc, s, 2, 0, 3)
        && insert(alloc, s, 1, 1, 4)
        && marked(s, &[1, 2, 3, 4])
}

/// Whether the marks are these, in order. They are gone then.
fn marked(s: &mut SourceTree, ids: &[u32]) -> bool {
    for n in ids {
        match s.marks().first() {
            Some(first) if first.get() == *n => s.unmark(first),
            _ => return false,
        }
    }
    s.marks().is_empty()
}

fn are(ids: &Ids, numbers: &[u32]) -> bool {
    ids.as_slice()
        .iter()
        .map(|id| id.get())
        .eq(numbers.iter().copied())
}

/// Whether these are the nodes, in pre-order.
fn stand(alloc: Global, s: &SourceTree, numbers: &[u32]) -> bool {
    match NodeId::new(1) {
        Some(root) => match pre(alloc, s, root) {
            Ok(ids) => are(&ids, numbers),
            Err(_) => false,
        },
        None => false,
    }
}

fn touch(s: &mut SourceTree, n: u32) -> bool {
    match NodeId::new(n) {
        Some(id) => s.mark(id).is_ok(),
        None => false,
    }
}

fn touch_below(s: &mut SourceTree, n: u32) -> bool {
    match NodeId::new(n) {
        Some(id) => s.mark_below(id).is_ok(),
        None => false,
    }
}

fn remove(s: &mut SourceTree, n: u32) -> bool {
    match NodeId::new(n) {
        Some(id) => s.edit(&Edit::Remove(id)).is_ok(),
        None => false,
    }
}

/// The marks of what goes go too.
fn removes_marked(alloc: Global, s: &mut SourceTree) -> bool {
    four(alloc, s)
        && touch(s, 4)
        && touch_below(s, 2)
        && remove(s, 2)
        && stand(alloc, s, &[1, 4])
        && marked(s, &[4, 1])
}

#[test]
fn removes(rt: HostRuntime) -> Result<(), Fail> {
    let mut s = SourceTree::new(rt.alloc(), tree_id()?);
    assert!(rt; removes_marked(rt.alloc(), &mut s));
    Ok(())
}

fn chain_ends(alloc: Global, s: &mut SourceTree) -> bool {
    for n in 2..257 {
        if !insert(alloc, s, n - 1, 0, n) {
            return false;
        }
    }
    s.count() == 256
        && inserted(alloc, s, 256, 0, 257) == Some(Err(EditErr::TooDeep(257)))
        && s.count() == 256
}

#[test]
fn a_chain_ends_at_256(rt: HostRuntime) -> Result<(), Fail> {
    let mut s = SourceTree::new(rt.alloc(), tree_id()?);
    assert!(rt; root(rt.alloc(), &mut s) && chain_ends(rt.alloc(), &mut s));
    Ok(())
}

/// Each node but the last has two children, so that no child list is long.
fn tree_ends(alloc: Global, s: &mut SourceTree) -> bool {
    for n in 2..100_001 {
        if !insert(alloc, s, n / 2, (n % 2) as usize, n) {
            return false;
        }
    }
    s.count() == 100_000
        && inserted(alloc, s, 1, 0, 100_001) == Some(Err(EditErr::TooMany(100_001)))
        && s.count() == 100_000
}

#[test]
fn a_tree_ends_at_100000(rt: HostRuntime) -> Result<(), Fail> {
    let mut s = SourceTree::new(rt.alloc(), tree_id()?);
    assert!(rt; root(rt.alloc(), &mut s) && tree_ends(rt.alloc(), &mut s));
    Ok(())
}

fn has_line(alloc: Global, s: &SourceTree, node: NodeId, numbers: &[u32]) -> bool {
    match chain(alloc, s, node) {
        Ok(line) => are(&line, numbers),
        Err(_) => false,
    }
}

fn walks_up(alloc: Global, s: &SourceTree) -> bool {
    match (NodeId::new(1), NodeId::new(3)) {
        (Some(root), Some(node)) => {
            has_line(alloc, s, node, &[1, 2, 3])
                && depth(s, node) == 3
                && height_below(s, root) == 2
                && is_below(s, node, root)
                && !is_below(s, root, node)
        }
        _ => false,
    }
}

#[test]
fn walks(rt: HostRuntime) -> Result<(), Fail> {
    let mut s = SourceTree::new(rt.alloc(), tree_id()?);
    assert!(rt; four(rt.alloc(), &mut s) && walks_up(rt.alloc(), &s));
    Ok(())
}
