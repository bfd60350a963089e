//! Copies of edits and updates. Each step says whether the copy is as is wanted.

use crate::given::{push_node, with_root};
use ax_attrs::{Key, Role};
use ax_base::{NodeId, Text, TreeId};
use ax_node::{TreeData, Value};
use ax_tree::{AttrChange, AttrChanges, Edit, Nodes, SetNode, SetTree, TreeUpdate};
use std::alloc::Global;

fn push_two(changes: &mut AttrChanges) -> bool {
    let level = AttrChange {
        key: Key::LEVEL,
        value: Some(Value::Int(2)),
    };
    let no_name = AttrChange {
        key: Key::NAME,
        value: None,
    };
    changes.push(level).is_ok() && changes.push(no_name).is_ok()
}

fn sets(edit: &Edit, node: NodeId, changes: usize) -> bool {
    match edit {
        Edit::Set(set) => set.node == node && set.attrs.len() == changes,
        _ => false,
    }
}

fn copy_sets(alloc: Global, edit: &Edit, node: NodeId, changes: usize) -> bool {
    match edit.copy(alloc) {
        Ok(copy) => sets(&copy, node, changes),
        Err(_) => false,
    }
}

#[test]
fn copies_an_edit_of_a_node(rt: HostRuntime) {
    let node = NodeId::new(7).expect(&rt, "an id");
    let mut attrs = AttrChanges::new(rt.alloc());
    assert!(rt; push_two(&mut attrs));
    let edit = Edit::Set(SetNode {
        node,
        role: Some(Role::GENERIC),
        states: None,
        attrs,
        rect: None,
    });
    assert!(rt; copy_sets(rt.alloc(), &edit, node, 2));
}

fn has_title(edit: &Edit, wanted: &str) -> bool {
    match edit {
        Edit::Tree(set) => match &set.title {
            Some(title) => title.as_str() == wanted,
            None => false,
        },
        _ => false,
    }
}

fn copy_has_title(alloc: Global, edit: &Edit, wanted: &str) -> bool {
    match edit.copy(alloc) {
        Ok(copy) => has_title(&copy, wanted),
        Err(_) => false,
    }
}

fn title_is_copied(alloc: Global, title: Text) -> bool {
    let edit = Edit::Tree(SetTree {
        parent: None,
        focused: None,
        loaded: Some(true),
        focus: Some(None),
        anchor: None,
        end: None,
        title: Some(title),
        url: None,
    });
    copy_has_title(alloc, &edit, "News")
}

fn news_is_copied(alloc: Global) -> bool {
    match Text::of(alloc, "News") {
        Ok(title) => title_is_copied(alloc, title),
        Err(_) => false,
    }
}

#[test]
fn copies_an_edit_of_tree_data(rt: HostRuntime) {
    assert!(rt; news_is_copied(rt.alloc()));
}

fn is_copied(alloc: Global, update: &TreeUpdate) -> bool {
    match update.copy(alloc) {
        Ok(copy) => {
            copy.root == update.root && copy.nodes.len() == 1 && copy.tree_data.is_some()
        }
        Err(_) => false,
    }
}

#[test]
fn copies_an_update(rt: HostRuntime) {
    let alloc = rt.alloc();
    let tree = TreeId::new(1).expect(&rt, "an id");
    let mut nodes = Nodes::new(alloc);
    assert!(rt; push_node(alloc, &mut nodes, 1, &[]));
    let mut update = with_root(1, nodes);
    update.tree_data = Some(TreeData::blank(alloc, tree));
    assert!(rt; is_copied(alloc, &update));
}
