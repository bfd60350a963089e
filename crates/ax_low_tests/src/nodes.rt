//! Attributes, states, nodes and tree data, each call once. Each step says whether it went as is wanted.
use ax_attrs::{Key, Role, State};
use ax_base::{NodeId, Text, TreeId};
use ax_node::{AttrErr, AttrList, NodeData, TreeData, Value, same_but_children};
use std::alloc::Global;

/// What a list answers where a text is set, none where there is no text.
fn text_set(alloc: Global, attrs: &mut AttrList, key: Key, s: &str) -> Option<Result<(), AttrErr>> {
    match Text::of(alloc, s) {
        Ok(text) => Some(attrs.set(key, Value::Text(text))),
        Err(_) => None,
    }
}

fn sets_level(attrs: &mut AttrList, level: i32) -> bool {
    attrs.set(Key::LEVEL, Value::Int(level)).is_ok()
}

fn is_refused(alloc: Global, attrs: &mut AttrList) -> bool {
    let refused = Some(Err(AttrErr::BadAttr(Key::LEVEL)));
    text_set(alloc, attrs, Key::LEVEL, "two") == refused && attrs.is_empty()
}

fn fills(alloc: Global, attrs: &mut AttrList) -> bool {
    sets_level(attrs, 1)
        && text_set(alloc, attrs, Key::NAME, "News") == Some(Ok(()))
        && sets_level(attrs, 2)
        && attrs.len() == 2
        && attrs.get(Key::LEVEL) == Some(&Value::Int(2))
}

fn is_copied(attrs: &mut AttrList) -> bool {
    match attrs.copy() {
        Ok(copy) => {
            copy.same(attrs)
                && attrs.unset(Key::NAME)
                && !attrs.unset(Key::NAME)
                && !copy.same(attrs)
        }
        Err(_) => false,
    }
}

#[test]
fn attributes(rt: HostRuntime) {
    let mut attrs = AttrList::new(rt.alloc());
    assert!(rt; is_refused(rt.alloc(), &mut attrs));
    assert!(rt; fills(rt.alloc(), &mut attrs));
    assert!(rt; is_copied(&mut attrs));
}

/// States stand in the order of their numbers.
fn has_states(node: &mut NodeData) -> bool {
    node.states.add(State::PRESSED).is_ok()
        && node.states.add(State::EDITABLE).is_ok()
        && node.states.as_slice() == [State::EDITABLE, State::PRESSED].as_slice()
}

fn stands_apart(node: &NodeData, mut copy: NodeData) -> bool {
    let same = copy.children.same(&node.children);
    copy.children.clear();
    let alike = same_but_children(node, &copy);
    copy.role = Role::LINK;
    same && alike && !same_but_children(node, &copy)
}

fn copy_stands_apart(node: &NodeData) -> bool {
    match node.copy() {
        Ok(copy) => stands_apart(node, copy),
        Err(_) => false,
    }
}

fn node_is_copied(alloc: Global, id: NodeId) -> bool {
    let mut node = NodeData::blank(alloc, id);
    node.children.push(id).is_ok() && has_states(&mut node) && copy_stands_apart(&node)
}

fn copy_has_title(data: &TreeData, title: &str) -> bool {
    match data.copy() {
        Ok(copy) => copy.title.as_str() == title,
        Err(_) => false,
    }
}

fn data_are_copied(alloc: Global, tree: TreeId) -> bool {
    let mut data = TreeData::blank(alloc, tree);
    match Text::of(alloc, "News") {
        Ok(title) => {
            data.title = title;
            copy_has_title(&data, "News")
        }
        Err(_) => false,
    }
}

fn are_copied(alloc: Global) -> bool {
    match (NodeId::new(7), TreeId::new(1)) {
        (Some(id), Some(tree)) => node_is_copied(alloc, id) && data_are_copied(alloc, tree),
        _ => false,
    }
}

#[test]
fn copies(rt: HostRuntime) {
    assert!(rt; are_copied(rt.alloc()));
}
