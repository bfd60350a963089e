//! Attributes that an edit changes.
ghost use Rattle.std.specs.Prelude.{◌≡◌, [], unwrap_or, IfOk, OnErr, OnOk};
ghost use Rattle.ax_node.specs.Look.{look_of, node_of};
ghost use Rattle.ax_tree.specs.Edits.{attrs_set, bad_change, bad_value, data_set, look_set};
ghost use Rattle.ax_source.specs.Parts.{has_key, look_with};

use ax_attrs::Key;
use ax_base::{NoMemory, Text};
use ax_node::{AttrList, NodeData, StateSet, TreeData};
use ax_tree::{AttrChange, SetNode, SetTree};

/// The key of the first change whose value isn't of its kind, or whose key stands in an earlier one. It comes among the
/// first changes that name as many keys as there are, and one more.
pub(crate) fn first_bad(changes: &[AttrChange]) -> Option<Key>
    ensures { result ≡ bad_change [] changes.now }
{
    for (i, change) in changes.iter().enumerate() {
        if names_key(&changes[..i], change.key) {
            return Some(change.key);
        }
        if is_bad(change) {
            return Some(change.key);
        }
    }
    None
}

fn names_key(changes: &[AttrChange], key: Key) -> bool
    ensures { result ≡ has_key key changes.now }
{
    changes.iter().any(|change| change.key == key)
}

fn is_bad(change: &AttrChange) -> bool
    ensures { result ≡ bad_value change.now.key change.now.value }
{
    match &change.value {
        Some(value) => value.kind() != change.key.kind(),
        None => false,
    }
}

/// What has to be there before a node is changed.
#[derive(Drop)]
pub(crate) struct Parts {
    pub(crate) states: Option<StateSet>,
    pub(crate) attrs: Option<AttrList>,
}

/// The new states and attributes, where any are given. The attributes are a copy, so that want of memory in the middle
/// changes nothing.
pub(crate) fn new_parts(node: &NodeData, set: &SetNode) -> Result<Parts, NoMemory>
    ensures { IfOk result (λ parts. look_with set.now parts (look_of node.now) ≡ look_set set.now (look_of node.now)) }
{
    let states = copy_states(&set.states)?;
    if set.attrs.is_empty() {
        return Ok(Parts {
            states,
            attrs: None,
        });
    }
    let attrs = new_attrs(&node.attrs, set.attrs.as_slice())?;
    Ok(Parts {
        states,
        attrs: Some(attrs),
    })
}

fn copy_states(states: &Option<StateSet>) -> Result<Option<StateSet>, NoMemory>
    ensures { IfOk result (λ copy. copy ≡ states.now) }
{
    match states {
        Some(states) => Ok(Some(states.copy()?)),
        None => Ok(None),
    }
}

fn new_attrs(attrs: &AttrList, changes: &[AttrChange]) -> Result<AttrList, NoMemory>
    ensures { IfOk result (λ new. new ≡ attrs_set changes.now attrs.now) }
{
    let mut new = attrs.copy()?;
    for change in changes {
        match &change.value {
            Some(value) => match new.set(change.key, value.copy()?) {
                Ok(()) => {}
                Err(_) => return Err(NoMemory),
            },
            None => {
                let _ = new.unset(change.key);
            }
        }
    }
    Ok(new)
}

/// Replaces what is given of a node.
pub(crate) fn put_parts(node: &mut NodeData, set: &SetNode, parts: Parts)
    ensures { node.new ≡ node_of node.old.id (look_with set.now parts (look_of node.old)) node.old.children }
{
    let Parts { states, attrs } = parts;
    put_lists(node, states, attrs);
    if let Some(role) = set.role {
        node.role = role;
    }
    if let Some(rect) = set.rect {
        node.rect = rect;
    }
}

fn put_lists(node: &mut NodeData, states: Option<StateSet>, attrs: Option<AttrList>)
    ensures { node.new ≡ record node.old { states = unwrap_or states node.old.states; attrs = unwrap_or attrs node.old.attrs } }
{
    if let Some(states) = states {
        node.states = states;
    }
    if let Some(attrs) = attrs {
        node.attrs = attrs;
    }
}

/// Replaces what is given of tree data. Want of memory changes nothing.
pub(crate) fn set_data(about: &mut TreeData, set: &SetTree) -> Result<(), NoMemory>
    ensures ok { OnOk result (about.new ≡ data_set set.now about.old) }
    ensures err { OnErr result (about.new ≡ about.old) }
{
    let title = match &set.title {
        Some(title) => Some(title.copy()?),
        None => None,
    };
    let url = match &set.url {
        Some(url) => Some(url.copy()?),
        None => None,
    };
    put_texts(about, title, url);
    put_data(about, set);
    Ok(())
}

fn put_texts(about: &mut TreeData, title: Option<Text>, url: Option<Text>)
    ensures { about.new ≡ record about.old { title = unwrap_or title about.old.title; url = unwrap_or url about.old.url } }
{
    if let Some(title) = title {
        about.title = title;
    }
    if let Some(url) = url {
        about.url = url;
    }
}

fn put_data(about: &mut TreeData, set: &SetTree)
    ensures { about.new ≡ record (data_set set.now about.old) { title = about.old.title; url = about.old.url } }
{
    if let Some(parent) = set.parent {
        about.parent = parent;
    }
    if let Some(focused) = set.focused {
        about.focused = focused;
    }
    if let Some(loaded) = set.loaded {
        about.loaded = loaded;
    }
    if let Some(focus) = set.focus {
        about.focus = focus;
    }
    if let Some(anchor) = set.anchor {
        about.anchor = anchor;
    }
    if let Some(end) = set.end {
        about.end = end;
    }
}
