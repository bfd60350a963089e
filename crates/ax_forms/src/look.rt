//! How a node looks.
ghost use Rattle.std.specs.Prelude.{◌≡◌, ◌≤◌, [], IfOk, IfSome, OnOk, Result, Some, option_map};
ghost use Rattle.serde_json.specs.Data.{Data};
ghost use Rattle.serde_json.specs.View.{view, members_view};
ghost use Rattle.ax_attrs.specs.Entry.{row_of, kind_of};
ghost use Rattle.ax_attrs.specs.Tables.{key_rows, key_count};
ghost use Rattle.ax_node.specs.Kinds.{value_kind};
ghost use Rattle.ax_json.specs.Refused.{Refusal, Gives};
ghost use Rattle.ax_forms.specs.Looks.{all_named, attr_in, attrs_known, attrs_of, attrs_to, change_in, changes_of, changes_to, is_attr, node_from, or_null, role_of, set_from, state_of, states_of, value_as, with_attr, with_change, with_states};

use crate::place::RectForm;
use ax_attrs::{Key, Kind, Role, State, Version};
use ax_base::{Ids, NoMemory, NodeId, Rect};
use ax_json::{
    Fault, Form, WalkErr, flag_of, in_member, int_of, list_of, node_id, optional, refuse, str_of,
    text_of, tree_id,
};
use ax_node::{AttrErr, AttrList, NodeData, StateSet, Value as AttrValue};
use ax_tree::{AttrChange, AttrChanges, SetNode};
use serde_json::{Map, Value};
use std::alloc::Global;

/// A role of the version's table.
#[derive(Clone, Copy)]
struct RoleForm {
    version: Version,
}

impl Form for RoleForm {
    type Item = Role;

    ghost reads = { λ f. role_of f.version };

    #[tactic(auto, unfolding(crate::specs::Looks::role_of))]
    fn read(&self, alloc: Global, v: Value) -> Result<Role, WalkErr> {
        let name = str_of(alloc, &v)?;
        match Role::named_in(name, self.version) {
            Some(role) => Ok(role),
            None => Err(refuse(alloc, Fault::BadName)),
        }
    }
}

/// A state of the version's table.
#[derive(Clone, Copy)]
struct StateForm {
    version: Version,
}

impl Form for StateForm {
    type Item = State;

    ghost reads = { λ f. state_of f.version };

    #[tactic(auto, unfolding(crate::specs::Looks::state_of))]
    fn read(&self, alloc: Global, v: Value) -> Result<State, WalkErr> {
        let name = str_of(alloc, &v)?;
        match State::named_in(name, self.version) {
            Some(state) => Ok(state),
            None => Err(refuse(alloc, Fault::BadName)),
        }
    }
}

fn with_states(alloc: Global, states: &[State]) -> Result<StateSet, NoMemory>
    ensures { IfOk result (λ set. set ≡ with_states [] states.now) }
{
    let mut set = StateSet::new(alloc);
    for state in states {
        set.add(*state)?;
    }
    Ok(set)
}

#[derive(Clone, Copy)]
struct StatesForm {
    version: Version,
}

impl Form for StatesForm {
    type Item = StateSet;

    ghost reads = { λ f. states_of f.version };

    #[tactic(auto, unfolding(crate::specs::Looks::states_of))]
    fn read(&self, alloc: Global, v: Value) -> Result<StateSet, WalkErr> {
        let form = StateForm {
            version: self.version,
        };
        let states = list_of(alloc, &form, v)?;
        Ok(with_states(alloc, states.as_slice())?)
    }
}

/// An attribute's value, by its kind.
#[tactic(auto, unfolding(crate::specs::Looks::value_as))]
fn value_as(alloc: Global, kind: Kind, v: &Value) -> Result<AttrValue, WalkErr>
    ensures value { Gives (λ x. x) result (value_as kind (view v.now)) }
    ensures kind { IfOk result (λ x. value_kind x ≡ kind) }
{
    match kind {
        Kind::Text => Ok(AttrValue::Text(text_of(alloc, v)?)),
        Kind::Int => Ok(AttrValue::Int(int_of(alloc, v)?)),
        Kind::Flag => Ok(AttrValue::Flag(flag_of(alloc, v)?)),
        Kind::Node => Ok(AttrValue::Node(node_id(alloc, v)?)),
        Kind::Tree => Ok(AttrValue::Tree(tree_id(alloc, v)?)),
    }
}

/// An attribute's value, where the object has it.
fn attr_at(alloc: Global, key: Key, v: &Value) -> Result<Option<AttrValue>, WalkErr>
    ensures value { Gives (λ x. x) result (attr_in (row_of key_rows key) (view v.now)) }
    ensures kind { IfOk result (λ o. IfSome o (λ x. kind_of key_rows key ≡ Some (value_kind x))) }
{
    let name = key.name();
    let Some(found) = v.get(name) else {
        return Ok(None);
    };
    match value_as(alloc, key.kind(), found) {
        Ok(x) => Ok(Some(x)),
        Err(e) => Err(in_member(alloc, name, e)),
    }
}

/// An attribute's value, where null removes it.
#[tactic(auto, unfolding(crate::specs::Looks::or_null))]
fn value_or_null(alloc: Global, kind: Kind, v: &Value) -> Result<Option<AttrValue>, WalkErr>
    ensures { Gives (λ x. x) result (or_null (value_as kind) (view v.now)) }
{
    if v.is_null() {
        return Ok(None);
    }
    Ok(Some(value_as(alloc, kind, v)?))
}

/// How an attribute changes, where the object has it.
fn change_at(alloc: Global, key: Key, v: &Value) -> Result<Option<Option<AttrValue>>, WalkErr>
    ensures { Gives (λ x. x) result (change_in (row_of key_rows key) (view v.now)) }
{
    let name = key.name();
    let Some(found) = v.get(name) else {
        return Ok(None);
    };
    match value_or_null(alloc, key.kind(), found) {
        Ok(x) => Ok(Some(x)),
        Err(e) => Err(in_member(alloc, name, e)),
    }
}

/// How many attributes the version has.
fn key_count(version: Version) -> u16
    ensures count { result ≡ key_count version }
    ensures within { result ≤ 38 }
{
    match version {
        Version::One => 24,
        Version::Two => 38,
    }
}

/// Sets an attribute, where it has a value.
fn with_attr(attrs: &mut AttrList, key: Key, found: Option<AttrValue>) -> Result<(), NoMemory>
    requires { IfSome found (λ x. kind_of key_rows key ≡ Some (value_kind x)) }
    ensures { OnOk result (attrs.new ≡ with_attr key found attrs.old) }
{
    let Some(value) = found else {
        return Ok(());
    };
    match attrs.set(key, value) {
        Ok(()) => Ok(()),
        Err(AttrErr::NoMemory) => Err(NoMemory),
        Err(AttrErr::BadAttr(_)) => unreachable!(),
    }
}

/// The attributes of the first rows, in the order of the table.
#[tactic(auto, using(crate::proofs::Attrs::attrs_more, crate::proofs::Attrs::attrs_err))]
fn attrs_to(alloc: Global, count: u16, v: &Value) -> Result<AttrList, WalkErr>
    requires { count ≤ 38 }
    ensures { Gives (λ x. x) result (attrs_to count (view v.now)) }
{
    let mut attrs = AttrList::new(alloc);
    for n in 0..count {
        let key = Key::of(n + 1).unwrap();
        let found = attr_at(alloc, key, v)?;
        with_attr(&mut attrs, key, found)?;
    }
    Ok(attrs)
}

/// Adds a change, where there is one.
fn with_change(
    changes: &mut AttrChanges,
    key: Key,
    found: Option<Option<AttrValue>>,
) -> Result<(), NoMemory>
    ensures { OnOk result (changes.new ≡ with_change key found changes.old) }
{
    match found {
        Some(value) => changes.push(AttrChange { key, value }),
        None => Ok(()),
    }
}

/// The changes of the first rows, in the order of the table.
#[tactic(auto, using(crate::proofs::Attrs::changes_more, crate::proofs::Attrs::changes_err))]
fn changes_to(alloc: Global, count: u16, v: &Value) -> Result<AttrChanges, WalkErr>
    requires { count ≤ 38 }
    ensures { Gives (λ x. x) result (changes_to count (view v.now)) }
{
    let mut changes = AttrChanges::new(alloc);
    for n in 0..count {
        let key = Key::of(n + 1).unwrap();
        let found = change_at(alloc, key, v)?;
        with_change(&mut changes, key, found)?;
    }
    Ok(changes)
}

/// Whether the version has an attribute of this name.
fn is_attr(version: Version, name: &str) -> bool
    ensures { result ≡ is_attr version name.now }
{
    Key::named_in(name, version).is_some()
}

#[tactic(auto, using(crate::proofs::Attrs::names_pass_view))]
fn all_named(version: Version, members: &Map<String, Value>) -> bool
    ensures { result ≡ all_named (is_attr version) (members_view members.now.entries) }
{
    for name in members.keys() {
        if !is_attr(version, name.as_str()) {
            return false;
        }
    }
    true
}

/// An object with no members but attributes of the version.
#[tactic(auto, unfolding(crate::specs::Looks::attrs_known, ax_json::specs::Walk::object_of))]
fn attrs_known(alloc: Global, version: Version, v: &Value) -> Result<(), WalkErr>
    ensures { Gives (λ x. x) result (attrs_known version (view v.now)) }
{
    match v.as_object() {
        None => Err(refuse(alloc, Fault::BadType)),
        Some(members) => {
            if all_named(version, members) {
                Ok(())
            } else {
                Err(refuse(alloc, Fault::UnknownMember))
            }
        }
    }
}

#[derive(Clone, Copy)]
struct AttrsForm {
    version: Version,
}

impl Form for AttrsForm {
    type Item = AttrList;

    ghost reads = { λ f. attrs_of f.version };

    #[tactic(auto, unfolding(crate::specs::Looks::attrs_of))]
    fn read(&self, alloc: Global, v: Value) -> Result<AttrList, WalkErr> {
        attrs_known(alloc, self.version, &v)?;
        attrs_to(alloc, key_count(self.version), &v)
    }
}

#[derive(Clone, Copy)]
struct ChangesForm {
    version: Version,
}

impl Form for ChangesForm {
    type Item = AttrChanges;

    ghost reads = { λ f. changes_of f.version };

    #[tactic(auto, unfolding(crate::specs::Looks::changes_of))]
    fn read(&self, alloc: Global, v: Value) -> Result<AttrChanges, WalkErr> {
        attrs_known(alloc, self.version, &v)?;
        changes_to(alloc, key_count(self.version), &v)
    }
}

/// The members of a look, as they are found.
#[derive(Drop)]
pub(crate) struct FoundLook {
    pub role: Option<Value>,
    pub states: Option<Value>,
    pub attrs: Option<Value>,
    pub rect: Option<Value>,
}

/// A node's data without children: what isn't given is generic, without states and attributes, and empty at the origin.
#[tactic(auto, unfolding(crate::specs::Looks::node_from))]
pub(crate) fn node_from(
    alloc: Global,
    version: Version,
    id: NodeId,
    found: FoundLook,
) -> Result<NodeData, WalkErr>
    ensures { Gives (λ x. x) result (node_from version id (option_map view found.role) (option_map view found.states) (option_map view found.attrs) (option_map view found.rect)) }
{
    let FoundLook {
        role,
        states,
        attrs,
        rect,
    } = found;
    let role = optional(alloc, &RoleForm { version }, "role", role)?;
    let states = optional(alloc, &StatesForm { version }, "states", states)?;
    let attrs = optional(alloc, &AttrsForm { version }, "attrs", attrs)?;
    let rect = optional(alloc, &RectForm, "rect", rect)?;
    Ok(NodeData {
        id,
        role: role.unwrap_or(Role::GENERIC),
        states: states.unwrap_or(StateSet::new(alloc)),
        attrs: attrs.unwrap_or(AttrList::new(alloc)),
        rect: rect.unwrap_or(Rect::blank()),
        children: Ids::new(alloc),
    })
}

/// What is to be replaced of a node: what isn't given stays.
#[tactic(auto, unfolding(crate::specs::Looks::set_from))]
pub(crate) fn set_from(
    alloc: Global,
    version: Version,
    node: NodeId,
    found: FoundLook,
) -> Result<SetNode, WalkErr>
    ensures { Gives (λ x. x) result (set_from version node (option_map view found.role) (option_map view found.states) (option_map view found.attrs) (option_map view found.rect)) }
{
    let FoundLook {
        role,
        states,
        attrs,
        rect,
    } = found;
    let role = optional(alloc, &RoleForm { version }, "role", role)?;
    let states = optional(alloc, &StatesForm { version }, "states", states)?;
    let changes = optional(alloc, &ChangesForm { version }, "attrs", attrs)?;
    let rect = optional(alloc, &RectForm, "rect", rect)?;
    Ok(SetNode {
        node,
        role,
        states,
        attrs: changes.unwrap_or(AttrChanges::new(alloc)),
        rect,
    })
}
