//! Rectangles, selections and positions.
ghost use Rattle.std.specs.Prelude.{◌≡◌, ◌≤◌, ◌<◌, ◌^◌, ◌+ℤ◌, ◌≤ℤ◌, pos, length, IfOk, Result};
ghost use Rattle.serde_json.specs.Data.{Data};
ghost use Rattle.serde_json.specs.View.{view, items_view};
ghost use Rattle.ax_json.specs.Refused.{Refusal, Gives, within};
ghost use Rattle.ax_json.specs.Walk.{place, int_of, node_or_none};
ghost use Rattle.ax_forms.specs.Places.{affinity_of, end_of, offset_beside, position_of, rect_four, rect_numbers, rect_of, selection_four, selection_numbers, selection_of, side_from, text_position, tree_position};

use ax_ask::affinity_named;
use ax_base::{Affinity, NodeId, Pos, Rect};
use ax_json::{
    Fault, Form, Node, Tree, WalkErr, Whole, array_of, fields3, fields4, in_item, int_of,
    node_or_none, number_in, optional, refuse, required, str_of,
};
use serde_json::Value;
use std::alloc::Global;

/// The ids and offsets, and the numbers of children, that a script may name.
pub(crate) const OFFSET: Whole = Whole {
    low: 0,
    high: 2_147_483_647,
};

#[tactic(auto, unfolding(crate::specs::Places::side_from))]
fn side_from(alloc: Global, start: i32, v: &Value) -> Result<i32, WalkErr>
    ensures value { Gives (λ x. x) result (side_from start (view v.now)) }
    ensures positive { IfOk result (λ side. pos 0 ≤ℤ side) }
    ensures ends { IfOk result (λ side. (start +ℤ side) ≤ℤ pos 2147483647) }
{
    let side = int_of(alloc, v)?;
    if side < 0 {
        return Err(refuse(alloc, Fault::BadNumber));
    }
    if start > i32::MAX - side {
        return Err(refuse(alloc, Fault::BadNumber));
    }
    Ok(side)
}

#[tactic(auto, using(crate::proofs::Under::under_gives))]
fn int_at(alloc: Global, i: usize, v: &Value) -> Result<i32, WalkErr>
    ensures { Gives (λ x. x) result (within (place i) (int_of (view v.now))) }
{
    match int_of(alloc, v) {
        Ok(number) => Ok(number),
        Err(e) => Err(in_item(alloc, i, e)),
    }
}

#[tactic(auto, using(crate::proofs::Under::under_gives))]
fn side_at(alloc: Global, i: usize, start: i32, v: &Value) -> Result<i32, WalkErr>
    ensures value { Gives (λ x. x) result (within (place i) (side_from start (view v.now))) }
    ensures positive { IfOk result (λ side. pos 0 ≤ℤ side) }
    ensures ends { IfOk result (λ side. (start +ℤ side) ≤ℤ pos 2147483647) }
{
    match side_from(alloc, start, v) {
        Ok(side) => Ok(side),
        Err(e) => Err(in_item(alloc, i, e)),
    }
}

fn rect_with(x: i32, y: i32, w: i32, h: i32) -> Rect
    requires wide { pos 0 ≤ℤ w }
    requires high { pos 0 ≤ℤ h }
    requires right { (x +ℤ w) ≤ℤ pos 2147483647 }
    requires bottom { (y +ℤ h) ≤ℤ pos 2147483647 }
    ensures { result ≡ record { x = x; y = y; w = w; h = h } }
{
    Rect::new(x, y, w, h).unwrap()
}

#[tactic(auto, unfolding(crate::specs::Places::rect_numbers))]
fn rect_numbers(alloc: Global, x: &Value, y: &Value, w: &Value, h: &Value) -> Result<Rect, WalkErr>
    ensures { Gives (λ r. r) result (rect_numbers (view x.now) (view y.now) (view w.now) (view h.now)) }
{
    let x = int_at(alloc, 0, x)?;
    let y = int_at(alloc, 1, y)?;
    let w = side_at(alloc, 2, x, w)?;
    let h = side_at(alloc, 3, y, h)?;
    Ok(rect_with(x, y, w, h))
}

fn rect_four(alloc: Global, items: &[Value]) -> Result<Rect, WalkErr>
    requires { length items.now ≡ 4 }
    ensures { Gives (λ x. x) result (rect_four (items_view items.now)) }
{
    let [x, y, w, h] = items else { unreachable!() };
    rect_numbers(alloc, x, y, w, h)
}

/// A rectangle: four numbers.
#[derive(Clone, Copy)]
pub struct RectForm;

impl Form for RectForm {
    type Item = Rect;

    ghost reads = { λ _. rect_of };

    #[tactic(auto, unfolding(crate::specs::Places::rect_of), using(crate::proofs::Under::items_len_view))]
    fn read(&self, alloc: Global, v: Value) -> Result<Rect, WalkErr> {
        let items = array_of(alloc, v)?;
        if items.len() != 4 {
            return Err(refuse(alloc, Fault::BadCount));
        }
        rect_four(alloc, items.as_slice())
    }
}

/// An end of a selection, or none.
pub type SelectionEnd = Option<(NodeId, u32)>;

/// The ends of a selection.
#[derive(Clone, Copy)]
pub struct Selection {
    pub anchor: SelectionEnd,
    pub end: SelectionEnd,
}

#[tactic(auto, unfolding(crate::specs::Places::offset_beside))]
fn offset_beside(alloc: Global, id: &Option<NodeId>, v: &Value) -> Result<u32, WalkErr>
    ensures { Gives (λ x. x) result (offset_beside id.now (view v.now)) }
{
    let offset = number_in(alloc, v, 0, 2_147_483_647)?;
    if id.is_none() && offset != 0 {
        return Err(refuse(alloc, Fault::BadNumber));
    }
    Ok(offset as u32)
}

#[tactic(auto, using(crate::proofs::Under::under_gives))]
fn node_at(alloc: Global, i: usize, v: &Value) -> Result<Option<NodeId>, WalkErr>
    ensures { Gives (λ x. x) result (within (place i) (node_or_none (view v.now))) }
{
    match node_or_none(alloc, v) {
        Ok(node) => Ok(node),
        Err(e) => Err(in_item(alloc, i, e)),
    }
}

#[tactic(auto, using(crate::proofs::Under::under_gives))]
fn offset_at(alloc: Global, i: usize, id: &Option<NodeId>, v: &Value) -> Result<u32, WalkErr>
    ensures { Gives (λ x. x) result (within (place i) (offset_beside id.now (view v.now))) }
{
    match offset_beside(alloc, id, v) {
        Ok(offset) => Ok(offset),
        Err(e) => Err(in_item(alloc, i, e)),
    }
}

fn end_of(id: Option<NodeId>, offset: u32) -> Option<(NodeId, u32)>
    ensures { result ≡ end_of id offset }
{
    match id {
        Some(node) => Some((node, offset)),
        None => None,
    }
}

#[tactic(auto, unfolding(crate::specs::Places::selection_numbers))]
fn selection_numbers(
    alloc: Global,
    a: &Value,
    b: &Value,
    c: &Value,
    d: &Value,
) -> Result<Selection, WalkErr>
    ensures { Gives (λ x. x) result (selection_numbers (view a.now) (view b.now) (view c.now) (view d.now)) }
{
    let first = node_at(alloc, 0, a)?;
    let from = offset_at(alloc, 1, &first, b)?;
    let last = node_at(alloc, 2, c)?;
    let to = offset_at(alloc, 3, &last, d)?;
    Ok(Selection {
        anchor: end_of(first, from),
        end: end_of(last, to),
    })
}

fn selection_four(alloc: Global, items: &[Value]) -> Result<Selection, WalkErr>
    requires { length items.now ≡ 4 }
    ensures { Gives (λ x. x) result (selection_four (items_view items.now)) }
{
    let [a, b, c, d] = items else { unreachable!() };
    selection_numbers(alloc, a, b, c, d)
}

/// A selection: anchor id, anchor offset, end id, end offset.
#[derive(Clone, Copy)]
pub struct SelectionForm;

impl Form for SelectionForm {
    type Item = Selection;

    ghost reads = { λ _. selection_of };

    #[tactic(auto, unfolding(crate::specs::Places::selection_of), using(crate::proofs::Under::items_len_view))]
    fn read(&self, alloc: Global, v: Value) -> Result<Selection, WalkErr> {
        let items = array_of(alloc, v)?;
        if items.len() != 4 {
            return Err(refuse(alloc, Fault::BadCount));
        }
        selection_four(alloc, items.as_slice())
    }
}

#[derive(Clone, Copy)]
struct AffinityForm;

impl Form for AffinityForm {
    type Item = Affinity;

    ghost reads = { λ _. affinity_of };

    #[tactic(auto, unfolding(crate::specs::Places::affinity_of))]
    fn read(&self, alloc: Global, v: Value) -> Result<Affinity, WalkErr> {
        let name = str_of(alloc, &v)?;
        match affinity_named(name) {
            Some(affinity) => Ok(affinity),
            None => Err(refuse(alloc, Fault::BadName)),
        }
    }
}

#[tactic(auto, unfolding(crate::specs::Places::tree_position))]
fn tree_position(alloc: Global, v: Value) -> Result<Pos, WalkErr>
    ensures { Gives (λ x. x) result (tree_position (view v)) }
{
    let (tree, node, child) = fields3(alloc, v, "tree", "node", "child")?;
    let tree = required(alloc, &Tree, "tree", tree)?;
    let node = required(alloc, &Node, "node", node)?;
    let child = required(alloc, &OFFSET, "child", child)?;
    Ok(Pos::Tree {
        tree,
        node,
        child: child as usize,
    })
}

#[tactic(auto, unfolding(crate::specs::Places::text_position))]
fn text_position(alloc: Global, v: Value) -> Result<Pos, WalkErr>
    ensures { Gives (λ x. x) result (text_position (view v)) }
{
    let (tree, node, offset, affinity) = fields4(alloc, v, "tree", "node", "offset", "affinity")?;
    let tree = required(alloc, &Tree, "tree", tree)?;
    let node = required(alloc, &Node, "node", node)?;
    let offset = required(alloc, &OFFSET, "offset", offset)?;
    let affinity = optional(alloc, &AffinityForm, "affinity", affinity)?;
    Ok(Pos::Text {
        tree,
        node,
        offset: offset as usize,
        affinity: affinity.unwrap_or(Affinity::Down),
    })
}

/// A position: null, a place before a child, or an offset in a text.
#[derive(Clone, Copy)]
pub struct PositionForm;

impl Form for PositionForm {
    type Item = Pos;

    ghost reads = { λ _. position_of };

    #[tactic(auto, unfolding(crate::specs::Places::position_of))]
    fn read(&self, alloc: Global, v: Value) -> Result<Pos, WalkErr> {
        if v.is_null() {
            return Ok(Pos::Null);
        }
        if v.get("child").is_some() {
            return tree_position(alloc, v);
        }
        text_position(alloc, v)
    }
}
