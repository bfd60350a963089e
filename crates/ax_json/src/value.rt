//! Values that have no parts.
ghost use Rattle.std.specs.Prelude.{◌≡◌, ◌≤◌, IfOk, ℕ};
ghost use Rattle.serde_json.specs.View.{view};
ghost use Rattle.ax_json.specs.Refused.{Gives};
ghost use Rattle.ax_json.specs.Walk.{flag_of, int_of, node_id, node_or_none, number_in, str_of, text_of, tree_id, tree_or_none};

use crate::refusal::refuse;
use crate::{Fault, WalkErr};
use ax_base::{NodeId, Text, TreeId};
use serde_json::Value;
use std::alloc::Global;

/// A whole number from `low` to `high`.
#[tactic(auto, unfolding(crate::specs::Walk::number_in))]
pub fn number_in(alloc: Global, v: &Value, low: u64, high: u64) -> Result<u64, WalkErr>
    ensures value { Gives (λ x. x) result (number_in low high (view v.now)) }
    ensures range { IfOk result (λ n. (low ≤ n) × (n ≤ high)) }
{
    if !v.is_number() {
        return Err(refuse(alloc, Fault::BadType));
    }
    match v.as_u64() {
        Some(number) if low <= number && number <= high => Ok(number),
        _ => Err(refuse(alloc, Fault::BadNumber)),
    }
}

/// A whole number of 32 bits with a sign.
#[tactic(auto, unfolding(crate::specs::Walk::int_of))]
pub fn int_of(alloc: Global, v: &Value) -> Result<i32, WalkErr>
    ensures { Gives (λ x. x) result (int_of (view v.now)) }
{
    if !v.is_number() {
        return Err(refuse(alloc, Fault::BadType));
    }
    match v.as_i64() {
        Some(number) if -2_147_483_648 <= number && number <= 2_147_483_647 => Ok(number as i32),
        _ => Err(refuse(alloc, Fault::BadNumber)),
    }
}

/// The id of a node.
#[tactic(auto, unfolding(crate::specs::Walk::node_id))]
pub fn node_id(alloc: Global, v: &Value) -> Result<NodeId, WalkErr>
    ensures { Gives (λ x. x) result (node_id (view v.now)) }
{
    let number = number_in(alloc, v, 1, 2_147_483_647)?;
    Ok(NodeId::new(number as u32).unwrap())
}

/// The id of a tree.
#[tactic(auto, unfolding(crate::specs::Walk::tree_id))]
pub fn tree_id(alloc: Global, v: &Value) -> Result<TreeId, WalkErr>
    ensures { Gives (λ x. x) result (tree_id (view v.now)) }
{
    let number = number_in(alloc, v, 1, 1000)?;
    Ok(TreeId::new(number as u32).unwrap())
}

/// The id of a node, or 0 for none.
#[tactic(auto, unfolding(crate::specs::Walk::node_or_none))]
pub fn node_or_none(alloc: Global, v: &Value) -> Result<Option<NodeId>, WalkErr>
    ensures { Gives (λ x. x) result (node_or_none (view v.now)) }
{
    let number = number_in(alloc, v, 0, 2_147_483_647)?;
    Ok(NodeId::new(number as u32))
}

/// The id of a tree, or 0 for none.
#[tactic(auto, unfolding(crate::specs::Walk::tree_or_none))]
pub fn tree_or_none(alloc: Global, v: &Value) -> Result<Option<TreeId>, WalkErr>
    ensures { Gives (λ x. x) result (tree_or_none (view v.now)) }
{
    let number = number_in(alloc, v, 0, 1000)?;
    Ok(TreeId::new(number as u32))
}

#[tactic(auto, unfolding(crate::specs::Walk::flag_of))]
pub fn flag_of(alloc: Global, v: &Value) -> Result<bool, WalkErr>
    ensures { Gives (λ x. x) result (flag_of (view v.now)) }
{
    match v.as_bool() {
        Some(flag) => Ok(flag),
        None => Err(refuse(alloc, Fault::BadType)),
    }
}

/// The bytes of a text.
#[tactic(auto, unfolding(crate::specs::Walk::str_of))]
pub fn str_of(alloc: Global, v: &Value) -> Result<&str, WalkErr>
    ensures { Gives (λ x. x.now) result (str_of (view v.now)) }
{
    match v.as_str() {
        Some(text) => Ok(text),
        None => Err(refuse(alloc, Fault::BadType)),
    }
}

#[tactic(auto, unfolding(crate::specs::Walk::text_of))]
pub fn text_of(alloc: Global, v: &Value) -> Result<Text, WalkErr>
    ensures { Gives (λ x. x) result (text_of (view v.now)) }
{
    let text = str_of(alloc, v)?;
    Ok(Text::of(alloc, text)?)
}
