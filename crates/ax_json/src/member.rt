//! The members of an object, one by one.
ghost use Rattle.std.specs.Prelude.{◌≡◌, option_map};
ghost use Rattle.serde_json.specs.View.{view};
ghost use Rattle.ax_json.specs.Refused.{Gives};
ghost use Rattle.ax_json.specs.Walk.{optional, required, tag_of};

use crate::refusal::{in_member, refuse};
use crate::value::str_of;
use crate::{Fault, Form, WalkErr};
use serde_json::Value;
use std::alloc::Global;

/// A member that has to be there.
#[tactic(auto, unfolding(crate::specs::Walk::required), using(crate::proofs::Walks::under_gives))]
pub fn required<F: Form>(
    alloc: Global,
    form: &F,
    name: &str,
    found: Option<Value>,
) -> Result<F::Item, WalkErr>
    ensures { Gives (λ x. x) result (required (F.reads form.now) name.now (option_map view found)) }
{
    let Some(v) = found else {
        return Err(in_member(alloc, name, refuse(alloc, Fault::Missing)));
    };
    match form.read(alloc, v) {
        Ok(x) => Ok(x),
        Err(e) => Err(in_member(alloc, name, e)),
    }
}

/// A member that may be absent.
#[tactic(auto, unfolding(crate::specs::Walk::optional), using(crate::proofs::Walks::under_gives))]
pub fn optional<F: Form>(
    alloc: Global,
    form: &F,
    name: &str,
    found: Option<Value>,
) -> Result<Option<F::Item>, WalkErr>
    ensures { Gives (λ x. x) result (optional (F.reads form.now) name.now (option_map view found)) }
{
    let Some(v) = found else {
        return Ok(None);
    };
    match form.read(alloc, v) {
        Ok(x) => Ok(Some(x)),
        Err(e) => Err(in_member(alloc, name, e)),
    }
}

/// The text that says which members an object has.
#[tactic(auto, unfolding(crate::specs::Walk::tag_of, crate::specs::Walk::object_of, crate::specs::Walk::required), using(crate::proofs::Walks::under_gives))]
pub fn tag<'v>(alloc: Global, v: &'v Value, name: &str) -> Result<&'v str, WalkErr>
    ensures { Gives (λ x. x.now) result (tag_of name.now (view v.now)) }
{
    if !v.is_object() {
        return Err(refuse(alloc, Fault::BadType));
    }
    let Some(found) = v.get(name) else {
        return Err(in_member(alloc, name, refuse(alloc, Fault::Missing)));
    };
    match str_of(alloc, found) {
        Ok(text) => Ok(text),
        Err(e) => Err(in_member(alloc, name, e)),
    }
}
