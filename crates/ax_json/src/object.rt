//! Objects: all members at once.
ghost use Rattle.std.specs.Prelude.{◌≡◌, ◌∷◌, [], IfOk, option_map, IsTrue};
ghost use Rattle.serde_json.specs.View.{view, members_view};
ghost use Rattle.serde_json.specs.Find.{get, get_member};
ghost use Rattle.ax_json.specs.Refused.{Gives};
ghost use Rattle.ax_json.specs.Taken.{without, is_none_left};
ghost use Rattle.ax_json.specs.Walk.{object_of, known, differ};

use crate::refusal::refuse;
use crate::{Fault, WalkErr};
use serde_json::{Map, Value};
use std::alloc::Global;

/// The members of an object.
#[tactic(auto, unfolding(crate::specs::Walk::object_of))]
pub fn object_of(alloc: Global, v: Value) -> Result<Map<String, Value>, WalkErr>
    ensures { Gives (λ m. members_view m.entries) result (object_of (view v)) }
{
    match v {
        Value::Object(members) => Ok(members),
        _ => Err(refuse(alloc, Fault::BadType)),
    }
}

/// The member of this name, which the object then has no more.
pub fn taken(members: &mut Map<String, Value>, name: &str) -> Option<Value>
    ensures value { option_map view result ≡ get_member name.now (members_view members.old.entries) }
    ensures rest { members_view members.new.entries ≡ without name.now (members_view members.old.entries) }
{
    // The contract of `len` says that the names ascend.
    let _ = members.len();
    members.remove(name)
}

pub fn is_none_left(members: &Map<String, Value>) -> bool
    ensures { result ≡ is_none_left (members_view members.now.entries) }
{
    members.is_empty()
}

/// The member of this name, where the object has no others.
#[tactic(auto, unfolding(crate::specs::Walk::known))]
pub fn fields1(alloc: Global, v: Value, first: &str) -> Result<Option<Value>, WalkErr>
    requires { IsTrue (differ (first.now ∷ [])) }
    ensures known { Gives (λ _. tt) result (known (first.now ∷ []) (view v)) }
    ensures values { IfOk result (λ r. (option_map view r ∷ []) ≡ (get first.now (view v) ∷ [])) }
{
    let mut members = object_of(alloc, v)?;
    let a = taken(&mut members, first);
    if !is_none_left(&members) {
        return Err(refuse(alloc, Fault::UnknownMember));
    }
    Ok(a)
}

/// The members of these names, where the object has no others.
#[tactic(auto, unfolding(crate::specs::Walk::known))]
pub fn fields2(
    alloc: Global,
    v: Value,
    first: &str,
    second: &str,
) -> Result<(Option<Value>, Option<Value>), WalkErr>
    requires { IsTrue (differ (first.now ∷ second.now ∷ [])) }
    ensures known { Gives (λ _. tt) result (known (first.now ∷ second.now ∷ []) (view v)) }
    ensures values { IfOk result (λ r. (option_map view r.0 ∷ option_map view r.1 ∷ []) ≡ (get first.now (view v) ∷ get second.now (view v) ∷ [])) }
{
    let mut members = object_of(alloc, v)?;
    let a = taken(&mut members, first);
    let b = taken(&mut members, second);
    if !is_none_left(&members) {
        return Err(refuse(alloc, Fault::UnknownMember));
    }
    Ok((a, b))
}

/// The members of these names, where the object has no others.
#[tactic(auto, unfolding(crate::specs::Walk::known))]
pub fn fields3(
    alloc: Global,
    v: Value,
    first: &str,
    second: &str,
    third: &str,
) -> Result<(Option<Value>, Option<Value>, Option<Value>), WalkErr>
    requires { IsTrue (differ (first.now ∷ second.now ∷ third.now ∷ [])) }
    ensures known { Gives (λ _. tt) result (known (first.now ∷ second.now ∷ third.now ∷ []) (view v)) }
    ensures values { IfOk result (λ r. (option_map view r.0 ∷ option_map view r.1 ∷ option_map view r.2 ∷ []) ≡ (get first.now (view v) ∷ get second.now (view v) ∷ get third.now (view v) ∷ [])) }
{
    let mut members = object_of(alloc, v)?;
    let a = taken(&mut members, first);
    let b = taken(&mut members, second);
    let c = taken(&mut members, third);
    if !is_none_left(&members) {
        return Err(refuse(alloc, Fault::UnknownMember));
    }
    Ok((a, b, c))
}

/// The members of these names, where the object has no others.
#[tactic(auto, unfolding(crate::specs::Walk::known))]
pub fn fields4(
    alloc: Global,
    v: Value,
    first: &str,
    second: &str,
    third: &str,
    fourth: &str,
) -> Result<(Option<Value>, Option<Value>, Option<Value>, Option<Value>), WalkErr>
    requires { IsTrue (differ (first.now ∷ second.now ∷ third.now ∷ fourth.now ∷ [])) }
    ensures known { Gives (λ _. tt) result (known (first.now ∷ second.now ∷ third.now ∷ fourth.now ∷ []) (view v)) }
    ensures values { IfOk result (λ r. (option_map view r.0 ∷ option_map view r.1 ∷ option_map view r.2 ∷ option_map view r.3 ∷ []) ≡ (get first.now (view v) ∷ get second.now (view v) ∷ get third.now (view v) ∷ get fourth.now (view v) ∷ [])) }
{
    let mut members = object_of(alloc, v)?;
    let a = taken(&mut members, first);
    let b = taken(&mut members, second);
    let c = taken(&mut members, third);
    let d = taken(&mut members, fourth);
    if !is_none_left(&members) {
        return Err(refuse(alloc, Fault::UnknownMember));
    }
    Ok((a, b, c, d))
}

/// The members of these names, where the object has no others.
#[tactic(auto, unfolding(crate::specs::Walk::known))]
pub fn fields5(
    alloc: Global,
    v: Value,
    first: &str,
    second: &str,
    third: &str,
    fourth: &str,
    fifth: &str,
) -> Result<
    (
        Option<Value>,
        Option<Value>,
        Option<Value>,
        Option<Value>,
        Option<Value>,
    ),
    WalkErr,
>
    requires { IsTrue (differ (first.now ∷ second.now ∷ third.now ∷ fourth.now ∷ fifth.now ∷ [])) }
    ensures known { Gives (λ _. tt) result (known (first.now ∷ second.now ∷ third.now ∷ fourth.now ∷ fifth.now ∷ []) (view v)) }
    ensures values { IfOk result (λ r. (option_map view r.0 ∷ option_map view r.1 ∷ option_map view r.2 ∷ option_map view r.3 ∷ option_map view r.4 ∷ []) ≡ (get first.now (view v) ∷ get second.now (view v) ∷ get third.now (view v) ∷ get fourth.now (view v) ∷ get fifth.now (view v) ∷ [])) }
{
    let mut members = object_of(alloc, v)?;
    let a = taken(&mut members, first);
    let b = taken(&mut members, second);
    let c = taken(&mut members, third);
    let d = taken(&mut members, fourth);
    let e = taken(&mut members, fifth);
    if !is_none_left(&members) {
        return Err(refuse(alloc, Fault::UnknownMember));
    }
    Ok((a, b, c, d, e))
}

/// The members of these names, where the object has no others.
#[tactic(auto, unfolding(crate::specs::Walk::known))]
pub fn fields6(
    alloc: Global,
    v: Value,
    first: &str,
    second: &str,
    third: &str,
    fourth: &str,
    fifth: &str,
    sixth: &str,
) -> Result<
    (
        Option<Value>,
        Option<Value>,
        Option<Value>,
        Option<Value>,
        Option<Value>,
        Option<Value>,
    ),
    WalkErr,
>
    requires { IsTrue (differ (first.now ∷ second.now ∷ third.now ∷ fourth.now ∷ fifth.now ∷ sixth.now ∷ [])) }
    ensures known { Gives (λ _. tt) result (known (first.now ∷ second.now ∷ third.now ∷ fourth.now ∷ fifth.now ∷ sixth.now ∷ []) (view v)) }
    ensures values { IfOk result (λ r. (option_map view r.0 ∷ option_map view r.1 ∷ option_map view r.2 ∷ option_map view r.3 ∷ option_map view r.4 ∷ option_map view r.5 ∷ []) ≡ (get first.now (view v) ∷ get second.now (view v) ∷ get third.now (view v) ∷ get fourth.now (view v) ∷ get fifth.now (view v) ∷ get sixth.now (view v) ∷ [])) }
{
    let mut members = object_of(alloc, v)?;
    let a = taken(&mut members, first);
    let b = taken(&mut members, second);
    let c = taken(&mut members, third);
    let d = taken(&mut members, fourth);
    let e = taken(&mut members, fifth);
    let f = taken(&mut members, sixth);
    if !is_none_left(&members) {
        return Err(refuse(alloc, Fault::UnknownMember));
    }
    Ok((a, b, c, d, e, f))
}

/// The members of these names, where the object has no others.
#[tactic(auto, unfolding(crate::specs::Walk::known))]
pub fn fields7(
    alloc: Global,
    v: Value,
    first: &str,
    second: &str,
    third: &str,
    fourth: &str,
    fifth: &str,
    sixth: &str,
    seventh: &str,
) -> Result<
    (
        Option<Value>,
        Option<Value>,
        Option<Value>,
        Option<Value>,
        Option<Value>,
        Option<Value>,
        Option<Value>,
    ),
    WalkErr,
>
    requires { IsTrue (differ (first.now ∷ second.now ∷ third.now ∷ fourth.now ∷ fifth.now ∷ sixth.now ∷ seventh.now ∷ [])) }
    ensures known { Gives (λ _. tt) result (known (first.now ∷ second.now ∷ third.now ∷ fourth.now ∷ fifth.now ∷ sixth.now ∷ seventh.now ∷ []) (view v)) }
    ensures values { IfOk result (λ r. (option_map view r.0 ∷ option_map view r.1 ∷ option_map view r.2 ∷ option_map view r.3 ∷ option_map view r.4 ∷ option_map view r.5 ∷ option_map view r.6 ∷ []) ≡ (get first.now (view v) ∷ get second.now (view v) ∷ get third.now (view v) ∷ get fourth.now (view v) ∷ get fifth.now (view v) ∷ get sixth.now (view v) ∷ get seventh.now (view v) ∷ [])) }
{
    let mut members = object_of(alloc, v)?;
    let a = taken(&mut members, first);
    let b = taken(&mut members, second);
    let c = taken(&mut members, third);
    let d = taken(&mut members, fourth);
    let e = taken(&mut members, fifth);
    let f = taken(&mut members, sixth);
    let g = taken(&mut members, seventh);
    if !is_none_left(&members) {
        return Err(refuse(alloc, Fault::UnknownMember));
    }
    Ok((a, b, c, d, e, f, g))
}

/// The members of these names, where the object has no others.
#[tactic(auto, unfolding(crate::specs::Walk::known))]
pub fn fields8(
    alloc: Global,
    v: Value,
    first: &str,
    second: &str,
    third: &str,
    fourth: &str,
    fifth: &str,
    sixth: &str,
    seventh: &str,
    eighth: &str,
) -> Result<
    (
        Option<Value>,
        Option<Value>,
        Option<Value>,
        Option<Value>,
        Option<Value>,
        Option<Value>,
        Option<Value>,
        Option<Value>,
    ),
    WalkErr,
>
    requires { IsTrue (differ (first.now ∷ second.now ∷ third.now ∷ fourth.now ∷ fifth.now ∷ sixth.now ∷ seventh.now ∷ eighth.now ∷ [])) }
    ensures known { Gives (λ _. tt) result (known (first.now ∷ second.now ∷ third.now ∷ fourth.now ∷ fifth.now ∷ sixth.now ∷ seventh.now ∷ eighth.now ∷ []) (view v)) }
    ensures values { IfOk result (λ r. (option_map view r.0 ∷ option_map view r.1 ∷ option_map view r.2 ∷ option_map view r.3 ∷ option_map view r.4 ∷ option_map view r.5 ∷ option_map view r.6 ∷ option_map view r.7 ∷ []) ≡ (get first.now (view v) ∷ get second.now (view v) ∷ get third.now (view v) ∷ get fourth.now (view v) ∷ get fifth.now (view v) ∷ get sixth.now (view v) ∷ get seventh.now (view v) ∷ get eighth.now (view v) ∷ [])) }
{
    let mut members = object_of(alloc, v)?;
    let a = taken(&mut members, first);
    let b = taken(&mut members, second);
    let c = taken(&mut members, third);
    let d = taken(&mut members, fourth);
    let e = taken(&mut members, fifth);
    let f = taken(&mut members, sixth);
    let g = taken(&mut members, seventh);
    let h = taken(&mut members, eighth);
    if !is_none_left(&members) {
        return Err(refuse(alloc, Fault::UnknownMember));
    }
    Ok((a, b, c, d, e, f, g, h))
}
