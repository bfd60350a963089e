//! Arrays.
ghost use Rattle.std.specs.Prelude.{◌≡◌, Result};
ghost use Rattle.serde_json.specs.Data.{Data};
ghost use Rattle.serde_json.specs.View.{view, items_view};
ghost use Rattle.ax_json.specs.Refused.{Refusal, Gives};
ghost use Rattle.ax_json.specs.Walk.{array_of, each, list_of};

use crate::refusal::{in_item, refuse};
use crate::{Fault, Form, WalkErr};
use ax_base::Seq;
use serde_json::Value;
use std::alloc::Global;

/// The items of an array.
#[tactic(auto, unfolding(crate::specs::Walk::array_of))]
pub fn array_of(alloc: Global, v: Value) -> Result<Vec<Value>, WalkErr>
    ensures { Gives (λ list. items_view list.items) result (array_of (view v)) }
{
    match v {
        Value::Array(list) => Ok(list),
        _ => Err(refuse(alloc, Fault::BadType)),
    }
}

/// Each item of an array.
pub fn each<F: Form>(alloc: Global, form: &F, list: Vec<Value>) -> Result<Seq<F::Item>, WalkErr>
    ensures { Gives (λ x. x) result (each (F.reads form.now) 0 (items_view list.items)) }
{
    let mut found = Seq::new(alloc);
    for v in list {
        match form.read(alloc, v) {
            Ok(x) => found.push(x)?,
            Err(e) => return Err(in_item(alloc, found.len(), e)),
        }
    }
    Ok(found)
}

#[tactic(auto, unfolding(crate::specs::Walk::list_of))]
pub fn list_of<F: Form>(alloc: Global, form: &F, v: Value) -> Result<Seq<F::Item>, WalkErr>
    ensures { Gives (λ x. x) result (list_of (F.reads form.now) (view v)) }
{
    let list = array_of(alloc, v)?;
    each(alloc, form, list)
}

/// An array, each of whose items has the form.
#[derive(Clone, Copy)]
pub struct ListOf<F> {
    pub form: F,
}

impl<F: Form> Form for ListOf<F> {
    type Item = Seq<F::Item>;

    ghost reads = { λ f. list_of (F.reads f.form) };

    fn read(&self, alloc: Global, v: Value) -> Result<Seq<F::Item>, WalkErr> {
        list_of(alloc, &self.form, v)
    }
}
