//! Values by the ids of trees.
ghost use Rattle.std.specs.Prelude.{◌≡◌, ℕ, OnOk, None, Some, slice_get};
ghost use Rattle.std.specs.Option.{option_copied};
ghost use Rattle.ax_forest.specs.ById.{at_id, HasPlace, KeepsPlaces, Puts};

use ax_base::{NoMemory, Seq, TreeId};

/// At the place of each id, from 0 on, its value or none.
pub type ById<T> = Seq<Option<T>>;

/// The value of an id.
pub fn value_at<T>(values: &ById<T>, t: TreeId) -> Option<&T>
    ensures { option_copied result ≡ at_id values.now t }
{
    match values.get(t.get() as usize) {
        Some(Some(value)) => Some(value),
        Some(None) => None,
        None => None,
    }
}

/// Puts a value, or none, in the place of an id, where it has a place.
pub fn put<T: Drop>(values: &mut ById<T>, t: TreeId, value: Option<T>)
    ensures puts { HasPlace values.old t → Puts t value values.old values.new }
    ensures out { slice_get values.old t ≡ None → values.new ≡ values.old }
    ensures places { KeepsPlaces values.old values.new }
{
    let at = t.get() as usize;
    if at < values.len() {
        values.set(at, value);
    }
}

/// Makes places up to that of the id.
fn make_place<T: Drop>(values: &mut ById<T>, t: TreeId) -> Result<(), NoMemory>
    ensures place { OnOk result (HasPlace values.new t) }
    ensures same { (u : ℕ) → at_id values.new u ≡ at_id values.old u }
    ensures places { KeepsPlaces values.old values.new }
{
    let end = t.get() as usize + 1;
    for _at in values.len()..end {
        values.push(None)?;
    }
    Ok(())
}

/// Puts the value of an id, which may have no place yet.
pub fn fill<T: Drop>(values: &mut ById<T>, t: TreeId, value: T) -> Result<(), NoMemory>
    ensures puts { OnOk result (Puts t (Some value) values.old values.new) }
    ensures place { OnOk result (HasPlace values.new t) }
    ensures places { OnOk result (KeepsPlaces values.old values.new) }
{
    make_place(values, t)?;
    put(values, t, Some(value));
    Ok(())
}
