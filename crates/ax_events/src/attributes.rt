//! What differs between the attributes of two nodes.
ghost use Rattle.std.specs.Prelude.{◌≡◌, ◌≤◌, ◌+◌, ◌++◌, [], length, map, flat_map, slice_get, option_to_list, option_map, OnOk, if◌then◌else◌};
ghost use Rattle.std.specs.Option.{option_copied};
ghost use Rattle.ax_attrs.specs.Tables.{key_rows};
ghost use Rattle.ax_attrs.specs.Entry.{event_of};
ghost use Rattle.ax_base.specs.Entries.{value_at, has_key};
ghost use Rattle.ax_node.specs.Look.{look_of};
ghost use Rattle.ax_rules.specs.Events.{at_node, attr_events};

use crate::same::same_values;
use crate::tell::tell;
use ax_attrs::Key;
use ax_base::{NoMemory, Place};
use ax_node::{NodeData, Value};
use ax_tree::Events;

/// Tells of each attribute that differs and has an event, in the order of the table. Both lists are gone along with the
/// table, once.
pub fn tell_attributes(
    out: &mut Events,
    at: &Place,
    old: &NodeData,
    new: &NodeData,
) -> Result<(), NoMemory>
    ensures { OnOk result (out.new ≡ out.old ++ map (at_node at.now.tree at.now.node) (flat_map (attr_events (look_of old.now) (look_of new.now)) key_rows)) }
{
    let old = old.attrs.as_slice();
    let new = new.attrs.as_slice();
    let mut old_place: usize = 0;
    let mut new_place: usize = 0;
    for before in 0..Key::COUNT {
        let Some(key) = Key::of(before + 1) else {
            return Ok(());
        };
        let differs = !same_values(value_of(old, old_place, key), value_of(new, new_place, key));
        tell_change(out, at, key, differs)?;
        old_place = place_after(old, old_place, key);
        new_place = place_after(new, new_place, key);
    }
    Ok(())
}

/// The value of the entry at the place, if it has the key.
fn value_of(entries: &[(Key, Value)], place: usize, key: Key) -> Option<&Value>
    ensures { option_copied result ≡ value_at key (slice_get entries.now place) }
{
    match entries.get(place) {
        Some(entry) if entry.0 == key => Some(&entry.1),
        _ => None,
    }
}

/// The next place, where the entry at this one has the key.
fn place_after(entries: &[(Key, Value)], place: usize, key: Key) -> usize
    requires { place ≤ length entries.now }
    ensures after { result ≡ (if has_key key (slice_get entries.now place) then place + 1 else place) }
    ensures within { result ≤ length entries.now }
{
    match entries.get(place) {
        Some(entry) if entry.0 == key => place + 1,
        _ => place,
    }
}

/// Tells of the attribute, where it differs and has an event.
fn tell_change(out: &mut Events, at: &Place, key: Key, differs: bool) -> Result<(), NoMemory>
    ensures { OnOk result (out.new ≡ out.old ++ map (at_node at.now.tree at.now.node) (if differs then option_to_list (option_map (λ event. event.0) (event_of key_rows key)) else [])) }
{
    if !differs {
        return Ok(());
    }
    match key.event() {
        Some(kind) => tell(out, at, kind, true),
        None => Ok(()),
    }
}
