//! Which states were gained or lost between two nodes.
ghost use Rattle.std.specs.Prelude.{◌≡◌, ◌≤◌, ◌+◌, ◌++◌, ◌&&◌, ◌||◌, not, length, map, flat_map, slice_get, OnOk, if◌then◌else◌};
ghost use Rattle.ax_attrs.specs.Tables.{state_rows};
ghost use Rattle.ax_node.specs.Look.{look_of};
ghost use Rattle.ax_rules.specs.Events.{at_node, state_events, tells_gained, tells_lost};
ghost use Rattle.ax_events.specs.Places.{is_item, is_told_by, BeginsAbove};

use crate::tell::tell;
use ax_attrs::{State, When};
use ax_base::{NoMemory, Place};
use ax_node::NodeData;
use ax_tree::Events;

/// Tells of each state that was gained or lost where its row says so, in the order of the table. Both lists are gone along
/// with the table, once.
pub fn tell_states(
    out: &mut Events,
    at: &Place,
    old: &NodeData,
    new: &NodeData,
) -> Result<(), NoMemory>
    ensures { OnOk result (out.new ≡ out.old ++ map (at_node at.now.tree at.now.node) (flat_map (state_events (look_of old.now) (look_of new.now)) state_rows)) }
{
    let old = old.states.as_slice();
    let new = new.states.as_slice();
    let _ = first_number(old);
    let _ = first_number(new);
    let mut old_place: usize = 0;
    let mut new_place: usize = 0;
    for before in 0..State::COUNT {
        let Some(state) = State::of(before + 1) else {
            return Ok(());
        };
        let (kind, when) = state.event();
        let had = is_at(old, old_place, state);
        let has = is_at(new, new_place, state);
        tell(out, at, kind, is_told(when, had, has))?;
        old_place = place_after(old, old_place, state);
        new_place = place_after(new, new_place, state);
    }
    Ok(())
}

/// The number of the first state. It is asked for what it says: numbers begin at 1.
fn first_number(states: &[State]) -> u16
    ensures { BeginsAbove 0 states.now }
{
    match states.first() {
        Some(first) => first.number(),
        None => 0,
    }
}

/// Whether the state stands at the place.
fn is_at(states: &[State], place: usize, state: State) -> bool
    ensures { result ≡ is_item state (slice_get states.now place) }
{
    match states.get(place) {
        Some(other) => *other == state,
        None => false,
    }
}

/// The next place, where the state stands at this one.
fn place_after(states: &[State], place: usize, state: State) -> usize
    requires { place ≤ length states.now }
    ensures after { result ≡ (if is_item state (slice_get states.now place) then place + 1 else place) }
    ensures within { result ≤ length states.now }
{
    match states.get(place) {
        Some(other) if *other == state => place + 1,
        _ => place,
    }
}

/// Whether a change of a state is told.
fn is_told(when: When, had: bool, has: bool) -> bool
    ensures { result ≡ is_told_by when had has }
{
    match when {
        When::Gained => has && !had,
        When::Either => has != had,
        When::Lost => had && !has,
    }
}
