//! What stands of each frame: the entries before a receipt, and those that are left at the end.
ghost use Rattle.std.specs.Prelude.{◌≡◌, ◌++◌, ◌≤◌, length, map, replicate, slice_set, IfOk, OnOk};
ghost use Rattle.ax_trees.specs.Lists.{NoneTwice};
ghost use Rattle.ax_taken.specs.Taking.{trees_of, ArePlaces, IsNext, CanCome, received_items, came_items, came_stand, StandWithin, rest_items};

use crate::closed::ClosedFrame;
use crate::entries::put_entries;
use ax_ask::{Item, Items};
use ax_base::NoMemory;
use ax_tree::{HEntry, Packet};
use std::alloc::Global;

pub(crate) fn zeros(alloc: Global, count: usize) -> Result<Vec<usize>, NoMemory>
    ensures { IfOk result (λ zeros. zeros.items ≡ replicate count 0) }
{
    match vec![in alloc; 0usize; count] {
        Ok(zeros) => Ok(zeros),
        Err(_) => Err(NoMemory),
    }
}

/// The place of each tree's frame, by the tree's number.
pub(crate) fn places_of(alloc: Global, frames: &[ClosedFrame]) -> Result<Vec<usize>, NoMemory>
    requires { NoneTwice (trees_of frames.now) }
    ensures { IfOk result (λ places. ArePlaces frames.now places.items) }
{
    let mut places = zeros(alloc, 1001)?;
    for i in 0..frames.len() {
        let frame = &frames[i];
        places[frame.tree.get() as usize] = i;
    }
    Ok(places)
}

/// Adds a packet's receipt, and before it the entries of its frame that don't stand yet, up to and with the pass that made it.
fn put_packet(
    order: &mut Items,
    frames: &[ClosedFrame],
    places: &[usize],
    stand: &mut [usize],
    packet: &Packet,
) -> Result<(), NoMemory>
    requires { IsNext frames.now places.now stand.old packet.now }
    ensures order { OnOk result ((n : IsNext frames.now places.now stand.old packet.now) → order.new ≡ order.old ++ received_items n.frame n.from n.to) }
    ensures stand { OnOk result ((n : IsNext frames.now places.now stand.old packet.now) → stand.new ≡ slice_set stand.old n.at n.to) }
{
    let at = places[packet.tree.get() as usize];
    let frame = &frames[at];
    let to = frame.made.as_slice()[(packet.pass.0 - 1) as usize];
    put_entries(order, frame.tree, frame.journal.as_slice(), stand[at], to)?;
    order.push(Item::Receive(frame.tree))?;
    stand[at] = to;
    Ok(())
}

/// Adds the items of an entry of the history.
pub(crate) fn put_event(
    order: &mut Items,
    frames: &[ClosedFrame],
    places: &[usize],
    stand: &mut [usize],
    event: &HEntry,
) -> Result<(), NoMemory>
    requires { CanCome frames.now places.now stand.old event.now }
    ensures order { OnOk result ((n : CanCome frames.now places.now stand.old event.now) → order.new ≡ order.old ++ came_items frames.now places.now stand.old event.now n) }
    ensures stand { OnOk result ((n : CanCome frames.now places.now stand.old event.now) → stand.new ≡ came_stand frames.now places.now stand.old event.now n) }
{
    match event {
        HEntry::Got(packet) => put_packet(order, frames, places, stand, packet),
        HEntry::Asked(_) | HEntry::Ended(_) | HEntry::Probed(_, _) => order.push(Item::Browser),
    }
}

/// Adds the entries that are left, frame by frame.
pub(crate) fn put_rest(
    order: &mut Items,
    frames: &[ClosedFrame],
    stand: &[usize],
) -> Result<(), NoMemory>
    requires { StandWithin frames.now stand.now }
    ensures { OnOk result (order.new ≡ order.old ++ rest_items frames.now stand.now) }
{
    for i in 0..frames.len() {
        let frame = &frames[i];
        let journal = frame.journal.as_slice();
        put_entries(order, frame.tree, journal, stand[i], journal.len())?;
    }
    Ok(())
}
