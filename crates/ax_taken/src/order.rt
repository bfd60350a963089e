//! The order: the history with the frames' entries and the readers' queries at their places, and then what is left.
ghost use Rattle.std.specs.Prelude.{◌≡◌, ◌++◌, [], map, flat_map, IfOk, OnOk};
ghost use Rattle.std.specs.List.{enumerate_from};
ghost use Rattle.ax_run_rules.specs.Taken.{order_taken};
ghost use Rattle.ax_order_laws.specs.Parts.{IsClosedHub};
ghost use Rattle.ax_taken.specs.Taking.{parts_of, AreCuts, ArePlaces, stand_of, looks_below, history_piece};

use crate::closed::Closed;
use crate::frames::{places_of, put_event, put_rest, zeros};
use crate::queries::put_queries;
use ax_ask::Items;
use ax_base::{NoMemory, Seq};
use std::alloc::Global;

/// Adds the items of the history, with the queries behind each entry.
fn put_history(
    order: &mut Items,
    done: &Closed,
    places: &[usize],
    stand: &mut [usize],
    looks: &[Seq<u64>],
    asked: &mut [usize],
) -> Result<(), NoMemory>
    requires closed { IsClosedHub (parts_of done.now) done.now.waiting looks.now }
    requires cuts { AreCuts done.now.frames }
    requires places { ArePlaces done.now.frames places.now }
    requires stand { stand.old ≡ map (stand_of []) done.now.frames }
    requires asked { asked.old ≡ looks_below 1 looks.now }
    ensures order { OnOk result (order.new ≡ order.old ++ flat_map (history_piece done.now looks.now) (enumerate_from 1 done.now.history)) }
    ensures stand { OnOk result (stand.new ≡ map (stand_of done.now.history) done.now.frames) }
{
    let history = done.history.as_slice();
    for i in 0..history.len() {
        put_event(order, done.frames.as_slice(), places, stand, &history[i])?;
        put_queries(order, looks, asked, i + 1)?;
    }
    Ok(())
}

/// The order that the hub took. The k-th list of `looks` has, for each query that the reader k asked, how many entries of the
/// history its snapshot counted.
pub fn taken(alloc: Global, done: &Closed, looks: &[Seq<u64>]) -> Result<Items, NoMemory>
    requires closed { IsClosedHub (parts_of done.now) done.now.waiting looks.now }
    requires cuts { AreCuts done.now.frames }
    ensures { IfOk result (λ order. order ≡ order_taken (parts_of done.now) looks.now) }
{
    let places = places_of(alloc, done.frames.as_slice())?;
    let mut stand = zeros(alloc, done.frames.len())?;
    let mut asked = zeros(alloc, looks.len())?;
    let mut order = Items::new(alloc);
    put_queries(&mut order, looks, &mut asked, 0)?;
    put_history(&mut order, done, &places, &mut stand, looks, &mut asked)?;
    put_rest(&mut order, done.frames.as_slice(), &stand)?;
    Ok(order)
}
