//! The queries whose snapshots counted just so many entries.
ghost use Rattle.std.specs.Prelude.{◌≡◌, ◌+◌, ◌++◌, ℕ, replicate, IfOk, OnOk};
ghost use Rattle.ax_ask.specs.declared.op.Item.TheVariants.{Reader};
ghost use Rattle.ax_run_rules.specs.Taken.{queries_at};
ghost use Rattle.ax_order_laws.specs.Parts.{list_at};
ghost use Rattle.ax_taken.specs.Taking.{Rises, below, at_once, looks_below};

use ax_ask::{Item, Items};
use ax_base::{NoMemory, Seq};

/// Adds the queries of a reader whose snapshots counted `entries` entries, from the place `at` of its looks on, and gives the
/// place behind them.
fn put_reader(
    order: &mut Items,
    number: usize,
    looks: &[u64],
    at: usize,
    entries: usize,
) -> Result<usize, NoMemory>
    requires rises { Rises looks.now }
    requires place { at ≡ below entries looks.now }
    ensures order { OnOk result (order.new ≡ order.old ++ replicate (at_once entries looks.now) (Reader number)) }
    ensures place { IfOk result (λ place. place ≡ below (entries + 1) looks.now) }
{
    let mut place = at;
    while place < looks.len() && looks[place] == entries as u64 {
        order.push(Item::Reader(number))?;
        place += 1;
    }
    Ok(place)
}

/// Adds the queries whose snapshots counted `entries` entries, in the readers' order.
pub(crate) fn put_queries(
    order: &mut Items,
    looks: &[Seq<u64>],
    places: &mut [usize],
    entries: usize,
) -> Result<(), NoMemory>
    requires rises { (k : ℕ) → Rises (list_at looks.now k) }
    requires places { places.old ≡ looks_below entries looks.now }
    ensures order { OnOk result (order.new ≡ order.old ++ queries_at looks.now entries) }
    ensures places { OnOk result (places.new ≡ looks_below (entries + 1) looks.now) }
{
    for k in 0..looks.len() {
        places[k] = put_reader(order, k + 1, looks[k].as_slice(), places[k], entries)?;
    }
    Ok(())
}
