//! The text of an order.
ghost use Rattle.std.specs.Prelude.{◌≡◌, ◌++◌, IfOk, OnOk, OnErr, string_bytes};
ghost use Rattle.std.specs.List.{flat_map};
ghost use Rattle.ax_run_rules.specs.ReplayText.{item_text, order_text};
ghost use Rattle.ax_report.specs.Buffers.{Extends};
ghost use Rattle.ax_report.specs.Strings.{item_after};

use crate::Bytes;
use crate::put::put;
use ax_ask::Item;
use std::alloc::{AllocError, Global};

#[tactic(auto, unfolding(ax_run_rules::specs::ReplayText::item_text))]
fn item_text(alloc: Global, item: Item) -> Result<String, AllocError>
    ensures { IfOk result (λ s. string_bytes s ≡ item_text item) }
{
    match item {
        Item::Frame(tree) => {
            let tree = tree.get();
            format!(in alloc; "f{tree}")
        }
        Item::Receive(tree) => {
            let tree = tree.get();
            format!(in alloc; "a{tree}")
        }
        Item::Browser => String::from_str(alloc, "b"),
        Item::Deliver(tree, token) => {
            let tree = tree.get();
            let token = token.0;
            format!(in alloc; "d{tree}:{token}")
        }
        Item::Reader(reader) => format!(in alloc; "r{reader}"),
    }
}

#[tactic(auto, unfolding(crate::specs::Strings::item_after), using(crate::proofs::BufferLemmas::begins))]
fn put_item_after(alloc: Global, item: Item, out: &mut Bytes) -> Result<(), AllocError>
    ensures ok { OnOk result (out.new.items ≡ out.old.items ++ item_after item) }
    ensures err { OnErr result (Extends out.old.items out.new.items) }
{
    put(out, " ")?;
    put(out, &item_text(alloc, item)?)
}

fn put_items_after(alloc: Global, items: &[Item], out: &mut Bytes) -> Result<(), AllocError>
    ensures ok { OnOk result (out.new.items ≡ out.old.items ++ flat_map item_after items.now) }
    ensures err { OnErr result (Extends out.old.items out.new.items) }
{
    for item in items {
        put_item_after(alloc, *item, out)?;
    }
    Ok(())
}

#[tactic(auto, unfolding(ax_run_rules::specs::ReplayText::order_text, crate::specs::Strings::item_after), using(crate::proofs::BufferLemmas::begins))]
pub(crate) fn put_order(alloc: Global, items: &[Item], out: &mut Bytes) -> Result<(), AllocError>
    ensures ok { OnOk result (out.new.items ≡ out.old.items ++ order_text items.now) }
    ensures err { OnErr result (Extends out.old.items out.new.items) }
{
    match items.split_first() {
        None => Ok(()),
        Some((first, rest)) => {
            put(out, &item_text(alloc, *first)?)?;
            put_items_after(alloc, rest, out)
        }
    }
}
