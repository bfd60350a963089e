//! Replies.
ghost use Rattle.std.specs.Prelude.{◌≡◌, ◌++◌, IfOk, OnOk, OnErr, string_bytes};
ghost use Rattle.std.specs.List.{flat_map};
ghost use Rattle.ax_run_rules.specs.Writing.{listing, place_text, area_text};
ghost use Rattle.ax_run_rules.specs.ReplyText.{pos_text, reply_text};
ghost use Rattle.ax_report.specs.Buffers.{Extends};
ghost use Rattle.ax_report.specs.Strings.{place_after};

use crate::Bytes;
use crate::names::order_name;
use crate::put::{put, put_quoted};
use crate::results::{place_text, with_number, with_numbers};
use ax_ask::{Reply, affinity_name};
use ax_base::{Place, Pos};
use std::alloc::{AllocError, Global};

#[tactic(auto, unfolding(ax_run_rules::specs::Writing::area_text))]
fn area_text(alloc: Global, x: i64, y: i64, w: i64, h: i64) -> Result<String, AllocError>
    ensures { IfOk result (λ s. string_bytes s ≡ area_text x y w h) }
{
    format!(in alloc; "[{x},{y},{w},{h}]")
}

fn pos_text(alloc: Global, pos: Pos) -> Result<String, AllocError>
    ensures { IfOk result (λ s. string_bytes s ≡ pos_text pos) }
{
    match pos {
        Pos::Null => String::from_str(alloc, "null"),
        Pos::Tree { tree, node, child } => {
            let place = place_text(alloc, Place { tree, node })?;
            format!(in alloc; "{place} child {child}")
        }
        Pos::Text {
            tree,
            node,
            offset,
            affinity,
        } => {
            let place = place_text(alloc, Place { tree, node })?;
            let affinity = affinity_name(affinity);
            format!(in alloc; "{place} text {offset} {affinity}")
        }
    }
}

#[tactic(auto, unfolding(crate::specs::Strings::place_after), using(crate::proofs::BufferLemmas::begins))]
fn put_place_after(alloc: Global, place: Place, out: &mut Bytes) -> Result<(), AllocError>
    ensures ok { OnOk result (out.new.items ≡ out.old.items ++ place_after place) }
    ensures err { OnErr result (Extends out.old.items out.new.items) }
{
    put(out, " ")?;
    put(out, &place_text(alloc, place)?)
}

fn put_places_after(alloc: Global, places: &[Place], out: &mut Bytes) -> Result<(), AllocError>
    ensures ok { OnOk result (out.new.items ≡ out.old.items ++ flat_map place_after places.now) }
    ensures err { OnErr result (Extends out.old.items out.new.items) }
{
    for place in places {
        put_place_after(alloc, *place, out)?;
    }
    Ok(())
}

/// The places with a space between, or `-`.
#[tactic(auto, unfolding(crate::specs::Strings::place_after), using(crate::proofs::BufferLemmas::begins))]
fn put_places(alloc: Global, places: &[Place], out: &mut Bytes) -> Result<(), AllocError>
    ensures ok { OnOk result (out.new.items ≡ out.old.items ++ listing place_text places.now) }
    ensures err { OnErr result (Extends out.old.items out.new.items) }
{
    match places.split_first() {
        None => put(out, "-"),
        Some((first, rest)) => {
            put(out, &place_text(alloc, *first)?)?;
            put_places_after(alloc, rest, out)?;
            Ok(())
        }
    }
}

#[tactic(auto, unfolding(ax_run_rules::specs::ReplyText::reply_text), using(crate::proofs::BufferLemmas::begins))]
pub(crate) fn put_reply(alloc: Global, reply: &Reply, out: &mut Bytes) -> Result<(), AllocError>
    ensures ok { OnOk result (out.new.items ≡ out.old.items ++ reply_text reply.now) }
    ensures err { OnErr result (Extends out.old.items out.new.items) }
{
    match reply {
        Reply::Place(place) => put(out, &place_text(alloc, *place)?),
        Reply::Places(places) => put_places(alloc, places.as_slice(), out),
        Reply::Node(role, n) => put(out, &with_number(alloc, role.name(), *n as u64)?),
        Reply::Order(order) => put(out, order_name(*order)),
        Reply::Offset(n) => put(out, &format!(in alloc; "{n}")?),
        Reply::Pos(pos) => put(out, &pos_text(alloc, *pos)?),
        Reply::Text(text) => put_quoted(alloc, text, out),
        Reply::Bounds(x, y, w, h) => put(out, &area_text(alloc, *x, *y, *w, *h)?),
        Reply::NoTree => put(out, "NoTree"),
        Reply::NoNode => put(out, "NoNode"),
        Reply::BadIndex(i, n) => {
            put(out, &with_numbers(alloc, "BadIndex", *i as u64, *n as u64)?)
        }
        Reply::BadOffset(o, n) => {
            put(
                out,
                &with_numbers(alloc, "BadOffset", *o as u64, *n as u64)?,
            )
        }
        Reply::NoHit => put(out, "NoHit"),
        Reply::NoFocus => put(out, "NoFocus"),
        Reply::NoParent => put(out, "NoParent"),
        Reply::AtStart => put(out, "AtStart"),
        Reply::AtEnd => put(out, "AtEnd"),
        Reply::Ignored => put(out, "Ignored"),
    }
}
