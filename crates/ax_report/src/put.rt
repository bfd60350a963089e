//! Pieces of text at the end of a buffer.
//!
//! Where there is no memory, a buffer may keep a part of the text behind what it had.
ghost use Rattle.std.specs.Prelude.{◌≡◌, ◌<◌, ◌++◌, IfOk, OnOk, OnErr, encode_utf8_all, string_bytes};
ghost use Rattle.std.specs.List.{flat_map};
ghost use Rattle.ax_run_rules.specs.Writing.{control_text, listing, quoted, quoted_scalar};
ghost use Rattle.std.specs.Fmt.{decimal};
ghost use Rattle.ax_report.specs.Buffers.{Extends};
ghost use Rattle.ax_report.specs.Strings.{byte_text, number_after};

use crate::Bytes;
use ax_base::{NodeId, Text};
use std::alloc::{AllocError, Global};

pub(crate) fn put(out: &mut Bytes, text: &str) -> Result<(), AllocError>
    ensures ok { OnOk result (out.new.items ≡ out.old.items ++ text.now) }
    ensures err { OnErr result (Extends out.old.items out.new.items) }
{
    out.extend_from_slice(text.as_bytes())
}

#[tactic(auto, unfolding(crate::specs::Strings::number_after), using(crate::proofs::BufferLemmas::begins))]
fn put_number_after(alloc: Global, id: NodeId, out: &mut Bytes) -> Result<(), AllocError>
    ensures ok { OnOk result (out.new.items ≡ out.old.items ++ number_after id) }
    ensures err { OnErr result (Extends out.old.items out.new.items) }
{
    let id = id.get();
    put(out, &format!(in alloc; " {id}")?)
}

fn put_numbers_after(alloc: Global, ids: &[NodeId], out: &mut Bytes) -> Result<(), AllocError>
    ensures ok { OnOk result (out.new.items ≡ out.old.items ++ flat_map number_after ids.now) }
    ensures err { OnErr result (Extends out.old.items out.new.items) }
{
    for id in ids {
        put_number_after(alloc, *id, out)?;
    }
    Ok(())
}

/// The ids with a space between, or `-`.
#[tactic(auto, unfolding(crate::specs::Strings::number_after), using(crate::proofs::BufferLemmas::begins))]
pub(crate) fn put_ids(alloc: Global, ids: &[NodeId], out: &mut Bytes) -> Result<(), AllocError>
    ensures ok { OnOk result (out.new.items ≡ out.old.items ++ listing decimal ids.now) }
    ensures err { OnErr result (Extends out.old.items out.new.items) }
{
    match ids.split_first() {
        None => put(out, "-"),
        Some((first, rest)) => {
            let first = first.get();
            put(out, &format!(in alloc; "{first}")?)?;
            put_numbers_after(alloc, rest, out)?;
            Ok(())
        }
    }
}

#[tactic(auto, using(std::proofs::lemmas::Fmt::hex_byte))]
fn control_text(alloc: Global, byte: u8) -> Result<String, AllocError>
    requires { byte < 32 }
    ensures { IfOk result (λ s. string_bytes s ≡ control_text byte) }
{
    format!(in alloc; "\\u00{byte:02x}")
}

#[tactic(auto, unfolding(crate::specs::Strings::byte_text), using(crate::proofs::BufferLemmas::begins))]
fn put_byte(alloc: Global, byte: u8, out: &mut Bytes) -> Result<(), AllocError>
    ensures ok { OnOk result (out.new.items ≡ out.old.items ++ byte_text byte) }
    ensures err { OnErr result (Extends out.old.items out.new.items) }
{
    match byte {
        b'"' => put(out, "\\\""),
        b'\\' => put(out, "\\\\"),
        8 => put(out, "\\b"),
        12 => put(out, "\\f"),
        b'\n' => put(out, "\\n"),
        b'\r' => put(out, "\\r"),
        b'\t' => put(out, "\\t"),
        _ => {
            if byte < 32 {
                put(out, &control_text(alloc, byte)?)
            } else {
                out.extend_from_slice(&[byte])
            }
        }
    }
}

// A scalar that is escaped is one byte, and the bytes of every other scalar stay as they are.
fn put_bytes(alloc: Global, bytes: &[u8], out: &mut Bytes) -> Result<(), AllocError>
    ensures ok { OnOk result (out.new.items ≡ out.old.items ++ flat_map byte_text bytes.now) }
    ensures err { OnErr result (Extends out.old.items out.new.items) }
{
    for byte in bytes {
        put_byte(alloc, *byte, out)?;
    }
    Ok(())
}

/// The scalars of a text, with escapes.
fn put_scalars(alloc: Global, text: &Text, out: &mut Bytes) -> Result<(), AllocError>
    ensures ok { OnOk result (out.new.items ≡ out.old.items ++ encode_utf8_all (flat_map quoted_scalar text.now)) }
    ensures err { OnErr result (Extends out.old.items out.new.items) }
{
    let bytes = text.as_str().as_bytes();
    put_bytes(alloc, bytes, out)
}

/// A text between quotes, with escapes.
#[tactic(auto, unfolding(ax_run_rules::specs::Writing::quoted), using(crate::proofs::BufferLemmas::begins))]
pub(crate) fn put_quoted(alloc: Global, text: &Text, out: &mut Bytes) -> Result<(), AllocError>
    ensures ok { OnOk result (out.new.items ≡ out.old.items ++ quoted text.now) }
    ensures err { OnErr result (Extends out.old.items out.new.items) }
{
    put(out, "\"")?;
    put_scalars(alloc, text, out)?;
    put(out, "\"")
}
