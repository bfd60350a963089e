//! Reading a script.
ghost use Rattle.std.specs.Prelude.{◌≡◌, ◌⊎◌, ◌∷◌, ◌+◌, ◌-◌, ◌^◌, IfOk, IfSome, None, Ok, length, min, sum_by, option_map};
ghost use Rattle.std.specs.Str.{chars};
ghost use Rattle.serde_json.specs.View.{view};
ghost use Rattle.ax_json.specs.Refused.{refusal_of};
ghost use Rattle.ax_script.specs.Sound.{IsSoundScript};
ghost use Rattle.ax_script.specs.Script.{GivesScript, finished, json_of, ops_count, script, told, told_at, with_order};

use crate::draft::{Draft, draft_of};
use crate::order::{OrderErr, order_of};
use crate::trees::trees_of;
use crate::{FrameScript, Script, ScriptErr};
use ax_ask::{Items, TimedQueries};
use ax_base::{NoMemory, Text};
use ax_json::{Fault, WalkErr};
use serde_json::Value;
use std::alloc::Global;

/// How many bytes a script may have.
const MAX_BYTES: usize = 67_108_864;

/// How many operations, queries and actions a script may have.
const MAX_OPS: usize = 1_000_000;

fn told_at(fault: Fault, path: Text) -> ScriptErr
    ensures { result ≡ told_at fault path }
{
    match fault {
        Fault::UnknownMember => ScriptErr::UnknownMember(path),
        Fault::Missing => ScriptErr::Missing(path),
        Fault::BadType => ScriptErr::BadType(path),
        Fault::BadCount => ScriptErr::BadCount(path),
        Fault::BadNumber => ScriptErr::BadNumber(path),
        Fault::BadName => ScriptErr::BadName(path),
    }
}

/// The path from `$`.
fn whole_path(alloc: Global, path: &str) -> Result<Text, NoMemory>
    ensures { IfOk result (λ text. text ≡ chars (36 ∷ path.now)) }
{
    match format!(in alloc; "${path}") {
        Ok(path) => Text::of(alloc, path.as_str()),
        Err(_) => Err(NoMemory),
    }
}

/// A refusal of the walk, with its path from `$`.
fn told(alloc: Global, error: WalkErr) -> ScriptErr
    ensures memory { refusal_of error ≡ None → result ≡ ScriptErr.NoMemory }
    ensures refused { IfSome (refusal_of error) (λ r. (result ≡ ScriptErr.NoMemory) ⊎ (result ≡ told r)) }
{
    match error {
        WalkErr::NoMemory => ScriptErr::NoMemory,
        WalkErr::Refused(fault, path) => match whole_path(alloc, path.as_str()) {
            Ok(path) => told_at(fault, path),
            Err(_) => ScriptErr::NoMemory,
        },
    }
}

/// How many operations the frames have. A number beyond the last of `usize` stands at that one.
fn frame_ops(frames: &[FrameScript]) -> usize
    ensures { result ≡ min (sum_by (λ f. length f.ops) frames.now) (2 ^ 64 - 1) }
{
    let mut count = 0usize;
    for frame in frames {
        count = count.saturating_add(frame.ops.len());
    }
    count
}

fn reader_queries(readers: &[TimedQueries]) -> usize
    ensures { result ≡ min (sum_by (λ r. length r) readers.now) (2 ^ 64 - 1) }
{
    let mut count = 0usize;
    for queries in readers {
        count = count.saturating_add(queries.len());
    }
    count
}

#[tactic(auto, unfolding(crate::specs::Script::ops_count))]
fn ops_count(draft: &Draft) -> usize
    ensures { result ≡ ops_count draft.now }
{
    frame_ops(draft.frames.as_slice())
        .saturating_add(draft.browser.len())
        .saturating_add(reader_queries(draft.readers.as_slice()))
        .saturating_add(draft.actions.len())
}

fn with_order(draft: Draft, order: Items) -> Script
    ensures { Ok result ≡ with_order draft (Ok order) }
{
    let Draft {
        version,
        frames,
        browser,
        readers,
        order: _,
        actions,
    } = draft;
    Script {
        version,
        frames,
        browser,
        readers,
        order,
        actions,
    }
}

/// The script of a draft: its operations are counted, and then its order is read.
#[tactic(auto, unfolding(crate::specs::Script::finished))]
fn finished(alloc: Global, draft: Draft) -> Result<Script, ScriptErr>
    ensures { GivesScript result (finished draft) }
{
    let count = ops_count(&draft);
    if count > MAX_OPS {
        return Err(ScriptErr::TooManyOps(count));
    }
    let Ok(trees) = trees_of(alloc, draft.frames.as_slice()) else {
        return Err(ScriptErr::NoMemory);
    };
    match order_of(alloc, &trees, draft.readers.len(), draft.order.as_slice()) {
        Ok(order) => Ok(with_order(draft, order)),
        Err(OrderErr::BadItem(i)) => Err(ScriptErr::BadOrder(i)),
        Err(OrderErr::NoMemory) => Err(ScriptErr::NoMemory),
    }
}

/// The value that the bytes read as.
#[tactic(auto, unfolding(crate::specs::Script::json_of), using(crate::proofs::Steps::json_found, crate::proofs::Steps::json_none))]
fn json_of(alloc: Global, bytes: &[u8]) -> Result<Option<Value>, NoMemory>
    ensures { IfOk result (λ o. json_of bytes.now ≡ option_map view o) }
{
    match Value::from_slice(alloc, bytes) {
        Ok(v) => Ok(Some(v)),
        Err(e) => {
            if e.is_memory() {
                Err(NoMemory)
            } else {
                Ok(None)
            }
        }
    }
}

/// The script that the bytes are, or the first refusal. `TooBig` comes before all else, then `NotJson`, then the refusals
/// of the walk in its order, then `TooManyOps`, then `BadOrder`. `NotBuilt` never comes from here.
///
/// What is read is sound: there is a frame, no two frames have one tree, and operations, actions and the order's items name
/// trees and readers that are there.
#[tactic(auto, using(crate::proofs::Sound::given_is_sound))]
pub fn read_script(alloc: Global, bytes: &[u8]) -> Result<Script, ScriptErr>
    ensures script { GivesScript result (script bytes.now) }
    ensures sound { IfOk result IsSoundScript }
{
    script_of(alloc, bytes)
}

/// The script that the bytes are, or the first refusal.
#[tactic(auto, unfolding(crate::specs::Script::script))]
fn script_of(alloc: Global, bytes: &[u8]) -> Result<Script, ScriptErr>
    ensures { GivesScript result (script bytes.now) }
{
    if bytes.len() > MAX_BYTES {
        return Err(ScriptErr::TooBig(67_108_865));
    }
    match json_of(alloc, bytes) {
        Err(NoMemory) => Err(ScriptErr::NoMemory),
        Ok(None) => Err(ScriptErr::NotJson),
        Ok(Some(v)) => match draft_of(alloc, v) {
            Ok(draft) => finished(alloc, draft),
            Err(e) => Err(told(alloc, e)),
        },
    }
}
