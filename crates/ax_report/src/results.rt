//! What became of a step, as a short text of its own.
ghost use Rattle.std.specs.Prelude.{◌≡◌, Some, IfOk, string_bytes};
ghost use Rattle.std.specs.Fmt.{decimal};
ghost use Rattle.ax_run_rules.specs.Writing.{id_text, with_number, with_numbers, place_text};
ghost use Rattle.ax_run_rules.specs.LineText.{edit_result, touch_result, refusal_text, probe_text, act_result, token_text};

use ax_ask::{ActNote, ProbeNote};
use ax_base::{NodeId, Place, Token, TreeId};
use ax_tree::{EditErr, MarkErr, Refusal};
use std::alloc::{AllocError, Global};

/// An id's number, and 0 where there is none.
#[tactic(auto, using(crate::proofs::StringLemmas::zero_text))]
pub(crate) fn node_number(id: Option<NodeId>) -> u32
    ensures { decimal result ≡ id_text id }
{
    match id {
        Some(id) => id.get(),
        None => 0,
    }
}

#[tactic(auto, using(crate::proofs::StringLemmas::zero_text))]
pub(crate) fn tree_number(id: Option<TreeId>) -> u32
    ensures { decimal result ≡ id_text id }
{
    match id {
        Some(id) => id.get(),
        None => 0,
    }
}

/// A word and a number.
pub(crate) fn with_number(alloc: Global, word: &str, a: u64) -> Result<String, AllocError>
    ensures { IfOk result (λ s. string_bytes s ≡ with_number word.now a) }
{
    format!(in alloc; "{word} {a}")
}

/// A word and two numbers.
pub(crate) fn with_numbers(alloc: Global, word: &str, a: u64, b: u64) -> Result<String, AllocError>
    ensures { IfOk result (λ s. string_bytes s ≡ with_numbers word.now a b) }
{
    format!(in alloc; "{word} {a} {b}")
}

fn with_id(alloc: Global, word: &str, id: NodeId) -> Result<String, AllocError>
    ensures { IfOk result (λ s. string_bytes s ≡ with_number word.now id) }
{
    with_number(alloc, word, u64::from(id.get()))
}

#[tactic(auto, unfolding(ax_run_rules::specs::Writing::place_text))]
pub(crate) fn place_text(alloc: Global, place: Place) -> Result<String, AllocError>
    ensures { IfOk result (λ s. string_bytes s ≡ place_text place) }
{
    let tree = place.tree.get();
    let node = place.node.get();
    format!(in alloc; "{tree}:{node}")
}

fn edit_refusal(alloc: Global, refusal: EditErr) -> Result<String, AllocError>
    ensures { IfOk result (λ s. string_bytes s ≡ edit_result (Some refusal)) }
{
    match refusal {
        EditErr::NoRoot => String::from_str(alloc, "NoRoot"),
        EditErr::UnknownNode(id) => with_id(alloc, "UnknownNode", id),
        EditErr::IdTaken(id) => with_id(alloc, "IdTaken", id),
        EditErr::BadIndex(i, len) => with_numbers(alloc, "BadIndex", i as u64, len as u64),
        EditErr::IsRoot(id) => with_id(alloc, "IsRoot", id),
        EditErr::IntoItself(id) => with_id(alloc, "IntoItself", id),
        EditErr::TooMany(n) => with_number(alloc, "TooMany", n as u64),
        EditErr::TooDeep(n) => with_number(alloc, "TooDeep", n as u64),
        EditErr::BadAttr(key) => with_number(alloc, "BadAttr", u64::from(key.number())),
        EditErr::NoMemory => String::from_str(alloc, "NoMemory"),
    }
}

pub(crate) fn edit_result(alloc: Global, refused: Option<EditErr>) -> Result<String, AllocError>
    ensures { IfOk result (λ s. string_bytes s ≡ edit_result refused) }
{
    match refused {
        None => String::from_str(alloc, "ok"),
        Some(refusal) => edit_refusal(alloc, refusal),
    }
}

fn touch_refusal(alloc: Global, refusal: MarkErr) -> Result<String, AllocError>
    ensures { IfOk result (λ s. string_bytes s ≡ touch_result (Some refusal)) }
{
    match refusal {
        MarkErr::UnknownNode(id) => with_id(alloc, "UnknownNode", id),
        MarkErr::NoMemory => String::from_str(alloc, "NoMemory"),
    }
}

pub(crate) fn touch_result(alloc: Global, refused: Option<MarkErr>) -> Result<String, AllocError>
    ensures { IfOk result (λ s. string_bytes s ≡ touch_result refused) }
{
    match refused {
        None => String::from_str(alloc, "ok"),
        Some(refusal) => touch_refusal(alloc, refusal),
    }
}

fn refusal_text(alloc: Global, refusal: Refusal) -> Result<String, AllocError>
    ensures { IfOk result (λ s. string_bytes s ≡ refusal_text refusal) }
{
    match refusal {
        Refusal::BadClear(id) => with_id(alloc, "BadClear", id),
        Refusal::NotInTree(id) => with_id(alloc, "NotInTree", id),
        Refusal::DuplicateChild(id) => with_id(alloc, "DuplicateChild", id),
        Refusal::Reparented(id) => with_id(alloc, "Reparented", id),
        Refusal::Pending(id) => with_id(alloc, "Pending", id),
        Refusal::TooDeep(n) => with_number(alloc, "TooDeep", n as u64),
        Refusal::NoMemory => String::from_str(alloc, "NoMemory"),
    }
}

pub(crate) fn probe_text(alloc: Global, note: ProbeNote) -> Result<String, AllocError>
    ensures { IfOk result (λ s. string_bytes s ≡ probe_text note) }
{
    match note {
        ProbeNote::Accepted(n) => with_number(alloc, "accepted", n as u64),
        ProbeNote::Refused(refusal) => refusal_text(alloc, refusal),
        ProbeNote::Gone => String::from_str(alloc, "gone"),
    }
}

pub(crate) fn token_text(alloc: Global, token: Option<Token>) -> Result<String, AllocError>
    ensures { IfOk result (λ s. string_bytes s ≡ token_text token) }
{
    match token {
        None => String::from_str(alloc, "gone"),
        Some(token) => with_number(alloc, "token", token.0),
    }
}

pub(crate) fn act_result(alloc: Global, out: ActNote) -> Result<String, AllocError>
    ensures { IfOk result (λ s. string_bytes s ≡ act_result out) }
{
    match out {
        ActNote::Ok => String::from_str(alloc, "ok"),
        ActNote::Gone => String::from_str(alloc, "gone"),
        ActNote::NoRoot => String::from_str(alloc, "NoRoot"),
        ActNote::UnknownNode(id) => with_id(alloc, "UnknownNode", id),
        ActNote::NoContainer(id) => with_id(alloc, "NoContainer", id),
    }
}
