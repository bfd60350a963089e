//! The line of each step.
ghost use Rattle.std.specs.Prelude.{◌≡◌, ◌++◌, IfOk, OnOk, OnErr, string_bytes};
ghost use Rattle.std.specs.List.{flat_map};
ghost use Rattle.ax_ask.specs.declared.line.Line.TheVariants as lines;
ghost use Rattle.ax_run_rules.specs.LineText.{update_line, pass_text, event_node, event_line, verdict_text, line_text};
ghost use Rattle.ax_report.specs.Buffers.{Extends};

use crate::Bytes;
use crate::names::{data_text, ok_or_gone, touch_name};
use crate::put::{put, put_ids};
use crate::reply::put_reply;
use crate::results::{
    act_result, edit_result, node_number, probe_text, token_text, touch_result, with_number,
    with_numbers,
};
use ax_ask::{ActNote, DoName, Line, OpName, PassNote, ProbeNote, QueryName, Reply, UpdateNote};
use ax_base::{NodeId, Token, TreeId};
use ax_tree::{EditErr, Event, MarkErr, Verdict};
use std::alloc::{AllocError, Global};

#[tactic(auto, unfolding(ax_run_rules::specs::LineText::line_text))]
fn edited_text(
    alloc: Global,
    tree: TreeId,
    name: OpName,
    node: NodeId,
    refused: Option<EditErr>,
) -> Result<String, AllocError>
    ensures { IfOk result (λ s. string_bytes s ≡ line_text (lines.Edited tree name node refused)) }
{
    let tree = tree.get();
    let name = name.name();
    let node = node.get();
    let end = edit_result(alloc, refused)?;
    format!(in alloc; "f{tree} {name} {node} {end}\n")
}

#[tactic(auto, unfolding(ax_run_rules::specs::LineText::line_text))]
fn touched_text(
    alloc: Global,
    tree: TreeId,
    below: bool,
    node: NodeId,
    refused: Option<MarkErr>,
) -> Result<String, AllocError>
    ensures { IfOk result (λ s. string_bytes s ≡ line_text (lines.Touched tree below node refused)) }
{
    let tree = tree.get();
    let name = touch_name(below);
    let node = node.get();
    let end = touch_result(alloc, refused)?;
    format!(in alloc; "f{tree} {name} {node} {end}\n")
}

#[tactic(auto, unfolding(ax_run_rules::specs::LineText::line_text))]
fn acted_text(
    alloc: Global,
    tree: TreeId,
    name: DoName,
    node: NodeId,
    out: ActNote,
) -> Result<String, AllocError>
    ensures { IfOk result (λ s. string_bytes s ≡ line_text (lines.Acted tree name node out)) }
{
    let tree = tree.get();
    let name = name.name();
    let node = node.get();
    let end = act_result(alloc, out)?;
    format!(in alloc; "p{tree} {name} {node} {end}\n")
}

#[tactic(auto, unfolding(ax_run_rules::specs::LineText::line_text))]
fn data_set_text(alloc: Global, tree: TreeId) -> Result<String, AllocError>
    ensures { IfOk result (λ s. string_bytes s ≡ line_text (lines.DataSet tree)) }
{
    let tree = tree.get();
    format!(in alloc; "f{tree} data ok\n")
}

#[tactic(auto, unfolding(ax_run_rules::specs::LineText::line_text))]
fn asked_text(alloc: Global, tree: TreeId, token: Option<Token>) -> Result<String, AllocError>
    ensures { IfOk result (λ s. string_bytes s ≡ line_text (lines.Asked tree token)) }
{
    let tree = tree.get();
    let end = token_text(alloc, token)?;
    format!(in alloc; "b ask {tree} {end}\n")
}

#[tactic(auto, unfolding(ax_run_rules::specs::LineText::line_text))]
fn destroyed_text(alloc: Global, tree: TreeId, gone: bool) -> Result<String, AllocError>
    ensures { IfOk result (λ s. string_bytes s ≡ line_text (lines.Destroyed tree gone)) }
{
    let tree = tree.get();
    let end = ok_or_gone(gone);
    format!(in alloc; "b destroy {tree} {end}\n")
}

#[tactic(auto, unfolding(ax_run_rules::specs::LineText::line_text))]
fn probed_text(alloc: Global, tree: TreeId, note: ProbeNote) -> Result<String, AllocError>
    ensures { IfOk result (λ s. string_bytes s ≡ line_text (lines.Probed tree note)) }
{
    let tree = tree.get();
    let end = probe_text(alloc, note)?;
    format!(in alloc; "b probe {tree} {end}\n")
}

#[tactic(auto, unfolding(ax_run_rules::specs::LineText::line_text))]
fn delivered_text(alloc: Global, tree: TreeId, token: Token) -> Result<String, AllocError>
    ensures { IfOk result (λ s. string_bytes s ≡ line_text (lines.Delivered tree token)) }
{
    let tree = tree.get();
    let token = token.0;
    format!(in alloc; "d{tree}:{token}\n")
}

#[tactic(auto, unfolding(ax_run_rules::specs::LineText::update_line), using(crate::proofs::BufferLemmas::begins))]
fn put_update(alloc: Global, update: &UpdateNote, out: &mut Bytes) -> Result<(), AllocError>
    ensures ok { OnOk result (out.new.items ≡ out.old.items ++ update_line update.now) }
    ensures err { OnErr result (Extends out.old.items out.new.items) }
{
    let clear = node_number(update.clear);
    let root = node_number(update.root);
    put(
        out,
        &format!(in alloc; "  u clear {clear} root {root} list ")?,
    )?;
    put_ids(alloc, update.nodes.as_slice(), out)?;
    put(out, data_text(update.with_data))?;
    put(out, "\n")
}

fn put_updates(alloc: Global, updates: &[UpdateNote], out: &mut Bytes) -> Result<(), AllocError>
    ensures ok { OnOk result (out.new.items ≡ out.old.items ++ flat_map update_line updates.now) }
    ensures err { OnErr result (Extends out.old.items out.new.items) }
{
    for update in updates {
        put_update(alloc, update, out)?;
    }
    Ok(())
}

#[tactic(auto, unfolding(ax_run_rules::specs::LineText::pass_text), using(crate::proofs::BufferLemmas::begins))]
fn put_pass(alloc: Global, note: &PassNote, out: &mut Bytes) -> Result<(), AllocError>
    ensures ok { OnOk result (out.new.items ≡ out.old.items ++ pass_text note.now) }
    ensures err { OnErr result (Extends out.old.items out.new.items) }
{
    match note {
        PassNote::Nothing => put(out, "nothing\n"),
        PassNote::Made(made) => {
            let pass = made.pass.0;
            let base = made.base.0;
            let token = made.token.0;
            put(
                out,
                &format!(in alloc; "{pass} base {base} token {token}\n")?,
            )?;
            put_updates(alloc, made.updates.as_slice(), out)?;
            Ok(())
        }
    }
}

#[tactic(auto, unfolding(ax_run_rules::specs::LineText::line_text), using(crate::proofs::BufferLemmas::begins))]
fn put_passed(
    alloc: Global,
    tree: TreeId,
    note: &PassNote,
    out: &mut Bytes,
) -> Result<(), AllocError>
    ensures ok { OnOk result (out.new.items ≡ out.old.items ++ line_text (lines.Passed tree note.now)) }
    ensures err { OnErr result (Extends out.old.items out.new.items) }
{
    let tree = tree.get();
    put(out, &format!(in alloc; "f{tree} pass ")?)?;
    put_pass(alloc, note, out)
}

fn event_node(alloc: Global, node: Option<NodeId>) -> Result<String, AllocError>
    ensures { IfOk result (λ s. string_bytes s ≡ event_node node) }
{
    match node {
        None => Ok(String::new(alloc)),
        Some(node) => {
            let node = node.get();
            format!(in alloc; ":{node}")
        }
    }
}

#[tactic(auto, unfolding(ax_run_rules::specs::LineText::event_line))]
fn event_text(alloc: Global, event: Event) -> Result<String, AllocError>
    ensures { IfOk result (λ s. string_bytes s ≡ event_line event) }
{
    let tree = event.tree.get();
    let node = event_node(alloc, event.node)?;
    let kind = event.kind.name();
    format!(in alloc; "  e {tree}{node} {kind}\n")
}

fn put_events(alloc: Global, events: &[Event], out: &mut Bytes) -> Result<(), AllocError>
    ensures ok { OnOk result (out.new.items ≡ out.old.items ++ flat_map event_line events.now) }
    ensures err { OnErr result (Extends out.old.items out.new.items) }
{
    for event in events {
        put(out, &event_text(alloc, *event)?)?;
    }
    Ok(())
}

#[tactic(auto, unfolding(ax_run_rules::specs::LineText::verdict_text), using(crate::proofs::BufferLemmas::begins))]
fn put_verdict(alloc: Global, verdict: &Verdict, out: &mut Bytes) -> Result<(), AllocError>
    ensures ok { OnOk result (out.new.items ≡ out.old.items ++ verdict_text verdict.now) }
    ensures err { OnErr result (Extends out.old.items out.new.items) }
{
    match verdict {
        Verdict::Applied { pass, events } => {
            put(out, &with_number(alloc, "applied", pass.0)?)?;
            put(out, "\n")?;
            put_events(alloc, events.as_slice(), out)
        }
        Verdict::Stale { had, want } => {
            put(out, &with_numbers(alloc, "stale", had.0, want.0)?)?;
            put(out, "\n")
        }
        Verdict::Gap { base, at } => {
            put(out, &with_numbers(alloc, "gap", base.0, at.0)?)?;
            put(out, "\n")
        }
        Verdict::Gone => put(out, "gone\n"),
    }
}

#[tactic(auto, unfolding(ax_run_rules::specs::LineText::line_text), using(crate::proofs::BufferLemmas::begins))]
fn put_received(
    alloc: Global,
    tree: TreeId,
    verdict: &Verdict,
    out: &mut Bytes,
) -> Result<(), AllocError>
    ensures ok { OnOk result (out.new.items ≡ out.old.items ++ line_text (lines.Received tree verdict.now)) }
    ensures err { OnErr result (Extends out.old.items out.new.items) }
{
    let tree = tree.get();
    put(out, &format!(in alloc; "a{tree} ")?)?;
    put_verdict(alloc, verdict, out)
}

#[tactic(auto, unfolding(ax_run_rules::specs::LineText::line_text), using(crate::proofs::BufferLemmas::begins))]
fn put_answered(
    alloc: Global,
    reader: usize,
    query: QueryName,
    reply: &Reply,
    out: &mut Bytes,
) -> Result<(), AllocError>
    ensures ok { OnOk result (out.new.items ≡ out.old.items ++ line_text (lines.Answered reader query reply.now)) }
    ensures err { OnErr result (Extends out.old.items out.new.items) }
{
    let query = query.name();
    put(out, &format!(in alloc; "r{reader} {query} = ")?)?;
    put_reply(alloc, reply, out)?;
    put(out, "\n")?;
    Ok(())
}

pub(crate) fn put_line(alloc: Global, line: &Line, out: &mut Bytes) -> Result<(), AllocError>
    ensures ok { OnOk result (out.new.items ≡ out.old.items ++ line_text line.now) }
    ensures err { OnErr result (Extends out.old.items out.new.items) }
{
    match line {
        Line::Edited {
            tree,
            name,
            node,
            refused,
        } => put(out, &edited_text(alloc, *tree, *name, *node, *refused)?),
        Line::DataSet { tree } => put(out, &data_set_text(alloc, *tree)?),
        Line::Touched {
            tree,
            below,
            node,
            refused,
        } => put(out, &touched_text(alloc, *tree, *below, *node, *refused)?),
        Line::Passed { tree, note } => put_passed(alloc, *tree, note, out),
        Line::Received { tree, verdict } => put_received(alloc, *tree, verdict, out),
        Line::Asked { tree, token } => put(out, &asked_text(alloc, *tree, *token)?),
        Line::Destroyed { tree, gone } => put(out, &destroyed_text(alloc, *tree, *gone)?),
        Line::Probed { tree, note } => put(out, &probed_text(alloc, *tree, *note)?),
        Line::Delivered { tree, token } => put(out, &delivered_text(alloc, *tree, *token)?),
        Line::Answered {
            reader,
            query,
            reply,
        } => put_answered(alloc, *reader, *query, reply, out),
        Line::Acted {
            tree,
            name,
            node,
            out: note,
        } => put(out, &acted_text(alloc, *tree, *name, *node, *note)?),
    }
}
