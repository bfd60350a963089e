//! What a node has, and what is known of a whole tree.
ghost use Rattle.std.specs.Prelude.{◌≡◌, ◌++◌, IfOk, OnOk, OnErr, codes, string_bytes};
ghost use Rattle.std.specs.List.{flat_map};
ghost use Rattle.ax_node.specs.Look.{look_of, blank_area};
ghost use Rattle.ax_rules.specs.Looks.{same_area};
ghost use Rattle.ax_run_rules.specs.Writing.{◌⌢◌, area_text};
ghost use Rattle.ax_run_rules.specs.Dump.{end_text, tree_line, value_text, state_text, attr_text, look_text};
ghost use Rattle.ax_report.specs.Buffers.{Extends};
ghost use Rattle.ax_report.specs.Walks.{area_part, trees_part, focus_part, ends_part};

use crate::Bytes;
use crate::names::yes_no;
use crate::put::{put, put_quoted};
use crate::results::{node_number, tree_number};
use ax_attrs::{Key, State};
use ax_base::{NodeId, Rect};
use ax_node::{NodeData, TreeData, Value};
use std::alloc::{AllocError, Global};

fn end_text(alloc: Global, end: Option<(NodeId, u32)>) -> Result<String, AllocError>
    ensures { IfOk result (λ s. string_bytes s ≡ end_text end) }
{
    match end {
        None => String::from_str(alloc, "0 0"),
        Some((node, offset)) => {
            let node = node.get();
            format!(in alloc; "{node} {offset}")
        }
    }
}

/// The trees that tree data name.
#[tactic(auto, unfolding(crate::specs::Walks::trees_part))]
fn trees_part(alloc: Global, about: &TreeData) -> Result<String, AllocError>
    ensures { IfOk result (λ s. string_bytes s ≡ trees_part about.now) }
{
    let tree = about.tree.get();
    let parent = tree_number(about.parent);
    let focused = tree_number(about.focused);
    format!(in alloc; "tree {tree} parent {parent} focused {focused}")
}

#[tactic(auto, unfolding(crate::specs::Walks::focus_part))]
fn focus_part(alloc: Global, about: &TreeData) -> Result<String, AllocError>
    ensures { IfOk result (λ s. string_bytes s ≡ focus_part about.now) }
{
    let loaded = yes_no(about.loaded);
    let focus = node_number(about.focus);
    format!(in alloc; " loaded {loaded} focus {focus}")
}

/// The ends of the selection.
#[tactic(auto, unfolding(crate::specs::Walks::ends_part))]
fn ends_part(alloc: Global, about: &TreeData) -> Result<String, AllocError>
    ensures { IfOk result (λ s. string_bytes s ≡ ends_part about.now) }
{
    let anchor = end_text(alloc, about.anchor)?;
    let end = end_text(alloc, about.end)?;
    format!(in alloc; " sel {anchor} {end} title ")
}

/// The line of a tree's data.
#[tactic(auto, using(crate::proofs::BufferLemmas::begins, crate::proofs::WalkLemmas::tree_line_is))]
pub(crate) fn put_tree_line(
    alloc: Global,
    about: &TreeData,
    out: &mut Bytes,
) -> Result<(), AllocError>
    ensures ok { OnOk result (out.new.items ≡ out.old.items ++ tree_line about.now) }
    ensures err { OnErr result (Extends out.old.items out.new.items) }
{
    put(out, &trees_part(alloc, about)?)?;
    put(out, &focus_part(alloc, about)?)?;
    put(out, &ends_part(alloc, about)?)?;
    put_quoted(alloc, &about.title, out)?;
    put(out, " url ")?;
    put_quoted(alloc, &about.url, out)?;
    put(out, "\n")?;
    Ok(())
}

fn put_value(alloc: Global, value: &Value, out: &mut Bytes) -> Result<(), AllocError>
    ensures ok { OnOk result (out.new.items ≡ out.old.items ++ value_text value.now) }
    ensures err { OnErr result (Extends out.old.items out.new.items) }
{
    match value {
        Value::Text(text) => put_quoted(alloc, text, out),
        Value::Int(number) => put(out, &format!(in alloc; "{number}")?),
        Value::Flag(flag) => put(out, yes_no(*flag)),
        Value::Node(node) => {
            let node = node.get();
            put(out, &format!(in alloc; "{node}")?)
        }
        Value::Tree(tree) => {
            let tree = tree.get();
            put(out, &format!(in alloc; "{tree}")?)
        }
    }
}

#[tactic(auto, unfolding(ax_run_rules::specs::Dump::attr_text), using(crate::proofs::BufferLemmas::begins))]
fn put_attr(alloc: Global, attr: &(Key, Value), out: &mut Bytes) -> Result<(), AllocError>
    ensures ok { OnOk result (out.new.items ≡ out.old.items ++ attr_text attr.now) }
    ensures err { OnErr result (Extends out.old.items out.new.items) }
{
    let name = attr.0.name();
    put(out, &format!(in alloc; " {name}=")?)?;
    put_value(alloc, &attr.1, out)?;
    Ok(())
}

fn put_attrs(alloc: Global, attrs: &[(Key, Value)], out: &mut Bytes) -> Result<(), AllocError>
    ensures ok { OnOk result (out.new.items ≡ out.old.items ++ flat_map attr_text attrs.now) }
    ensures err { OnErr result (Extends out.old.items out.new.items) }
{
    for attr in attrs {
        put_attr(alloc, attr, out)?;
    }
    Ok(())
}

#[tactic(auto, unfolding(ax_run_rules::specs::Dump::state_text), using(crate::proofs::BufferLemmas::begins))]
fn put_state(state: State, out: &mut Bytes) -> Result<(), AllocError>
    ensures ok { OnOk result (out.new.items ≡ out.old.items ++ state_text state) }
    ensures err { OnErr result (Extends out.old.items out.new.items) }
{
    put(out, " +")?;
    put(out, state.name())
}

fn put_states(states: &[State], out: &mut Bytes) -> Result<(), AllocError>
    ensures ok { OnOk result (out.new.items ≡ out.old.items ++ flat_map state_text states.now) }
    ensures err { OnErr result (Extends out.old.items out.new.items) }
{
    for state in states {
        put_state(*state, out)?;
    }
    Ok(())
}

#[tactic(auto, using(crate::proofs::AreaLemmas::areas))]
fn is_blank(rect: &Rect) -> bool
    ensures { result ≡ same_area rect.now blank_area }
{
    rect.same(&Rect::blank())
}

#[tactic(auto, unfolding(ax_run_rules::specs::Writing::area_text))]
fn rect_text(alloc: Global, rect: &Rect) -> Result<String, AllocError>
    ensures { IfOk result (λ s. string_bytes s ≡ area_text rect.now.x rect.now.y rect.now.w rect.now.h) }
{
    let x = rect.x();
    let y = rect.y();
    let w = rect.w();
    let h = rect.h();
    format!(in alloc; "[{x},{y},{w},{h}]")
}

fn shown_area(alloc: Global, rect: &Rect) -> Result<String, AllocError>
    ensures { IfOk result (λ s. string_bytes s ≡ codes " " ⌢ area_text rect.now.x rect.now.y rect.now.w rect.now.h) }
{
    let area = rect_text(alloc, rect)?;
    format!(in alloc; " {area}")
}

#[tactic(auto, unfolding(crate::specs::Walks::area_part))]
fn area_part(alloc: Global, rect: &Rect) -> Result<String, AllocError>
    ensures { IfOk result (λ s. string_bytes s ≡ area_part rect.now) }
{
    if is_blank(rect) {
        return Ok(String::new(alloc));
    }
    let text = shown_area(alloc, rect)?;
    Ok(text)
}

/// The rectangle where it isn't blank, the states and the attributes.
#[tactic(auto, unfolding(ax_run_rules::specs::Dump::look_text, crate::specs::Walks::area_part), using(crate::proofs::BufferLemmas::begins))]
pub(crate) fn put_look(alloc: Global, node: &NodeData, out: &mut Bytes) -> Result<(), AllocError>
    ensures ok { OnOk result (out.new.items ≡ out.old.items ++ look_text (look_of node.now)) }
    ensures err { OnErr result (Extends out.old.items out.new.items) }
{
    put(out, &area_part(alloc, &node.rect)?)?;
    put_states(node.states.as_slice(), out)?;
    put_attrs(alloc, node.attrs.as_slice(), out)?;
    Ok(())
}
