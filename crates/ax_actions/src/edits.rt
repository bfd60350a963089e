//! The edits that actions make.
ghost use Rattle.std.specs.Prelude.{◌≡◌, ◌∷◌, [], IfOk};
ghost use Rattle.ax_node.specs.declared.value.Value.TheVariants as values;
ghost use Rattle.ax_rules.specs.Rows.{value_key};
ghost use Rattle.ax_run_rules.specs.Actions.{change, attrs_edit, focus_edit, scroll_edit};

use ax_attrs::Key;
use ax_base::{NoMemory, NodeId, Rect, Text};
use ax_node::Value;
use ax_tree::{AttrChange, AttrChanges, Edit, SetNode, SetTree};
use std::alloc::Global;

/// The node gets the focus.
pub(crate) fn focus_edit(node: NodeId) -> Edit
    ensures { result ≡ focus_edit node }
{
    Edit::Tree(SetTree {
        parent: None,
        focused: None,
        loaded: None,
        focus: Some(Some(node)),
        anchor: None,
        end: None,
        title: None,
        url: None,
    })
}

/// The node gets these attributes.
fn attrs_edit(node: NodeId, attrs: AttrChanges) -> Edit
    ensures { result ≡ attrs_edit node attrs }
{
    Edit::Set(SetNode {
        node,
        role: None,
        states: None,
        attrs,
        rect: None,
    })
}

fn change(key: Key, value: Value) -> AttrChange
    ensures { result ≡ change key value }
{
    AttrChange {
        key,
        value: Some(value),
    }
}

/// The node gets this value.
pub(crate) fn value_edit(alloc: Global, node: NodeId, text: &Text) -> Result<Edit, NoMemory>
    ensures { IfOk result (λ e. e ≡ attrs_edit node (change value_key (values.Text text.now) ∷ [])) }
{
    let mut attrs = AttrChanges::new(alloc);
    attrs.push(change(Key::VALUE, Value::Text(text.copy()?)))?;
    Ok(attrs_edit(node, attrs))
}

/// The container scrolls to this corner.
pub(crate) fn scroll_edit(alloc: Global, corner: &Rect, container: NodeId) -> Result<Edit, NoMemory>
    ensures { IfOk result (λ e. e ≡ scroll_edit corner.now container) }
{
    let mut attrs = AttrChanges::new(alloc);
    attrs.push(change(Key::SCROLL_X, Value::Int(corner.x())))?;
    attrs.push(change(Key::SCROLL_Y, Value::Int(corner.y())))?;
    Ok(attrs_edit(container, attrs))
}
