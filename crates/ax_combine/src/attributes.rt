//! Attributes of the combined tree.
ghost use Rattle.std.specs.Prelude.{◌≡◌, IfOk, OnOk, option_map};
ghost use Rattle.std.specs.List.{filter_map};
ghost use Rattle.ax_rules.specs.Combined.{numbered, numbered_attr};
ghost use Rattle.ax_combine.specs.Numbering.{with_value};

use crate::numbering::Numbering;
use ax_attrs::Key;
use ax_base::{NoMemory, Place, TreeId};
use ax_node::{AttrList, Value};
use std::alloc::Global;

/// A value of a node of a tree: a node's number where it is one of the places, and no tree.
fn numbered(value: &Value, tree: TreeId, numbering: &Numbering) -> Result<Option<Value>, NoMemory>
    ensures { IfOk result (λ v. v ≡ numbered numbering.now tree value.now) }
{
    match value {
        Value::Node(node) => {
            let node = *node;
            match numbering.number(&Place { tree, node }) {
                Some(number) => Ok(Some(Value::Node(number))),
                None => Ok(None),
            }
        }
        Value::Tree(_) => Ok(None),
        Value::Text(_) | Value::Int(_) | Value::Flag(_) => Ok(Some(value.copy()?)),
    }
}

/// Gives the key the value, if there is one.
fn set_some(out: &mut AttrList, key: Key, value: Option<Value>) -> Result<(), NoMemory>
    ensures { OnOk result (out.new ≡ with_value key value out.old) }
{
    match value {
        // The value is of the key's kind, as it was.
        Some(value) => match out.set(key, value) {
            Ok(()) => Ok(()),
            Err(_) => Err(NoMemory),
        },
        None => Ok(()),
    }
}

/// Attributes of a node of a tree, with numbers for nodes.
pub(crate) fn numbered_attrs(
    alloc: Global,
    attrs: &AttrList,
    tree: TreeId,
    numbering: &Numbering,
) -> Result<AttrList, NoMemory>
    ensures { IfOk result (λ a. a ≡ filter_map (numbered_attr numbering.now tree) attrs.now) }
{
    let mut out = AttrList::new(alloc);
    let entries = attrs.as_slice();
    for entry in entries {
        let value = numbered(&entry.1, tree, numbering)?;
        set_some(&mut out, entry.0, value)?;
    }
    Ok(out)
}
