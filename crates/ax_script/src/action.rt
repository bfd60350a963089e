//! Actions.
ghost use Rattle.std.specs.Prelude.{◌≡◌, Result};
ghost use Rattle.serde_json.specs.Data.{Data};
ghost use Rattle.serde_json.specs.View.{view};
ghost use Rattle.ax_json.specs.Refused.{Refusal, Gives};
ghost use Rattle.ax_script.specs.Browser.{action_as, action_of, place_acted, set_value};
ghost use Rattle.ax_script.specs.Trees.{knows};

use crate::browser::known_tree;
use ax_ask::{Action, DoName, What};
use ax_base::Place;
use ax_json::{
    Fault, Form, Node, WalkErr, Words, fields3, fields4, in_member, refuse, required, tag,
};
use serde_json::Value;
use std::alloc::Global;
use std::collections::BTreeSet;

/// Where an action that says no more is done.
#[tactic(auto, unfolding(crate::specs::Browser::place_acted))]
fn place_acted(alloc: Global, trees: &BTreeSet<u32>, v: Value) -> Result<Place, WalkErr>
    ensures { Gives (λ x. x) result (place_acted (knows trees.now) (view v)) }
{
    let (_, tree, node) = fields3(alloc, v, "do", "tree", "node")?;
    let tree = known_tree(alloc, trees, tree)?;
    let node = required(alloc, &Node, "node", node)?;
    Ok(Place { tree, node })
}

#[tactic(auto, unfolding(crate::specs::Browser::set_value))]
fn set_value(alloc: Global, trees: &BTreeSet<u32>, v: Value) -> Result<Action, WalkErr>
    ensures { Gives (λ x. x) result (set_value (knows trees.now) (view v)) }
{
    let (_, tree, node, value) = fields4(alloc, v, "do", "tree", "node", "value")?;
    let tree = known_tree(alloc, trees, tree)?;
    let node = required(alloc, &Node, "node", node)?;
    let value = required(alloc, &Words, "value", value)?;
    Ok(Action {
        tree,
        node,
        what: What::SetValue(value),
    })
}

#[tactic(auto, unfolding(crate::specs::Browser::action_as))]
fn action_as(
    alloc: Global,
    trees: &BTreeSet<u32>,
    which: DoName,
    v: Value,
) -> Result<Action, WalkErr>
    ensures { Gives (λ x. x) result (action_as (knows trees.now) which (view v)) }
{
    match which {
        DoName::Focus => {
            let Place { tree, node } = place_acted(alloc, trees, v)?;
            Ok(Action {
                tree,
                node,
                what: What::Focus,
            })
        }
        DoName::SetValue => set_value(alloc, trees, v),
        DoName::Scroll => {
            let Place { tree, node } = place_acted(alloc, trees, v)?;
            Ok(Action {
                tree,
                node,
                what: What::Scroll,
            })
        }
    }
}

/// An action, at one of these trees.
#[derive(Clone, Copy)]
pub(crate) struct ActionForm<'a> {
    pub trees: &'a BTreeSet<u32>,
}

impl Form for ActionForm<'_> {
    type Item = Action;

    ghost reads = { λ f. action_of (knows f.trees.now) };

    #[tactic(auto, unfolding(crate::specs::Browser::action_of), using(crate::proofs::Steps::under_gives))]
    fn read(&self, alloc: Global, v: Value) -> Result<Action, WalkErr> {
        let name = tag(alloc, &v, "do")?;
        let Some(which) = DoName::named(name) else {
            return Err(in_member(alloc, "do", refuse(alloc, Fault::BadName)));
        };
        action_as(alloc, self.trees, which, v)
    }
}
