//! The operations of the browser.
ghost use Rattle.std.specs.Prelude.{◌≡◌, Result, option_map};
ghost use Rattle.serde_json.specs.Data.{Data};
ghost use Rattle.serde_json.specs.View.{view};
ghost use Rattle.ax_json.specs.Refused.{Refusal, Gives};
ghost use Rattle.ax_script.specs.Browser.{ask_op, browser_as, browser_op, destroy_op, known_tree, probe_op};
ghost use Rattle.ax_script.specs.Trees.{knows};

use crate::trees::is_known;
use ax_ask::{BrowserOp, BrowserOpName, TimedOp};
use ax_attrs::Version;
use ax_base::TreeId;
use ax_forms::{UpdateForm, after_of};
use ax_json::{Fault, Form, Tree, WalkErr, fields3, fields4, in_member, refuse, required, tag};
use serde_json::Value;
use std::alloc::Global;
use std::collections::BTreeSet;

/// The member `tree`, which a frame has to have.
#[tactic(auto, unfolding(crate::specs::Browser::known_tree))]
pub(crate) fn known_tree(
    alloc: Global,
    trees: &BTreeSet<u32>,
    found: Option<Value>,
) -> Result<TreeId, WalkErr>
    ensures { Gives (λ x. x) result (known_tree (knows trees.now) (option_map view found)) }
{
    let tree = required(alloc, &Tree, "tree", found)?;
    if is_known(trees, tree) {
        Ok(tree)
    } else {
        Err(in_member(alloc, "tree", refuse(alloc, Fault::BadNumber)))
    }
}

#[tactic(auto, unfolding(crate::specs::Browser::ask_op))]
fn ask_op(alloc: Global, trees: &BTreeSet<u32>, v: Value) -> Result<TimedOp, WalkErr>
    ensures { Gives (λ x. x) result (ask_op (knows trees.now) (view v)) }
{
    let (_, tree, after) = fields3(alloc, v, "op", "tree", "after")?;
    let tree = known_tree(alloc, trees, tree)?;
    let after = after_of(alloc, after)?;
    Ok(TimedOp {
        after,
        op: BrowserOp::Ask(tree),
    })
}

#[tactic(auto, unfolding(crate::specs::Browser::destroy_op))]
fn destroy_op(alloc: Global, trees: &BTreeSet<u32>, v: Value) -> Result<TimedOp, WalkErr>
    ensures { Gives (λ x. x) result (destroy_op (knows trees.now) (view v)) }
{
    let (_, tree, after) = fields3(alloc, v, "op", "tree", "after")?;
    let tree = known_tree(alloc, trees, tree)?;
    let after = after_of(alloc, after)?;
    Ok(TimedOp {
        after,
        op: BrowserOp::Destroy(tree),
    })
}

#[tactic(auto, unfolding(crate::specs::Browser::probe_op))]
fn probe_op(
    alloc: Global,
    version: Version,
    trees: &BTreeSet<u32>,
    v: Value,
) -> Result<TimedOp, WalkErr>
    ensures { Gives (λ x. x) result (probe_op version (knows trees.now) (view v)) }
{
    let (_, tree, after, update) = fields4(alloc, v, "op", "tree", "after", "update")?;
    let tree = known_tree(alloc, trees, tree)?;
    let after = after_of(alloc, after)?;
    let update = required(alloc, &UpdateForm { version, tree }, "update", update)?;
    Ok(TimedOp {
        after,
        op: BrowserOp::Probe(tree, update),
    })
}

/// An operation of the browser, at one of these trees.
#[derive(Clone, Copy)]
pub(crate) struct BrowserForm<'a> {
    pub version: Version,
    pub trees: &'a BTreeSet<u32>,
}

impl Form for BrowserForm<'_> {
    type Item = TimedOp;

    ghost reads = { λ f. browser_op f.version (knows f.trees.now) };

    #[tactic(auto, unfolding(crate::specs::Browser::browser_op), using(crate::proofs::Steps::under_gives))]
    fn read(&self, alloc: Global, v: Value) -> Result<TimedOp, WalkErr> {
        let name = tag(alloc, &v, "op")?;
        let Some(which) = BrowserOpName::named(name) else {
            return Err(in_member(alloc, "op", refuse(alloc, Fault::BadName)));
        };
        browser_as(alloc, self.version, self.trees, which, v)
    }
}

#[tactic(auto, unfolding(crate::specs::Browser::browser_as))]
fn browser_as(
    alloc: Global,
    version: Version,
    trees: &BTreeSet<u32>,
    which: BrowserOpName,
    v: Value,
) -> Result<TimedOp, WalkErr>
    ensures { Gives (λ x. x) result (browser_as version (knows trees.now) which (view v)) }
{
    match which {
        BrowserOpName::Ask => ask_op(alloc, trees, v),
        BrowserOpName::Destroy => destroy_op(alloc, trees, v),
        BrowserOpName::Probe => probe_op(alloc, version, trees, v),
    }
}
