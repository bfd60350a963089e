//! Ways to read a value.
ghost use Rattle.std.specs.Prelude.{Result};
ghost use Rattle.serde_json.specs.Data.{Data};
ghost use Rattle.serde_json.specs.View.{view};
ghost use Rattle.ax_json.specs.Refused.{Refusal, Gives};
ghost use Rattle.ax_json.specs.Walk.{flag_of, int_of, node_id, node_or_none, number_in, text_of, tree_id, tree_or_none};

use crate::{WalkErr, value};
use ax_base::{NodeId, Text, TreeId};
use serde_json::Value;
use std::alloc::Global;

/// A way to read a value. `reads` says what it gives.
pub trait Form {
    /// What is read.
    type Item: Drop;

    ghost reads: { Self → Data → Result Self.Item Refusal };

    fn read(&self, alloc: Global, v: Value) -> Result<Self::Item, WalkErr>
        ensures { Gives (λ x. x) result (reads self.now (view v)) };
}

/// A whole number from `low` to `high`.
#[derive(Clone, Copy)]
pub struct Whole {
    pub low: u64,
    pub high: u64,
}

impl Form for Whole {
    type Item = u64;

    ghost reads = { λ f. number_in f.low f.high };

    fn read(&self, alloc: Global, v: Value) -> Result<u64, WalkErr> {
        value::number_in(alloc, &v, self.low, self.high)
    }
}

/// A whole number of 32 bits with a sign.
#[derive(Clone, Copy)]
pub struct Signed;

impl Form for Signed {
    type Item = i32;

    ghost reads = { λ _. int_of };

    fn read(&self, alloc: Global, v: Value) -> Result<i32, WalkErr> {
        value::int_of(alloc, &v)
    }
}

/// The id of a node.
#[derive(Clone, Copy)]
pub struct Node;

impl Form for Node {
    type Item = NodeId;

    ghost reads = { λ _. node_id };

    fn read(&self, alloc: Global, v: Value) -> Result<NodeId, WalkErr> {
        value::node_id(alloc, &v)
    }
}

/// The id of a tree.
#[derive(Clone, Copy)]
pub struct Tree;

impl Form for Tree {
    type Item = TreeId;

    ghost reads = { λ _. tree_id };

    fn read(&self, alloc: Global, v: Value) -> Result<TreeId, WalkErr> {
        value::tree_id(alloc, &v)
    }
}

/// The id of a node, or 0 for none.
#[derive(Clone, Copy)]
pub struct NodeOrNone;

impl Form for NodeOrNone {
    type Item = Option<NodeId>;

    ghost reads = { λ _. node_or_none };

    fn read(&self, alloc: Global, v: Value) -> Result<Option<NodeId>, WalkErr> {
        value::node_or_none(alloc, &v)
    }
}

/// The id of a tree, or 0 for none.
#[derive(Clone, Copy)]
pub struct TreeOrNone;

impl Form for TreeOrNone {
    type Item = Option<TreeId>;

    ghost reads = { λ _. tree_or_none };

    fn read(&self, alloc: Global, v: Value) -> Result<Option<TreeId>, WalkErr> {
        value::tree_or_none(alloc, &v)
    }
}

#[derive(Clone, Copy)]
pub struct Flag;

impl Form for Flag {
    type Item = bool;

    ghost reads = { λ _. flag_of };

    fn read(&self, alloc: Global, v: Value) -> Result<bool, WalkErr> {
        value::flag_of(alloc, &v)
    }
}

/// A text.
#[derive(Clone, Copy)]
pub struct Words;

impl Form for Words {
    type Item = Text;

    ghost reads = { λ _. text_of };

    fn read(&self, alloc: Global, v: Value) -> Result<Text, WalkErr> {
        value::text_of(alloc, &v)
    }
}
