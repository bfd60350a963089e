//! Values by tree.
ghost use Rattle.std.specs.Prelude.{◌≡◌, IfOk, OnOk, OnErr};
ghost use Rattle.std.specs.Option.{option_copied};
ghost use Rattle.std.specs.FinMap as map;

use crate::by_node::ByNode;
use ax_base::{NoMemory, NodeId, TreeId};
use std::alloc::Global;
use std::marker::Model;

/// A finite map from the ids of trees to values. There are at most 1,000 of them, on 16 pages: that is what a change behind a
/// share copies at most, beside one page of 64 values.
#[derive(Drop)]
pub struct ByTree<T> {
    values: ByNode<T>,
}

impl<T> Model for ByTree<T> {
    ghost use Rattle.std.specs.Ordering.{nat_cmp};
    ghost use Rattle.std.specs.FinMap as map;
    ghost use Rattle.std.specs.Coded.{coded_ℕ};

    ghost Value = { map.FinMap nat_cmp T };

    ghost coded = { map.code coded_ℕ T.code };

    ghost view = { λ b. b.values };
}

/// The node id of the same number.
fn same_number(t: TreeId) -> NodeId
    ensures { result ≡ t }
{
    match NodeId::new(t.get()) {
        Some(id) => id,
        None => unreachable!(),
    }
}

impl<T> ByTree<T> {
    /// The empty map.
    pub fn new(alloc: Global) -> ByTree<T>
        ensures { result ≡ map.empty }
    {
        ByTree {
            values: ByNode::new(alloc),
        }
    }

    pub fn get(&self, t: TreeId) -> Option<&T>
        ensures { option_copied result ≡ map.get self.now t }
    {
        self.values.get(same_number(t))
    }

    /// The same map, in constant time. Want of memory would be a count of owners that is full.
    pub fn share(&self) -> Result<ByTree<T>, NoMemory>
        ensures { IfOk result (λ b. b ≡ self.now) }
    {
        let values = self.values.share()?;
        Ok(ByTree { values })
    }
}

impl<T: Drop> ByTree<T> {
    /// Puts the value of a tree.
    pub fn put(&mut self, t: TreeId, value: T) -> Result<(), NoMemory>
        ensures ok { OnOk result (self.new ≡ map.insert self.old t value) }
        ensures err { OnErr result (self.new ≡ self.old) }
    {
        self.values.put(same_number(t), value)
    }

    /// Takes out the value of a tree, if it has one.
    pub fn take(&mut self, t: TreeId) -> Result<(), NoMemory>
        ensures ok { OnOk result (self.new ≡ map.remove self.old t) }
        ensures err { OnErr result (self.new ≡ self.old) }
    {
        self.values.take(same_number(t))
    }
}
