//! Values by node.
ghost use Rattle.std.specs.Prelude.{◌≡◌, ◌<◌, IfOk, OnOk, OnErr};
ghost use Rattle.std.specs.Option.{option_copied};
ghost use Rattle.std.specs.FinMap as map;

use ax_base::{NoMemory, NodeId};
use ax_pages::{Paged, Steps};
use std::alloc::Global;
use std::marker::{Brand, Model};
use std::sync::ledger::{Blank, Ledger};

/// A finite map from node ids to values.
#[derive(Drop)]
pub struct ByNode<T> {
    values: Paged<T>,
}

impl<T> Model for ByNode<T> {
    ghost use Rattle.std.specs.Ordering.{nat_cmp};
    ghost use Rattle.std.specs.FinMap as map;
    ghost use Rattle.std.specs.Coded.{coded_ℕ};

    ghost Value = { map.FinMap nat_cmp T };

    ghost coded = { map.code coded_ℕ T.code };

    ghost view = { λ b. b.values };
}

impl<T> ByNode<T> {
    /// The empty map.
    pub fn new(alloc: Global) -> ByNode<T>
        ensures { result ≡ map.empty }
    {
        ByNode {
            values: Paged::new(alloc),
        }
    }

    pub fn get(&self, id: NodeId) -> Option<&T>
        ensures { option_copied result ≡ map.get self.now id }
    {
        self.values.read(id)
    }

    /// The same map, in constant time. Want of memory would be a count of owners that is full.
    pub fn share(&self) -> Result<ByNode<T>, NoMemory>
        ensures { IfOk result (λ b. b ≡ self.now) }
    {
        let values = self.values.share()?;
        Ok(ByNode { values })
    }
}

impl<T: Drop> ByNode<T> {
    /// Puts the value of an id.
    pub fn put(&mut self, id: NodeId, value: T) -> Result<(), NoMemory>
        ensures ok { OnOk result (self.new ≡ map.insert self.old id value) }
        ensures err { OnErr result (self.new ≡ self.old) }
    {
        self.put_counted::<Brand>(id, value, Blank::new(1))
    }

    fn put_counted<L: Ledger>(&mut self, id: NodeId, value: T, blank: Blank) -> Result<(), NoMemory>
        requires { (blank.name ≡ L.name) × (blank.parts ≡ L.parts) × (0 < L.parts) }
        ensures ok { OnOk result (self.new ≡ map.insert self.old id value) }
        ensures err { OnErr result (self.new ≡ self.old) }
    {
        let mut steps: Steps<L> = Steps::start(blank);
        self.values.write(id, value, &mut steps)
    }

    /// Takes out the value of an id, if it has one.
    pub fn take(&mut self, id: NodeId) -> Result<(), NoMemory>
        ensures ok { OnOk result (self.new ≡ map.remove self.old id) }
        ensures err { OnErr result (self.new ≡ self.old) }
    {
        self.take_counted::<Brand>(id, Blank::new(1))
    }

    fn take_counted<L: Ledger>(&mut self, id: NodeId, blank: Blank) -> Result<(), NoMemory>
        requires { (blank.name ≡ L.name) × (blank.parts ≡ L.parts) × (0 < L.parts) }
        ensures ok { OnOk result (self.new ≡ map.remove self.old id) }
        ensures err { OnErr result (self.new ≡ self.old) }
    {
        let mut steps: Steps<L> = Steps::start(blank);
        self.values.erase(id, &mut steps)
    }
}
