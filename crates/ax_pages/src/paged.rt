//! The finite map over pages.
ghost use Rattle.std.specs.Prelude.{◌≡◌, ◌≤◌, ◌+◌, IfOk, OnOk, OnErr, if◌then◌else◌};
ghost use Rattle.std.specs.Option.{option_copied};
ghost use Rattle.std.specs.FinMap as map;

use crate::Steps;
use crate::table::Table;
use ax_base::{NoMemory, NodeId};
use std::alloc::Global;
use std::marker::Model;
use std::sync::ledger::Ledger;

/// A finite map from node ids to values, whose pages may have other owners. After want of memory it is unchanged.
#[derive(Drop)]
pub struct Paged<T> {
    table: Table<T>,
    len: usize,
}

impl<T> Model for Paged<T> {
    ghost use Rattle.std.specs.Prelude.{◌≡◌};
    ghost use Rattle.std.specs.Ordering.{nat_cmp};
    ghost use Rattle.std.specs.FinMap as map;
    ghost use Rattle.std.specs.Coded.{coded_ℕ};

    ghost Value = { map.FinMap nat_cmp T };

    ghost coded = { map.code coded_ℕ T.code };

    ghost view = { λ p. p.table };

    ghost invariant = { λ p. p.len ≡ map.len p.table };
}

impl<T> Paged<T> {
    /// The empty map. It takes no memory before the first value.
    pub fn new(alloc: Global) -> Paged<T>
        ensures { result ≡ map.empty }
    {
        Paged {
            table: Table::new(alloc),
            len: 0,
        }
    }

    pub fn allocator(&self) -> Global {
        self.table.allocator()
    }

    /// How many ids have a value, in constant time.
    pub fn len(&self) -> usize
        ensures { result ≡ map.len self.now }
    {
        self.len
    }

    /// The value at an id, in constant time.
    pub fn read(&self, id: NodeId) -> Option<&T>
        ensures { option_copied result ≡ map.get self.now id }
    {
        self.table.read(id)
    }

    /// The same map, in constant time and without memory: want of memory would be a count of owners that is full.
    pub fn share(&self) -> Result<Paged<T>, NoMemory>
        ensures { IfOk result (λ p. p ≡ self.now) }
    {
        let table = self.table.share()?;
        Ok(Paged {
            table,
            len: self.len,
        })
    }

    /// How many ids have a value once this one has. A number that passes the last `usize` couldn't be kept.
    fn len_with(&self, id: NodeId) -> Result<usize, NoMemory>
        ensures { IfOk result (λ n. n ≡ (if map.contains_key self.now id then map.len self.now else map.len self.now + 1)) }
    {
        if self.table.read(id).is_some() {
            return Ok(self.len);
        }
        match self.len.checked_add(1) {
            Some(len) => Ok(len),
            None => Err(NoMemory),
        }
    }
}

impl<T: Drop> Paged<T> {
    /// Puts a value at an id, in constant time where this is the only owner. Behind a share the first write copies the
    /// table, which has a count for each 4,096 ids, the first write to a block copies its at most 64 counts, and the first
    /// write to a page copies that page, which takes a step.
    pub fn write<L: Ledger>(
        &mut self,
        id: NodeId,
        value: T,
        steps: &mut Steps<L>,
    ) -> Result<(), NoMemory>
        ensures ok { OnOk result (self.new ≡ map.insert self.old id value) }
        ensures err { OnErr result (self.new ≡ self.old) }
        ensures cost { steps.new ≤ steps.old + 1 }
    {
        let len = self.len_with(id)?;
        self.table.write(id, value, steps)?;
        self.len = len;
        Ok(())
    }

    /// Puts a value at an id that this owner has written or erased since its last share, so that the page is its own. It
    /// copies nothing and takes no step: where the page has other owners after all, it answers want of memory.
    pub fn write_own(&mut self, id: NodeId, value: T) -> Result<(), NoMemory>
        ensures ok { OnOk result (self.new ≡ map.insert self.old id value) }
        ensures err { OnErr result (self.new ≡ self.old) }
    {
        let len = self.len_with(id)?;
        self.table.write_own(id, value)?;
        self.len = len;
        Ok(())
    }

    /// Takes out the value at an id, at the cost of a write. A page or block whose last value goes is freed, without being
    /// copied, and an id that has none changes and copies nothing.
    pub fn erase<L: Ledger>(&mut self, id: NodeId, steps: &mut Steps<L>) -> Result<(), NoMemory>
        ensures ok { OnOk result (self.new ≡ map.remove self.old id) }
        ensures err { OnErr result (self.new ≡ self.old) }
        ensures cost { steps.new ≤ steps.old + 1 }
    {
        if self.table.read(id).is_none() {
            return Ok(());
        }
        self.table.erase(id, steps)?;
        self.len -= 1;
        Ok(())
    }

    /// Takes out the value at an id that this owner has written since its last share, like `write_own`.
    pub fn erase_own(&mut self, id: NodeId) -> Result<(), NoMemory>
        ensures ok { OnOk result (self.new ≡ map.remove self.old id) }
        ensures err { OnErr result (self.new ≡ self.old) }
    {
        if self.table.read(id).is_none() {
            return Ok(());
        }
        self.table.erase_own(id)?;
        self.len -= 1;
        Ok(())
    }
}
