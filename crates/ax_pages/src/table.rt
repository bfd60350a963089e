//! The table of blocks.
ghost use Rattle.std.specs.Prelude.{◌≡◌, ◌≤◌, ◌<◌, ◌+◌, ◌/◌, ◌%◌, ℕ, IfOk, OnOk, OnErr, IsSome, nat_eq, true, false, if◌then◌else◌, Some, None};
ghost use Rattle.std.specs.Option.{option_copied, ForSome};
ghost use Rattle.std.specs.Arc.{arc_value};
ghost use Rattle.std.specs.Ordering.{nat_cmp};
ghost use Rattle.std.specs.FinMap as map;
ghost use Rattle.std.specs.HashMap.{get};
ghost use Rattle.ax_pages.specs.Table.{value_at, value_in, Puts, PutsIn, IsSame, IsSameIn, EachIsUsed, PagesAreUsed, IsLast};
ghost use Rattle.ax_pages.specs.Slots.{used_count};

use crate::Steps;
use crate::block::{
    Block, Change, found_in, is_last, make_own, make_own_in, page_of, put_in, take_from,
};
use crate::page::Page;
use ax_base::{NoMemory, NodeId};
use std::alloc::Global;
use std::collections::HashMap;
use std::marker::Model;
use std::sync::Arc;
use std::sync::ledger::Ledger;

/// Blocks by their number. Neither a block nor a page is empty, and there is no table before the first value.
#[derive(Drop)]
pub struct Table<T> {
    blocks: Option<Arc<HashMap<u32, Arc<Block<T>>>>>,
    alloc: Global,
}

impl<T> Model for Table<T> {
    ghost use Rattle.std.specs.Ordering.{nat_cmp};
    ghost use Rattle.std.specs.FinMap as map;
    ghost use Rattle.std.specs.Coded.{coded_ℕ};
    ghost use Rattle.ax_pages.specs.Table.{held, AllUsed};

    ghost Value = { map.FinMap nat_cmp T };

    ghost coded = { map.code coded_ℕ T.code };

    ghost view = { λ t. held t.blocks };

    ghost invariant = { λ t. AllUsed t.blocks };
}

impl<T> Table<T> {
    pub fn new(alloc: Global) -> Table<T>
        ensures { result ≡ map.empty }
    {
        Table {
            blocks: None,
            alloc,
        }
    }

    pub fn allocator(&self) -> Global {
        self.alloc
    }

    pub fn read(&self, id: NodeId) -> Option<&T>
        ensures { option_copied result ≡ map.get self.now id }
    {
        match &self.blocks {
            Some(blocks) => found(blocks, id.get()),
            None => None,
        }
    }

    pub fn share(&self) -> Result<Table<T>, NoMemory>
        ensures { IfOk result (λ t. t ≡ self.now) }
    {
        match &self.blocks {
            Some(blocks) => match Arc::try_clone(blocks) {
                Ok(blocks) => Ok(Table {
                    blocks: Some(blocks),
                    alloc: self.alloc,
                }),
                Err(_) => Err(NoMemory),
            },
            None => Ok(Table {
                blocks: None,
                alloc: self.alloc,
            }),
        }
    }
}

impl<T: Drop> Table<T> {
    pub fn write<L: Ledger>(
        &mut self,
        id: NodeId,
        value: T,
        steps: &mut Steps<L>,
    ) -> Result<(), NoMemory>
        ensures ok { OnOk result (self.new ≡ map.insert self.old id value) }
        ensures err { OnErr result (self.new ≡ self.old) }
        ensures cost { steps.new ≤ steps.old + 1 }
    {
        let value = match Arc::new(self.alloc, value) {
            Ok(value) => value,
            Err(_) => return Err(NoMemory),
        };
        match &mut self.blocks {
            Some(blocks) => put_in_shared(blocks, id.get(), value, self.alloc, steps),
            None => {
                let mut blocks = HashMap::new(self.alloc);
                put_in_blocks(&mut blocks, id.get(), value, self.alloc)?;
                match Arc::new(self.alloc, blocks) {
                    Ok(blocks) => {
                        self.blocks = Some(blocks);
                        Ok(())
                    }
                    Err(_) => Err(NoMemory),
                }
            }
        }
    }

    pub fn erase<L: Ledger>(&mut self, id: NodeId, steps: &mut Steps<L>) -> Result<(), NoMemory>
        requires { IsSome (map.get self.old id) }
        ensures ok { OnOk result (self.new ≡ map.remove self.old id) }
        ensures err { OnErr result (self.new ≡ self.old) }
        ensures cost { steps.new ≤ steps.old + 1 }
    {
        match &mut self.blocks {
            Some(blocks) => return take_from_shared(blocks, id.get(), self.alloc, steps),
            None => {}
        }
        Ok(())
    }

    /// Takes no step. It answers want of memory where the table, the block or the page has other owners.
    pub fn write_own(&mut self, id: NodeId, value: T) -> Result<(), NoMemory>
        ensures ok { OnOk result (self.new ≡ map.insert self.old id value) }
        ensures err { OnErr result (self.new ≡ self.old) }
    {
        let value = match Arc::new(self.alloc, value) {
            Ok(value) => value,
            Err(_) => return Err(NoMemory),
        };
        match &mut self.blocks {
            Some(blocks) => put_in_own(blocks, id.get(), value, self.alloc),
            None => {
                let mut blocks = HashMap::new(self.alloc);
                put_in_blocks(&mut blocks, id.get(), value, self.alloc)?;
                match Arc::new(self.alloc, blocks) {
                    Ok(blocks) => {
                        self.blocks = Some(blocks);
                        Ok(())
                    }
                    Err(_) => Err(NoMemory),
                }
            }
        }
    }

    /// Takes no step. It answers want of memory where the table, the block or the page has other owners.
    pub fn erase_own(&mut self, id: NodeId) -> Result<(), NoMemory>
        requires { IsSome (map.get self.old id) }
        ensures ok { OnOk result (self.new ≡ map.remove self.old id) }
        ensures err { OnErr result (self.new ≡ self.old) }
    {
        match &mut self.blocks {
            Some(blocks) => return take_from_own(blocks, id.get()),
            None => {}
        }
        Ok(())
    }
}

fn found<T>(blocks: &HashMap<u32, Arc<Block<T>>>, id: u32) -> Option<&T>
    ensures { option_copied result ≡ value_at blocks.now id }
{
    match blocks.get(&block_of(id)) {
        Some(block) => found_in(block, id),
        None => None,
    }
}

/// The number of the block of an id.
fn block_of(id: u32) -> u32
    ensures { result ≡ id / 64 / 64 }
{
    page_of(page_of(id))
}

/// Puts a value where table, block and page may have other owners. They are copied first then.
fn put_in_shared<T: Drop, L: Ledger>(
    blocks: &mut Arc<HashMap<u32, Arc<Block<T>>>>,
    id: u32,
    value: Arc<T>,
    alloc: Global,
    steps: &mut Steps<L>,
) -> Result<(), NoMemory>
    requires { EachIsUsed (arc_value blocks.old) }
    ensures ok { OnOk result (Puts (arc_value blocks.old) (arc_value blocks.new) id (Some (arc_value value))) }
    ensures err { OnErr result (IsSame (arc_value blocks.old) (arc_value blocks.new)) }
    ensures used { EachIsUsed (arc_value blocks.new) }
    ensures cost { steps.new ≤ steps.old + 1 }
{
    make_own_path(blocks, id, Change::Put, alloc, steps)?;
    put_in_own(blocks, id, value, alloc)
}

/// Takes out a value where table, block and page may have other owners. Those of them that stay are copied first then.
fn take_from_shared<T: Drop, L: Ledger>(
    blocks: &mut Arc<HashMap<u32, Arc<Block<T>>>>,
    id: u32,
    alloc: Global,
    steps: &mut Steps<L>,
) -> Result<(), NoMemory>
    requires there { IsSome (value_at (arc_value blocks.old) id) }
    requires used { EachIsUsed (arc_value blocks.old) }
    ensures ok { OnOk result (Puts (arc_value blocks.old) (arc_value blocks.new) id None) }
    ensures err { OnErr result (IsSame (arc_value blocks.old) (arc_value blocks.new)) }
    ensures used { EachIsUsed (arc_value blocks.new) }
    ensures cost { steps.new ≤ steps.old + 1 }
{
    make_own_path(blocks, id, Change::Take, alloc, steps)?;
    take_from_own(blocks, id)
}

/// Leaves this as the only owner of the table, and of the block and the page of an id, so far as they are there and stay.
fn make_own_path<T: Drop, L: Ledger>(
    blocks: &mut Arc<HashMap<u32, Arc<Block<T>>>>,
    id: u32,
    change: Change,
    alloc: Global,
    steps: &mut Steps<L>,
) -> Result<(), NoMemory>
    requires { EachIsUsed (arc_value blocks.old) }
    ensures same { IsSame (arc_value blocks.old) (arc_value blocks.new) }
    ensures used { EachIsUsed (arc_value blocks.new) }
    ensures cost { steps.new ≤ steps.old + 1 }
{
    make_own_table(blocks, alloc)?;
    if let Some(blocks) = Arc::get_mut(blocks) {
        return make_own_in_table(blocks, id, change, alloc, steps);
    }
    Ok(())
}

/// Leaves the table as the only owner of the block and of the page of an id, so far as they are there and stay.
fn make_own_in_table<T: Drop, L: Ledger>(
    blocks: &mut HashMap<u32, Arc<Block<T>>>,
    id: u32,
    change: Change,
    alloc: Global,
    steps: &mut Steps<L>,
) -> Result<(), NoMemory>
    requires { EachIsUsed blocks.old }
    ensures same { IsSame blocks.old blocks.new }
    ensures used { EachIsUsed blocks.new }
    ensures cost { steps.new ≤ steps.old + 1 }
{
    if let Some(block) = blocks.get_mut(&block_of(id)) {
        return make_own_block(block, id, change, alloc, steps);
    }
    Ok(())
}

/// Leaves this as the only owner of the table.
fn make_own_table<T: Drop>(
    blocks: &mut Arc<HashMap<u32, Arc<Block<T>>>>,
    alloc: Global,
) -> Result<(), NoMemory>
    requires { EachIsUsed (arc_value blocks.old) }
    ensures same { IsSame (arc_value blocks.old) (arc_value blocks.new) }
    ensures used { EachIsUsed (arc_value blocks.new) }
{
    if let Some(_) = Arc::get_mut(blocks) {
        return Ok(());
    }
    let copy = copy_of(blocks)?;
    match Arc::new(alloc, copy) {
        Ok(copy) => {
            *blocks = copy;
            Ok(())
        }
        Err(_) => Err(NoMemory),
    }
}

/// Leaves this as the only owner of the block and of the page of an id, so far as they are there and stay.
fn make_own_block<T: Drop, L: Ledger>(
    block: &mut Arc<Block<T>>,
    id: u32,
    change: Change,
    alloc: Global,
    steps: &mut Steps<L>,
) -> Result<(), NoMemory>
    requires { PagesAreUsed (arc_value block.old) }
    ensures same { IsSameIn (arc_value block.old) (arc_value block.new) }
    ensures pages { PagesAreUsed (arc_value block.new) }
    ensures used { used_count (arc_value block.new) ≡ used_count (arc_value block.old) }
    ensures cost { steps.new ≤ steps.old + 1 }
{
    if matches!(change, Change::Take) && is_last(block, id) {
        return Ok(());
    }
    make_own(block, alloc)?;
    if let Some(block) = Arc::get_mut(block) {
        return make_own_in(block, id, change, alloc, steps);
    }
    Ok(())
}

/// A table of the same blocks, which have one more owner each then.
fn copy_of<T: Drop>(
    blocks: &HashMap<u32, Arc<Block<T>>>,
) -> Result<HashMap<u32, Arc<Block<T>>>, NoMemory>
    requires { EachIsUsed blocks.now }
    ensures same { IfOk result (λ n. IsSame blocks.now n) }
    ensures used { IfOk result (λ n. EachIsUsed n) }
{
    match blocks.clone() {
        Ok(copy) => Ok(copy),
        Err(_) => Err(NoMemory),
    }
}

/// Puts a value where neither the table nor the block nor the page has another owner.
fn put_in_own<T: Drop>(
    blocks: &mut Arc<HashMap<u32, Arc<Block<T>>>>,
    id: u32,
    value: Arc<T>,
    alloc: Global,
) -> Result<(), NoMemory>
    requires { EachIsUsed (arc_value blocks.old) }
    ensures ok { OnOk result (Puts (arc_value blocks.old) (arc_value blocks.new) id (Some (arc_value value))) }
    ensures err { OnErr result (IsSame (arc_value blocks.old) (arc_value blocks.new)) }
    ensures used { EachIsUsed (arc_value blocks.new) }
{
    if let Some(blocks) = Arc::get_mut(blocks) {
        return put_in_blocks(blocks, id, value, alloc);
    }
    Err(NoMemory)
}

fn put_in_blocks<T: Drop>(
    blocks: &mut HashMap<u32, Arc<Block<T>>>,
    id: u32,
    value: Arc<T>,
    alloc: Global,
) -> Result<(), NoMemory>
    requires { EachIsUsed blocks.old }
    ensures ok { OnOk result (Puts blocks.old blocks.new id (Some (arc_value value))) }
    ensures err { OnErr result (IsSame blocks.old blocks.new) }
    ensures used { EachIsUsed blocks.new }
{
    if let Some(block) = blocks.get_mut(&block_of(id)) {
        return put_in_block(block, id, value, alloc);
    }
    put_in_new_block(blocks, id, value, alloc)
}

/// Puts a value where neither the block nor the page has another owner.
fn put_in_block<T: Drop>(
    block: &mut Arc<Block<T>>,
    id: u32,
    value: Arc<T>,
    alloc: Global,
) -> Result<(), NoMemory>
    requires { PagesAreUsed (arc_value block.old) }
    ensures ok { OnOk result (PutsIn (arc_value block.old) (arc_value block.new) id (Some (arc_value value))) }
    ensures err { OnErr result (IsSameIn (arc_value block.old) (arc_value block.new)) }
    ensures pages { PagesAreUsed (arc_value block.new) }
    ensures used { used_count (arc_value block.old) ≤ used_count (arc_value block.new) }
{
    if let Some(block) = Arc::get_mut(block) {
        return put_in(block, id, value, alloc);
    }
    Err(NoMemory)
}

/// Puts a value in a block of its own, where its block isn't there.
fn put_in_new_block<T: Drop>(
    blocks: &mut HashMap<u32, Arc<Block<T>>>,
    id: u32,
    value: Arc<T>,
    alloc: Global,
) -> Result<(), NoMemory>
    requires new { get nat_eq blocks.old (id / 64 / 64) ≡ None }
    requires used { EachIsUsed blocks.old }
    ensures ok { OnOk result (Puts blocks.old blocks.new id (Some (arc_value value))) }
    ensures err { OnErr result (IsSame blocks.old blocks.new) }
    ensures used { EachIsUsed blocks.new }
{
    let mut block = Page::new(alloc);
    put_in(&mut block, id, value, alloc)?;
    let block = match Arc::new(alloc, block) {
        Ok(block) => block,
        Err(_) => return Err(NoMemory),
    };
    match blocks.insert(block_of(id), block) {
        Ok(_) => Ok(()),
        Err(_) => Err(NoMemory),
    }
}

/// Takes out a value where neither the table nor, so far as they stay, the block and the page have another owner.
fn take_from_own<T: Drop>(
    blocks: &mut Arc<HashMap<u32, Arc<Block<T>>>>,
    id: u32,
) -> Result<(), NoMemory>
    requires there { IsSome (value_at (arc_value blocks.old) id) }
    requires used { EachIsUsed (arc_value blocks.old) }
    ensures ok { OnOk result (Puts (arc_value blocks.old) (arc_value blocks.new) id None) }
    ensures err { OnErr result (IsSame (arc_value blocks.old) (arc_value blocks.new)) }
    ensures used { EachIsUsed (arc_value blocks.new) }
{
    if let Some(blocks) = Arc::get_mut(blocks) {
        return take_from_blocks(blocks, id);
    }
    Err(NoMemory)
}

/// Takes out a value. A block goes with its last value, so that it needn't be the only owner's.
fn take_from_blocks<T: Drop>(
    blocks: &mut HashMap<u32, Arc<Block<T>>>,
    id: u32,
) -> Result<(), NoMemory>
    requires there { IsSome (value_at blocks.old id) }
    requires used { EachIsUsed blocks.old }
    ensures ok { OnOk result (Puts blocks.old blocks.new id None) }
    ensures err { OnErr result (IsSame blocks.old blocks.new) }
    ensures used { EachIsUsed blocks.new }
{
    if has_last(blocks, id) {
        let _ = blocks.remove(&block_of(id));
        return Ok(());
    }
    if let Some(block) = blocks.get_mut(&block_of(id)) {
        return take_from_block(block, id);
    }
    Ok(())
}

/// Whether the block of an id is there and has a single value.
fn has_last<T>(blocks: &HashMap<u32, Arc<Block<T>>>, id: u32) -> bool
    ensures yes { result ≡ true → ForSome (get nat_eq blocks.now (id / 64 / 64)) (λ a. IsLast (arc_value a) id) }
    ensures no { result ≡ false → ForSome (get nat_eq blocks.now (id / 64 / 64)) (λ a. IsLast (arc_value a) id → ⊥) }
{
    match blocks.get(&block_of(id)) {
        Some(block) => is_last(block, id),
        None => false,
    }
}

/// Takes out a value where others of its block stay, and neither the block nor, if it stays, the page has another owner.
fn take_from_block<T: Drop>(block: &mut Arc<Block<T>>, id: u32) -> Result<(), NoMemory>
    requires there { IsSome (value_in (arc_value block.old) id) }
    requires pages { PagesAreUsed (arc_value block.old) }
    requires used { 0 < used_count (arc_value block.old) }
    requires more { IsLast (arc_value block.old) id → ⊥ }
    ensures ok { OnOk result (PutsIn (arc_value block.old) (arc_value block.new) id None) }
    ensures err { OnErr result (IsSameIn (arc_value block.old) (arc_value block.new)) }
    ensures pages { PagesAreUsed (arc_value block.new) }
    ensures used { 0 < used_count (arc_value block.new) }
{
    if let Some(block) = Arc::get_mut(block) {
        return take_from(block, id);
    }
    Err(NoMemory)
}
