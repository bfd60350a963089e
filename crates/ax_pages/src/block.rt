//! A block of at most 64 pages.
ghost use Rattle.std.specs.Prelude.{◌≡◌, ◌≤◌, ◌<◌, ◌+◌, ◌/◌, ◌%◌, ℕ, IfOk, OnOk, OnErr, IsSome, option_map, nat_eq, true, false, if◌then◌else◌, Some, None};
ghost use Rattle.std.specs.Option.{option_copied, ForSome};
ghost use Rattle.std.specs.Arc.{arc_value};
ghost use Rattle.ax_pages.specs.Table.{value_in, PutsIn, IsSameIn, PagesAreUsed, IsLast};
ghost use Rattle.ax_pages.specs.Slots.{slot, used_count, one_if_some};

use crate::Steps;
use crate::page::Page;
use ax_base::NoMemory;
use std::alloc::Global;
use std::sync::Arc;
use std::sync::ledger::Ledger;

/// At most 64 pages by their place. A page has the 64 ids from a multiple of 64 on, and a block the pages whose numbers
/// are the 64 from a multiple of 64 on.
pub type Block<T> = Page<Page<T>>;

/// What is to be done at an id.
#[derive(Clone, Copy, Drop)]
pub enum Change {
    Put,
    Take,
}

/// The number of the page of an id, or of the block of a page.
pub fn page_of(id: u32) -> u32
    ensures { result ≡ id / 64 }
{
    id / 64
}

/// The place of an id in its page, or of a page in its block.
pub fn place_of(id: u32) -> usize
    ensures place { result ≡ id % 64 }
    ensures below { result < 64 }
{
    (id % 64) as usize
}

pub fn found_in<T>(block: &Block<T>, id: u32) -> Option<&T>
    ensures { option_copied result ≡ value_in block.now id }
{
    match block.get(place_of(page_of(id))) {
        Some(page) => page.get(place_of(id)),
        None => None,
    }
}

/// Whether the page of an id is the only one of its block, and has a single value.
pub fn is_last<T>(block: &Block<T>, id: u32) -> bool
    ensures yes { result ≡ true → IsLast block.now id }
    ensures no { result ≡ false → IsLast block.now id → ⊥ }
{
    if block.used() != 1 {
        return false;
    }
    match block.get(place_of(page_of(id))) {
        Some(page) => page.used() == 1,
        None => false,
    }
}

/// Leaves this as the only owner of a page of values or of pages. One with other owners is copied.
pub fn make_own<T: Drop>(page: &mut Arc<Page<T>>, alloc: Global) -> Result<(), NoMemory>
    ensures { arc_value page.new ≡ arc_value page.old }
{
    // No clause says that an `Arc` has no other owner; only `get_mut` tells.
    if let Some(_) = Arc::get_mut(page) {
        return Ok(());
    }
    let copy = page.duplicate(alloc)?;
    match Arc::new(alloc, copy) {
        Ok(copy) => {
            *page = copy;
            Ok(())
        }
        Err(_) => Err(NoMemory),
    }
}

/// Like `make_own`, where a copy takes a step. A page that goes with its last value isn't copied for that.
fn make_own_for<T: Drop, L: Ledger>(
    page: &mut Arc<Page<T>>,
    change: Change,
    alloc: Global,
    steps: &mut Steps<L>,
) -> Result<(), NoMemory>
    ensures same { arc_value page.new ≡ arc_value page.old }
    ensures cost { steps.new ≤ steps.old + 1 }
{
    if matches!(change, Change::Take) && page.used() == 1 {
        return Ok(());
    }
    if let Some(_) = Arc::get_mut(page) {
        return Ok(());
    }
    let copy = page.copy(alloc, steps)?;
    match Arc::new(alloc, copy) {
        Ok(copy) => {
            *page = copy;
            Ok(())
        }
        Err(_) => Err(NoMemory),
    }
}

/// Leaves the block as the only owner of the page of an id, if it has that page.
pub fn make_own_in<T: Drop, L: Ledger>(
    block: &mut Block<T>,
    id: u32,
    change: Change,
    alloc: Global,
    steps: &mut Steps<L>,
) -> Result<(), NoMemory>
    requires { PagesAreUsed block.old }
    ensures same { IsSameIn block.old block.new }
    ensures pages { PagesAreUsed block.new }
    ensures used { used_count block.new ≡ used_count block.old }
    ensures cost { steps.new ≤ steps.old + 1 }
{
    let place = place_of(page_of(id));
    match block.take(place) {
        Some(mut page) => {
            let done = make_own_for(&mut page, change, alloc, steps);
            block.put_back(place, page);
            done
        }
        None => Ok(()),
    }
}

/// Puts a value at its place in a page that has no other owner, or takes out what is there.
fn set_in_own_page<T: Drop>(
    page: &mut Arc<Page<T>>,
    place: usize,
    value: Option<Arc<T>>,
) -> Result<(), NoMemory>
    requires { place < 64 }
    ensures ok { OnOk result ((j : ℕ) → slot (arc_value page.new) j ≡ (if nat_eq place j then option_map arc_value value else slot (arc_value page.old) j)) }
    ensures used { OnOk result (used_count (arc_value page.new) + one_if_some (slot (arc_value page.old) place) ≡ used_count (arc_value page.old) + one_if_some (option_map arc_value value)) }
    ensures err { OnErr result ((j : ℕ) → slot (arc_value page.new) j ≡ slot (arc_value page.old) j) }
    ensures err_used { OnErr result (used_count (arc_value page.new) ≡ used_count (arc_value page.old)) }
{
    if let Some(page) = Arc::get_mut(page) {
        return page.set(place, value);
    }
    Err(NoMemory)
}

/// Puts a value in a block whose page has no other owner.
pub fn put_in<T: Drop>(
    block: &mut Block<T>,
    id: u32,
    value: Arc<T>,
    alloc: Global,
) -> Result<(), NoMemory>
    requires { PagesAreUsed block.old }
    ensures ok { OnOk result (PutsIn block.old block.new id (Some (arc_value value))) }
    ensures err { OnErr result (IsSameIn block.old block.new) }
    ensures pages { PagesAreUsed block.new }
    ensures used { used_count block.old ≤ used_count block.new }
    ensures some { OnOk result (0 < used_count block.new) }
{
    let place = place_of(page_of(id));
    match block.take(place) {
        Some(mut page) => {
            let done = set_in_own_page(&mut page, place_of(id), Some(value));
            block.put_back(place, page);
            done
        }
        None => put_in_new_page(block, id, value, alloc),
    }
}

/// Puts a value in a page of its own, where its page isn't there.
fn put_in_new_page<T: Drop>(
    block: &mut Block<T>,
    id: u32,
    value: Arc<T>,
    alloc: Global,
) -> Result<(), NoMemory>
    requires new { slot block.old (id / 64 % 64) ≡ None }
    requires pages { PagesAreUsed block.old }
    ensures ok { OnOk result (PutsIn block.old block.new id (Some (arc_value value))) }
    ensures err { OnErr result (IsSameIn block.old block.new) }
    ensures pages { PagesAreUsed block.new }
    ensures used { used_count block.old ≤ used_count block.new }
    ensures some { OnOk result (0 < used_count block.new) }
{
    let mut page = Page::new(alloc);
    page.set(place_of(id), Some(value))?;
    match Arc::new(alloc, page) {
        Ok(page) => block.set(place_of(page_of(id)), Some(page)),
        Err(_) => Err(NoMemory),
    }
}

/// Takes out a value of a block whose page has no other owner, where others stay. A page goes with its last value.
pub fn take_from<T: Drop>(block: &mut Block<T>, id: u32) -> Result<(), NoMemory>
    requires there { IsSome (value_in block.old id) }
    requires pages { PagesAreUsed block.old }
    requires used { 0 < used_count block.old }
    requires more { IsLast block.old id → ⊥ }
    ensures ok { OnOk result (PutsIn block.old block.new id None) }
    ensures err { OnErr result (IsSameIn block.old block.new) }
    ensures pages { PagesAreUsed block.new }
    ensures used { 0 < used_count block.new }
{
    let place = place_of(page_of(id));
    match block.take(place) {
        Some(mut page) => {
            if page.used() == 1 {
                return Ok(());
            }
            let done = set_in_own_page(&mut page, place_of(id), None);
            block.put_back(place, page);
            done
        }
        None => Ok(()),
    }
}
