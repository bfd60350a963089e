//! A page of at most 64 values.
ghost use Rattle.std.specs.Prelude.{◌≡◌, ◌≤◌, ◌<◌, ◌+◌, ℕ, [], length, IfOk, OnOk, OnErr, IsTrue, IsSome, option_map, nat_eq, is_some, if◌then◌else◌, Some, None};
ghost use Rattle.std.specs.Option.{option_copied};
ghost use Rattle.std.specs.Arc.{arc_value};
ghost use Rattle.ax_pages.specs.Slots.{slot, used_count, one_if_some};

use crate::Steps;
use ax_base::NoMemory;
use std::alloc::Global;
use std::marker::Model;
use std::mem;
use std::sync::Arc;
use std::sync::ledger::Ledger;

/// At most 64 values by their place, each counted, and how many they are. A page is as long as the last place that was
/// ever filled.
#[derive(Drop)]
pub struct Page<T> {
    slots: Vec<Option<Arc<T>>>,
    used: usize,
}

impl<T> Model for Page<T> {
    ghost use Rattle.std.specs.Prelude.{◌≡◌, ◌≤◌, List, Option, length};
    ghost use Rattle.std.specs.Coded.{coded_list, coded_option};
    ghost use Rattle.ax_pages.specs.Slots.{values_in, used_count};

    ghost Value = { List (Option T) };

    ghost coded = { coded_list (coded_option T.code) };

    ghost view = { λ p. values_in p.slots.items };

    ghost invariant = { λ p. (length (values_in p.slots.items) ≤ 64) × (p.used ≡ used_count (values_in p.slots.items)) };
}

impl<T> Page<T> {
    pub fn new(alloc: Global) -> Page<T>
        ensures { result ≡ [] }
    {
        Page {
            slots: Vec::new(alloc),
            used: 0,
        }
    }

    pub fn get(&self, place: usize) -> Option<&T>
        ensures { option_copied result ≡ slot self.now place }
    {
        match self.slots.get(place) {
            Some(Some(value)) => Some(&**value),
            Some(None) => None,
            None => None,
        }
    }

    /// How many values there are.
    pub fn used(&self) -> usize
        ensures { result ≡ used_count self.now }
    {
        self.used
    }
}

impl<T: Drop> Page<T> {
    /// Makes the page at least this long.
    fn lengthen(&mut self, len: usize) -> Result<(), NoMemory>
        requires { len ≤ 64 }
        ensures slots { (j : ℕ) → slot self.new j ≡ slot self.old j }
        ensures used { used_count self.new ≡ used_count self.old }
        ensures ok { OnOk result (len ≤ length self.new) }
    {
        while self.slots.len() < len {
            if self.slots.push(None).is_err() {
                return Err(NoMemory);
            }
        }
        Ok(())
    }

    /// Puts a value at a place that the page reaches, or none. Answers what was there, and takes no memory.
    fn replace(&mut self, place: usize, value: Option<Arc<T>>) -> Option<Arc<T>>
        requires { place < length self.old }
        ensures was { option_map arc_value result ≡ slot self.old place }
        ensures slots { (j : ℕ) → slot self.new j ≡ (if nat_eq place j then option_map arc_value value else slot self.old j) }
        ensures used { used_count self.new + one_if_some (slot self.old place) ≡ used_count self.old + one_if_some (option_map arc_value value) }
        ensures len { length self.new ≡ length self.old }
    {
        self.used = count_after(self.used, self.slots[place].is_some(), value.is_some());
        mem::replace(&mut self.slots[place], value)
    }

    /// Puts a value at its place, or takes out what is there.
    pub fn set(&mut self, place: usize, value: Option<Arc<T>>) -> Result<(), NoMemory>
        requires { place < 64 }
        ensures ok { OnOk result ((j : ℕ) → slot self.new j ≡ (if nat_eq place j then option_map arc_value value else slot self.old j)) }
        ensures used { OnOk result (used_count self.new + one_if_some (slot self.old place) ≡ used_count self.old + one_if_some (option_map arc_value value)) }
        ensures err { OnErr result ((j : ℕ) → slot self.new j ≡ slot self.old j) }
        ensures err_used { OnErr result (used_count self.new ≡ used_count self.old) }
    {
        self.lengthen(place + 1)?;
        let _ = self.replace(place, value);
        Ok(())
    }

    /// Takes out the value at a place, so that it can be changed and put back.
    pub fn take(&mut self, place: usize) -> Option<Arc<T>>
        ensures was { option_map arc_value result ≡ slot self.old place }
        ensures none { result ≡ None → self.new ≡ self.old }
        ensures slots { IsSome result → (j : ℕ) → slot self.new j ≡ (if nat_eq place j then None else slot self.old j) }
        ensures used { IsSome result → used_count self.new + 1 ≡ used_count self.old }
        ensures room { IsSome result → place < length self.new }
    {
        if self.get(place).is_none() {
            return None;
        }
        self.replace(place, None)
    }

    /// Puts back a value at the place from which one was taken. It takes no memory.
    pub fn put_back(&mut self, place: usize, value: Arc<T>)
        requires room { place < length self.old }
        requires free { slot self.old place ≡ None }
        ensures slots { (j : ℕ) → slot self.new j ≡ (if nat_eq place j then Some (arc_value value) else slot self.old j) }
        ensures used { used_count self.new ≡ used_count self.old + 1 }
    {
        let _ = self.replace(place, Some(value));
    }
}

/// How many values there are after one place changed, from none or one value to none or one.
fn count_after(used: usize, had: bool, has: bool) -> usize
    requires few { used ≤ 64 }
    requires counted { IsTrue had → 0 < used }
    ensures { result + (if had then 1 else 0) ≡ used + (if has then 1 else 0) }
{
    match (had, has) {
        (true, false) => used - 1,
        (false, true) => used + 1,
        _ => used,
    }
}

impl<T: Drop> Page<T> {
    /// The same values, of which each has one more owner then. It takes a step, whatever comes of it.
    pub fn copy<L: Ledger>(&self, alloc: Global, steps: &mut Steps<L>) -> Result<Page<T>, NoMemory>
        ensures same { IfOk result (λ p. p ≡ self.now) }
        ensures cost { steps.new ≡ steps.old + 1 }
    {
        steps.tick();
        self.duplicate(alloc)
    }

    /// The same as `copy`, without a step.
    pub fn duplicate(&self, alloc: Global) -> Result<Page<T>, NoMemory>
        ensures { IfOk result (λ p. p ≡ self.now) }
    {
        let mut slots = Vec::new(alloc);
        for value in &self.slots {
            let value = match value {
                Some(value) => match Arc::try_clone(value) {
                    Ok(value) => Some(value),
                    Err(_) => return Err(NoMemory),
                },
                None => None,
            };
            if slots.push(value).is_err() {
                return Err(NoMemory);
            }
        }
        Ok(Page {
            slots,
            used: self.used,
        })
    }
}
