//! Numbers of places.
ghost use Rattle.std.specs.Prelude.{◌≡◌, ℕ, ◌<◌, ◌+◌, ◌^◌, Some, length, nat_eq, if◌then◌else◌, IfOk, OnOk};
ghost use Rattle.std.specs.HashMap.{get};
ghost use Rattle.ax_rules.specs.StitchedTree.{place_number};
ghost use Rattle.ax_rules.specs.Combined.{number_of};
ghost use Rattle.ax_report.specs.Combining.{place_of_number};
ghost use Rattle.ax_combine.specs.Numbering.{AreNumbers};

use ax_base::{NoMemory, NodeId, Place, Places};
use std::alloc::Global;
use std::collections::HashMap;
use std::marker::Model;

/// Places with their numbers, from 1. It is seen as the list of the places.
#[derive(Drop)]
pub(crate) struct Numbering {
    places: Places,
    numbers: HashMap<u64, NodeId>,
}

impl Model for Numbering {
    ghost use Rattle.std.specs.Prelude.{◌<◌, ◌^◌, List, length, nat_eq};
    ghost use Rattle.std.specs.Coded.{coded_list};
    ghost use Rattle.std.specs.HashMap.{get};
    ghost use Rattle.ax_base.specs.declared.position.Place.{Place as Spot};
    ghost use Rattle.ax_combine.specs.Numbering.{coded_place, AreNumbers};

    ghost Value = { List Spot };

    ghost coded = { coded_list coded_place };

    ghost view = { λ n. n.places };

    ghost invariant = { λ n. AreNumbers (get nat_eq n.numbers) n.places × (length n.places < 2 ^ 31) };
}

/// One number for a place.
fn key_of(p: &Place) -> u64
    ensures key { result ≡ place_number p.now }
    ensures small { p.now.node < 2147483648 }
{
    u64::from(p.tree.get()) * 2147483648 + u64::from(p.node.get())
}

/// The number of the place at an index.
pub(crate) fn number_at(at: usize) -> NodeId
    requires { at + 1 < 2 ^ 31 }
    ensures { result ≡ at + 1 }
{
    NodeId::new(at as u32 + 1).unwrap()
}

/// Gives the place the number of an index.
fn put_number(numbers: &mut HashMap<u64, NodeId>, p: &Place, at: usize) -> Result<(), NoMemory>
    requires { at + 1 < 2 ^ 31 }
    ensures put { OnOk result ((z : ℕ) → get nat_eq numbers.new z ≡ (if nat_eq (place_number p.now) z then Some (at + 1) else get nat_eq numbers.old z)) }
    ensures small { p.now.node < 2147483648 }
{
    match numbers.insert(key_of(p), number_at(at)) {
        Ok(_) => Ok(()),
        Err(_) => Err(NoMemory),
    }
}

/// The number of each place. From the end, so that a place that stood twice would have its first number.
fn numbers_of(alloc: Global, places: &[Place]) -> Result<HashMap<u64, NodeId>, NoMemory>
    requires { length places.now < 2 ^ 31 }
    ensures { IfOk result (λ numbers. AreNumbers (get nat_eq numbers) places.now) }
{
    let mut numbers = HashMap::new(alloc);
    let mut left = places.len();
    while left > 0 {
        left -= 1;
        put_number(&mut numbers, &places[left], left)?;
    }
    Ok(numbers)
}

impl Numbering {
    /// Numbers the places. It costs the places.
    pub fn new(alloc: Global, places: Places) -> Result<Numbering, NoMemory>
        requires { length places < 2 ^ 31 }
        ensures { IfOk result (λ n. n ≡ places) }
    {
        let numbers = numbers_of(alloc, places.as_slice())?;
        Ok(Numbering { places, numbers })
    }

    /// How many places there are.
    pub fn len(&self) -> usize
        ensures len { result ≡ length self.now }
        ensures few { length self.now < 2 ^ 31 }
    {
        self.places.len()
    }

    /// The place of a number; none above the last.
    pub fn place(&self, id: NodeId) -> Option<Place>
        ensures { result ≡ place_of_number self.now id }
    {
        match self.places.get(id.get() as usize - 1) {
            Some(p) => Some(*p),
            None => None,
        }
    }

    /// The number of a place; none where it isn't one of them.
    pub fn number(&self, p: &Place) -> Option<NodeId>
        ensures { result ≡ number_of self.now p.now }
    {
        match self.numbers.get(&key_of(p)) {
            Some(number) => Some(*number),
            None => None,
        }
    }
}
