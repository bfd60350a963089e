//! The list of marks.
ghost use Rattle.std.specs.Prelude.{◌≡◌, ◌≢◌, ◌<◌, ◌≤◌, ◌++◌, ◌∷◌, ℕ, [], map, length, slice_get, nat_eq, Some, None, is_some, not, true, IsTrue, ◌↔◌, IfOk, OnOk, OnErr, if◌then◌else◌, vec_len};
ghost use Rattle.std.specs.Vec.{vec_capacity};
ghost use Rattle.indexmap.specs.IndexMap.{get, index_map_len};
ghost use Rattle.ax_marks.specs.Holes.{somes, ArePlaced};
ghost use Rattle.ax_marks.specs.MarkList.{has, added, without, are_distinct};

use ax_base::{NoMemory, NodeId};
use indexmap::IndexMap;
use std::alloc::Global;
use std::marker::Model;

// Shorter orders keep their holes.
const LONG: usize = 64;

/// The nodes that a frame has to send: an ordered list of ids without repeats. Each call costs constant time, taken over
/// all calls, and the memory is that of the most ids that were in it since it last shrank to half.
#[derive(Drop)]
pub struct Marks {
    // Where each id stands in `order`.
    places: IndexMap<NodeId, usize>,
    // The ids in order, with a hole where one was removed.
    order: Vec<Option<NodeId>>,
    // Where the first id stands.
    front: usize,
}

impl Model for Marks {
    ghost use Rattle.std.specs.Prelude.{List, ℕ, nat_eq};
    ghost use Rattle.indexmap.specs.IndexMap.{get, index_map_len};
    ghost use Rattle.ax_marks.specs.Holes.{somes, IsKept};

    ghost Value = { List ℕ };

    ghost view = { λ m. somes m.order.items };

    ghost invariant = { λ m. IsKept m.order.items (λ id. get nat_eq m.places id) m.front (index_map_len m.places) };
}

impl Marks {
    pub fn new(alloc: Global) -> Marks
        ensures { result ≡ [] }
    {
        Marks {
            places: IndexMap::new(alloc),
            order: Vec::new(alloc),
            front: 0,
        }
    }

    pub fn len(&self) -> usize
        ensures len { result ≡ length self.now }
        ensures distinct { are_distinct self.now ≡ true }
    {
        self.places.len()
    }

    pub fn is_empty(&self) -> bool
        ensures { IsTrue result ↔ (self.now ≡ []) }
    {
        self.places.is_empty()
    }

    pub fn has(&self, id: NodeId) -> bool
        ensures { result ≡ has self.now id }
    {
        self.places.contains_key(&id)
    }

    /// The oldest id that is there.
    pub fn first(&self) -> Option<NodeId>
        ensures { result ≡ slice_get self.now 0 }
    {
        if self.front < self.order.len() {
            self.order[self.front]
        } else {
            None
        }
    }

    /// Puts the id at the end, and tells whether it wasn't there.
    pub fn add(&mut self, id: NodeId) -> Result<bool, NoMemory>
        ensures answer { IfOk result (λ new. new ≡ not (has self.old id)) }
        ensures ok { OnOk result (self.new ≡ added self.old id) }
        ensures err { OnErr result (self.new ≡ self.old) }
    {
        if self.places.contains_key(&id) {
            return Ok(false);
        }
        let end = self.order.len();
        self.order.reserve(1)?;
        let _ = self.places.insert(id, end)?;
        self.order.push_reserved(Some(id));
        Ok(true)
    }

    /// Takes the id out, and tells whether it was there.
    pub fn remove(&mut self, id: NodeId) -> bool
        ensures answer { result ≡ has self.old id }
        ensures rest { self.new ≡ without self.old id }
    {
        let place = match self.places.swap_remove(&id) {
            Some(place) => place,
            None => return false,
        };
        self.order[place] = None;
        self.front = next_id(self.order.as_slice(), self.front);
        self.drop_holes();
        true
    }

    // Once more than half of a long order are holes, the ids move together. At least as many ids were removed since the
    // last move as now move, so a removal costs constant time over all. Want of memory only puts the move off.
    fn drop_holes(&mut self)
        ensures { self.new ≡ self.old }
    {
        if self.places.is_empty() {
            self.order.clear();
            self.front = 0;
            return;
        }
        if self.order.len() < LONG || self.order.len() / 2 <= self.places.len() {
            return;
        }
        match Vec::with_capacity(*self.order.allocator(), self.order.len()) {
            Ok(empty) => {
                self.order = together(self.order.as_slice(), empty, &mut self.places);
                self.front = 0;
            }
            Err(_) => {}
        }
    }

    /// Takes all ids out. Linear in them.
    pub fn clear(&mut self)
        ensures { self.new ≡ [] }
    {
        self.places.clear();
        self.order.clear();
        self.front = 0;
    }
}

/// The first place from `from` on that is no hole.
fn next_id(order: &[Option<NodeId>], from: usize) -> usize
    ensures above { from ≤ result }
    ensures passed { (k : ℕ) → from ≤ k → k < result → slice_get order.now k ≡ Some None }
    ensures first { slice_get order.now result ≢ Some None }
{
    let mut i = from;
    while i < order.len() && order[i].is_none() {
        i += 1;
    }
    i
}

/// The ids of `order` without holes, in `empty`, which has room for them. `places` then tells where each stands there.
fn together(
    order: &[Option<NodeId>],
    empty: Vec<Option<NodeId>>,
    places: &mut IndexMap<NodeId, usize>,
) -> Vec<Option<NodeId>>
    requires empty { empty.items ≡ [] }
    requires room { length order.now ≤ vec_capacity empty }
    requires placed { ArePlaced order.now (λ id. get nat_eq places.old id) }
    ensures items { result.items ≡ map (λ id. Some id) (somes order.now) }
    ensures placed { ArePlaced result.items (λ id. get nat_eq places.new id) }
    ensures count { index_map_len places.new ≡ index_map_len places.old }
{
    let mut ids = empty;
    for id in order {
        let id = match id {
            Some(id) => id,
            None => continue,
        };
        move_to_end(*id, &mut ids, places);
    }
    ids
}

fn move_to_end(id: NodeId, ids: &mut Vec<Option<NodeId>>, places: &mut IndexMap<NodeId, usize>)
    requires room { vec_len ids.old < vec_capacity ids.old }
    requires there { is_some (get nat_eq places.old id) ≡ true }
    ensures items { ids.new.items ≡ ids.old.items ++ Some id ∷ [] }
    ensures room { vec_capacity ids.old ≤ vec_capacity ids.new }
    ensures places { (q : ℕ) → get nat_eq places.new q ≡ (if nat_eq id q then Some (length ids.old.items) else get nat_eq places.old q) }
    ensures count { index_map_len places.new ≡ index_map_len places.old }
{
    match places.insert(id, ids.len()) {
        Ok(_) => {}
        Err(_) => unreachable!(),
    }
    ids.push_reserved(Some(id));
}
