//! Sets of states.
ghost use Rattle.std.specs.Prelude.{◌≡◌, ◌<◌, ◌≤◌, ℕ, [], length, slice_index, true, IfOk, OnOk, OnErr, IsTrue, ◌↔◌};
ghost use Rattle.ax_node.specs.States.{has_state, with_state, are_ascending};

use ax_attrs::State;
use ax_base::NoMemory;
use std::alloc::Global;
use std::marker::Model;

/// A set of states, seen as the ascending list of them.
#[derive(Debug, Drop)]
pub struct StateSet {
    states: Vec<State>,
}

impl Model for StateSet {
    ghost use Rattle.std.specs.Prelude.{List, ℕ, true, ◌≡◌};
    ghost use Rattle.ax_node.specs.States.{are_ascending};

    ghost Value = { List ℕ };

    ghost view = { λ s. s.states.items };

    ghost invariant = { λ s. are_ascending s.states.items ≡ true };
}

impl StateSet {
    pub fn new(alloc: Global) -> StateSet
        ensures { result ≡ [] }
    {
        StateSet {
            states: Vec::new(alloc),
        }
    }

    pub fn len(&self) -> usize
        ensures { result ≡ length self.now }
    {
        self.states.len()
    }

    pub fn is_empty(&self) -> bool
        ensures { IsTrue result ↔ (self.now ≡ []) }
    {
        self.states.is_empty()
    }

    pub fn has(&self, s: State) -> bool
        ensures answer { result ≡ has_state self.now s }
        ensures ascending { are_ascending self.now ≡ true }
    {
        self.states.contains(&s)
    }

    /// The states in the order of the table.
    pub fn as_slice(&self) -> &[State]
        ensures states { result.now ≡ self.now }
        ensures ascending { are_ascending self.now ≡ true }
    {
        self.states.as_slice()
    }

    /// Puts the state in, if it isn't there.
    pub fn add(&mut self, s: State) -> Result<(), NoMemory>
        ensures ok { OnOk result (self.new ≡ with_state self.old s) }
        ensures err { OnErr result (self.new ≡ self.old) }
    {
        let place = place_of(self.states.as_slice(), s);
        if stands_at(self.states.as_slice(), place, s) {
            return Ok(());
        }
        match self.states.insert(place, s) {
            Ok(()) => {}
            Err(_) => return Err(NoMemory),
        }
        Ok(())
    }

    pub fn same(&self, other: &StateSet) -> bool
        ensures { IsTrue result ↔ (self.now ≡ other.now) }
    {
        self.states.as_slice() == other.states.as_slice()
    }

    pub fn copy(&self) -> Result<StateSet, NoMemory>
        ensures { IfOk result (λ s. s ≡ self.now) }
    {
        let states = Vec::from_slice(*self.states.allocator(), self.states.as_slice())?;
        Ok(StateSet { states })
    }
}

/// The first place whose state isn't below `s`.
fn place_of(states: &[State], s: State) -> usize
    ensures within { result ≤ length states.now }
    ensures below { (k : ℕ) → k < result → slice_index states.now k < s }
    ensures above { result < length states.now → s ≤ slice_index states.now result }
{
    let mut i = 0;
    while i < states.len() && states[i] < s {
        i += 1;
    }
    i
}

/// Whether `s` stands at the place.
fn stands_at(states: &[State], place: usize, s: State) -> bool
    ensures { IsTrue result ↔ ((place < length states.now) × (slice_index states.now place ≡ s)) }
{
    if place >= states.len() {
        return false;
    }
    states[place] == s
}
