//! A source and a sink in memory, which fail at given calls.
ghost use Rattle.std.specs.Prelude.{◌≡◌, ◌+◌, ◌-◌, ◌≤◌, ◌<◌, ◌↔◌, ◌⊎◌, ◌++◌, [], IsTrue, IfOk, IsErr, Contains, drop, take, length, min, Some};
ghost use Rattle.std.specs.Io.{ReadsAtMost, WritesAtMost};
ghost use Rattle.std.specs.Io.KnownBytes.{ReadConsumes, WriteAppends};
ghost use Rattle.ax_io.specs.Causes.{HasCause, CountsFaults, one_more};

use crate::{Failed, NoMemory, Sink, Source};
use std::alloc::Global;
use std::marker::Model;

/// Copies the front of `from` to the front of `into`, at most `most` bytes, and says how many.
#[tactic(auto, using(crate::proofs::Moves::front_is_copied, crate::proofs::Moves::none_is_left))]
pub(crate) fn copy_front(from: &[u8], into: &mut [u8], most: usize) -> usize
    requires { 1 ≤ most }
    ensures count { result ≡ min (min (length from.now) (length into.old)) most }
    ensures copied { from.now ≡ take result into.new ++ drop result from.now }
    ensures end { result ≡ 0 → 0 < length into.new → drop result from.now ≡ [] }
{
    let count = from.len().min(into.len()).min(most);
    into[..count].copy_from_slice(&from[..count]);
    count
}

/// Whether the number of the call after so many, counted from 1, is one of these.
fn is_failing(failing: &[u64], calls: u64) -> bool
    ensures { IsTrue result ↔ Contains failing.now (calls + 1) }
{
    match calls.checked_add(1) {
        Some(number) => failing.contains(&number),
        None => false,
    }
}

/// A source over bytes, which tells them. A read gives at most `chunk` bytes, and those whose numbers, from 1, stand in `failing` fail.
#[derive(Drop)]
pub struct MemSource {
    bytes: Vec<u8>,
    at: usize,
    chunk: usize,
    failing: Vec<u64>,
    calls: u64,
    faults: u64,
}

impl Model for MemSource {
    ghost use Rattle.std.specs.Prelude.{◌≤◌, drop, vec_len};
    ghost use Rattle.ax_io.specs.Memory.{SourceMeaning};

    ghost Value = { SourceMeaning };

    ghost view = { λ s. record { left = drop s.at s.bytes.items; chunk = s.chunk; failing = s.failing.items; calls = s.calls; faults = s.faults } };

    ghost invariant = { λ s. (s.at ≤ vec_len s.bytes) × (1 ≤ s.chunk) };
}

impl MemSource {
    pub fn new(bytes: Vec<u8>, chunk: usize, failing: Vec<u64>) -> MemSource
        requires { 1 ≤ chunk }
        ensures { result ≡ record { left = bytes.items; chunk = chunk; failing = failing.items; calls = 0; faults = 0 } }
    {
        MemSource {
            bytes,
            at: 0,
            chunk,
            failing,
            calls: 0,
            faults: 0,
        }
    }
}

impl Source for MemSource {
    ghost left = { λ s. Some s.left };

    ghost fault_count = { λ s. s.faults };

    fn read(&mut self, into: &mut [u8]) -> Result<usize, Failed>
        ensures bound { ReadsAtMost result into.new }
        ensures bytes { ReadConsumes (Some self.old.left) (Some self.new.left) result into.new }
        ensures cause { HasCause self.old.faults self.new.faults result }
        ensures counts { CountsFaults self.old.faults self.new.faults result }

        // A read fails exactly where its number stands in the list.
        ensures fails { IsErr result ↔ Contains self.old.failing (self.old.calls + 1) }
        ensures moves { IfOk result (λ n. n ≡ min (min (length self.old.left) (length into.old)) self.old.chunk) }
        ensures calls { self.new.calls ≡ one_more self.old.calls }
        ensures keeps { (self.new.chunk ≡ self.old.chunk) × (self.new.failing ≡ self.old.failing) }
    {
        let fails = is_failing(&self.failing, self.calls);
        self.calls = self.calls.saturating_add(1);
        if fails {
            self.faults = self.faults.saturating_add(1);
            return Err(Failed);
        }
        let count = copy_front(self.bytes.split_at(self.at).1, into, self.chunk);
        self.at += count;
        Ok(count)
    }

    fn faults(&self) -> u64 {
        self.faults
    }
}

/// A sink that tells its bytes and holds at most `room` of them. A write takes at most `chunk` bytes, and those whose numbers,
/// from 1, stand in `failing` fail.
#[derive(Drop)]
pub struct MemSink {
    bytes: Vec<u8>,
    room: usize,
    chunk: usize,
    failing: Vec<u64>,
    calls: u64,
    faults: u64,
}

impl Model for MemSink {
    ghost use Rattle.std.specs.Prelude.{◌≤◌, vec_len, vec_capacity};
    ghost use Rattle.ax_io.specs.Memory.{SinkMeaning};

    ghost Value = { SinkMeaning };

    ghost view = { λ s. record { held = s.bytes.items; room = s.room; chunk = s.chunk; failing = s.failing.items; calls = s.calls; faults = s.faults } };

    ghost invariant = { λ s. (vec_len s.bytes ≤ s.room) × (s.room ≤ vec_capacity s.bytes) × (1 ≤ s.chunk) };
}

impl MemSink {
    /// Takes the memory for `room` bytes; no write takes any.
    pub fn new(
        alloc: Global,
        room: usize,
        chunk: usize,
        failing: Vec<u64>,
    ) -> Result<MemSink, NoMemory>
        requires { 1 ≤ chunk }
        ensures { IfOk result (λ s. s ≡ record { held = []; room = room; chunk = chunk; failing = failing.items; calls = 0; faults = 0 }) }
    {
        let bytes = Vec::with_capacity(alloc, room)?;
        Ok(MemSink {
            bytes,
            room,
            chunk,
            failing,
            calls: 0,
            faults: 0,
        })
    }

    /// The bytes that it holds.
    pub fn held(&self) -> &[u8]
        ensures { result.now ≡ self.now.held }
    {
        &self.bytes
    }
}

impl Sink for MemSink {
    ghost held = { λ s. Some s.held };

    ghost fault_count = { λ s. s.faults };

    fn write(&mut self, piece: &[u8]) -> Result<usize, Failed>
        ensures bound { WritesAtMost result piece.now }
        ensures progress { IfOk result (λ n. 0 < length piece.now → 0 < n) }
        ensures bytes { WriteAppends (Some self.old.held) (Some self.new.held) result piece.now }
        ensures cause { HasCause self.old.faults self.new.faults result }
        ensures counts { CountsFaults self.old.faults self.new.faults result }

        // A write fails exactly where its number stands in the list, or a piece that isn't empty meets a full sink.
        ensures fails { IsErr result ↔ (Contains self.old.failing (self.old.calls + 1) ⊎ ((0 < length piece.now) × (length self.old.held ≡ self.old.room))) }
        ensures moves { IfOk result (λ n. n ≡ min (min (length piece.now) (self.old.room - length self.old.held)) self.old.chunk) }
        ensures calls { self.new.calls ≡ one_more self.old.calls }
        ensures keeps { (self.new.chunk ≡ self.old.chunk) × (self.new.failing ≡ self.old.failing) × (self.new.room ≡ self.old.room) }
    {
        let fails = is_failing(&self.failing, self.calls);
        self.calls = self.calls.saturating_add(1);
        let free = self.room - self.bytes.len();
        if fails || (free == 0 && !piece.is_empty()) {
            self.faults = self.faults.saturating_add(1);
            return Err(Failed);
        }
        let count = piece.len().min(free).min(self.chunk);
        self.bytes.extend_from_slice(&piece[..count]).unwrap();
        Ok(count)
    }

    fn faults(&self) -> u64 {
        self.faults
    }
}
