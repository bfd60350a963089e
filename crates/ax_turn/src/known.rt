//! What a seat knows.
use std::collections::LinkedList;

/// What a seat knows, as the rule of a turn speaks of it. It exists in the proofs alone.
///
/// A join takes the longer list for `seen`. It keeps the other as `told`, with the numbers of the seat that had seen
/// it, until the next step has shown that it begins the longer one.
pub struct Known<E> {
    pub inside: bool,
    pub seen: LinkedList<E>,
    pub told: LinkedList<E>,
    pub told_low: u64,
    pub told_high: u64,
    pub low: u64,
    pub high: u64,
    pub enters: u64,
    pub makers: u64,
    pub name: LinkedList<u64>,
}
