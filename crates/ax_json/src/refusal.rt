//! Refusals, and the way to them.
ghost use Rattle.std.specs.Prelude.{◌≡◌, [], ◌++◌, Some};
ghost use Rattle.ax_json.specs.declared.refusal.WalkErr.TheVariants.{NoMemory as OutOfMemory};
ghost use Rattle.ax_json.specs.Refused.{IsUnder, refusal_of};
ghost use Rattle.ax_json.specs.Walk.{dot, place};

use ax_base::NoMemory;
use std::alloc::Global;

/// What is wrong at a place of a value.
#[derive(Clone, Copy, Debug, PartialEq, Eq)]
pub enum Fault {
    /// An object has a member that it can't have.
    UnknownMember,
    /// A member isn't there.
    Missing,
    /// A value is of another type.
    BadType,
    /// A list has too few or too many items.
    BadCount,
    /// A number isn't whole or is out of range.
    BadNumber,
    /// A name isn't one of those that may stand there.
    BadName,
}

/// Why a value isn't read: what is wrong, with the way to it from the value, or want of memory.
#[derive(Debug, Drop)]
pub enum WalkErr {
    Refused(Fault, String),
    NoMemory,
}

impl From<NoMemory> for WalkErr {
    ghost from_gives = { λ _ e. e ≡ OutOfMemory };

    fn from(_e: NoMemory) -> WalkErr {
        WalkErr::NoMemory
    }
}

/// The refusal of the value itself.
pub fn refuse(alloc: Global, fault: Fault) -> WalkErr
    ensures { refusal_of result ≡ Some (record { fault = fault; path = [] }) }
{
    WalkErr::Refused(fault, String::new(alloc))
}

/// A member's error, seen from the object.
pub fn in_member(alloc: Global, name: &str, error: WalkErr) -> WalkErr
    ensures { IsUnder (dot name.now) error result }
{
    match error {
        WalkErr::NoMemory => WalkErr::NoMemory,
        WalkErr::Refused(fault, path) => match format!(in alloc; ".{name}{path}") {
            Ok(path) => WalkErr::Refused(fault, path),
            Err(_) => WalkErr::NoMemory,
        },
    }
}

/// An item's error, seen from the array.
pub fn in_item(alloc: Global, i: usize, error: WalkErr) -> WalkErr
    ensures { IsUnder (place i) error result }
{
    match error {
        WalkErr::NoMemory => WalkErr::NoMemory,
        WalkErr::Refused(fault, path) => match format!(in alloc; "[{i}]{path}") {
            Ok(path) => WalkErr::Refused(fault, path),
            Err(_) => WalkErr::NoMemory,
        },
    }
}
