//! Where a program reads its bytes from and where it writes them to.
//!
//! A source and a sink count their faults, so a caller can tell a failure from an answer that only looks like one: a call
//! fails only where the count rose in it, or stands at the last value of `u64`. Where a source tells its bytes, contracts
//! speak of the list that is left, and where a sink tells its bytes, of the list that it holds.
//!
//! Reading `n` bytes to the end takes one copy of each, and one growing `Vec`; writing takes no memory.
#![tactic(auto)]

mod memory;
mod standard;
mod sure;
mod whole;

ghost use Rattle.std.specs.Prelude.{◌≡◌, ◌<◌, ℕ, List, length, IfOk};
ghost use Rattle.std.specs.declared.option.Option.{Option};
ghost use Rattle.std.specs.Io.{ReadsAtMost, WritesAtMost};
ghost use Rattle.std.specs.Io.KnownBytes.{ReadConsumes, WriteAppends};
ghost use Rattle.ax_io.specs.Causes.{HasCause};

pub use ax_base::NoMemory;
pub use memory::{MemSink, MemSource};
pub use standard::{StdSink, StdSource};
pub use sure::{SureSink, SureSource};
pub use whole::{ReadErr, WriteFault, read_up_to, write_whole};

/// A source or a sink failed in this call.
#[derive(Clone, Copy, Debug, PartialEq, Eq)]
pub struct Failed;

/// Where bytes come from.
pub trait Source {
    /// The bytes that are left, where the source tells them.
    ghost left: { Self → Option (List ℕ) };
    /// How often it has failed, up to the last value of `u64`.
    ghost fault_count: { Self → ℕ };

    /// Reads some of the first bytes left to the front of `into`, and says how many.
    ///
    /// `Ok(0)` in a buffer that isn't empty means the end. A read that failed took nothing.
    fn read(&mut self, into: &mut [u8]) -> Result<usize, Failed>
        ensures bound { ReadsAtMost result into.new }
        ensures bytes { ReadConsumes (left self.old) (left self.new) result into.new }
        ensures cause { HasCause (fault_count self.old) (fault_count self.new) result };

    /// How often it has failed, up to the last value of `u64`.
    fn faults(&self) -> u64
        ensures { result ≡ fault_count self.now };
}

/// Where bytes go.
pub trait Sink {
    /// The bytes that it holds, where the sink tells them.
    ghost held: { Self → Option (List ℕ) };
    /// How often it has failed, up to the last value of `u64`.
    ghost fault_count: { Self → ℕ };

    /// Takes some of the first bytes of `piece`, at least one where there is one, and says how many.
    ///
    /// A write that failed took nothing.
    fn write(&mut self, piece: &[u8]) -> Result<usize, Failed>
        ensures bound { WritesAtMost result piece.now }
        ensures progress { IfOk result (λ n. 0 < length piece.now → 0 < n) }
        ensures bytes { WriteAppends (held self.old) (held self.new) result piece.now }
        ensures cause { HasCause (fault_count self.old) (fault_count self.new) result };

    /// How often it has failed, up to the last value of `u64`.
    fn faults(&self) -> u64
        ensures { result ≡ fault_count self.now };
}
