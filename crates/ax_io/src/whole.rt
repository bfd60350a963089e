//! Reading to the end, and writing all.
ghost use Rattle.std.specs.Prelude.{◌≡◌, ◌+◌, ◌-◌, ◌≤◌, min, IfOk, IfSome, OnOk, OnErr, IsErrOf, take, drop, length, Some};
ghost use Rattle.std.specs.Io.KnownBytes.{Appends};
ghost use Rattle.ax_io.specs.Causes.{HasCause, Rose};
ghost use Rattle.ax_io.specs.Parts.{AppendsFront, LosesAtMost};

use crate::{NoMemory, Sink, Source};
use std::alloc::Global;

/// Why nothing was read.
#[derive(Clone, Copy, Debug, PartialEq, Eq)]
pub enum ReadErr {
    /// The source failed.
    Fault,
    /// There was no memory.
    NoMemory,
}

impl From<NoMemory> for ReadErr {
    ghost use Rattle.std.specs.Prelude.{◌≡◌};
    ghost use Rattle.ax_io.specs.declared.whole.ReadErr.TheVariants.{NoMemory as OutOfMemory};

    ghost from_gives = { λ _ e. e ≡ OutOfMemory };

    fn from(_error: NoMemory) -> ReadErr {
        ReadErr::NoMemory
    }
}

/// The sink failed.
#[derive(Clone, Copy, Debug, PartialEq, Eq)]
pub struct WriteFault;

/// How many bytes one read offers room for, where as many are still wanted.
const PIECE: usize = 4096;

/// How many bytes the next read offers room for, after `taken`.
fn wanted(limit: usize, taken: usize) -> usize
    requires { taken ≤ limit }
    ensures { result ≡ min 4096 (limit + 1 - taken) }
{
    (limit - taken).min(PIECE - 1) + 1
}

/// All bytes that are left, or the first `limit + 1` where there are more.
///
/// After an error the bytes that were taken are lost: at most `limit + 1`.
pub fn read_up_to<S: Source>(alloc: Global, src: &mut S, limit: usize) -> Result<Vec<u8>, ReadErr>
    ensures bytes { IfOk result (λ b. IfSome (S.left src.old) (λ left. b.items ≡ take (limit + 1) left)) }
    ensures rest { IfOk result (λ b. IfSome (S.left src.old) (λ left. S.left src.new ≡ Some (drop (limit + 1) left))) }
    ensures few { IfOk result (λ b. length b.items ≤ limit + 1) }
    ensures taken { LosesAtMost (limit + 1) (S.left src.old) (S.left src.new) }
    ensures later { S.fault_count src.old ≤ S.fault_count src.new }
    ensures fault { IsErrOf result ReadErr.Fault → Rose (S.fault_count src.old) (S.fault_count src.new) }
{
    let mut bytes = Vec::new(alloc);
    let mut room = [0u8; PIECE];
    while bytes.len() <= limit {
        let piece = &mut room[..wanted(limit, bytes.len())];
        match src.read(piece) {
            Err(_) => return Err(ReadErr::Fault),
            Ok(count) => {
                if count == 0 {
                    return Ok(bytes);
                }
                if bytes.extend_from_slice(&piece[..count]).is_err() {
                    return Err(ReadErr::NoMemory);
                }
            }
        }
    }
    Ok(bytes)
}

/// Writes all of `bytes`; each write hands over all that is left.
///
/// After a fault the sink has a first part of `bytes` appended.
pub fn write_whole<K: Sink>(out: &mut K, bytes: &[u8]) -> Result<(), WriteFault>
    ensures whole { OnOk result (Appends (K.held out.old) (K.held out.new) bytes.now) }
    ensures front { OnErr result (AppendsFront (K.held out.old) (K.held out.new) bytes.now) }
    ensures cause { HasCause (K.fault_count out.old) (K.fault_count out.new) result }
{
    let mut done = 0;
    while done < bytes.len() {
        match out.write(bytes.split_at(done).1) {
            Err(_) => return Err(WriteFault),
            Ok(count) => done += count,
        }
    }
    Ok(())
}
