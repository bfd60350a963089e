//! Sources and sinks: each call once, how much a read asks for, and the adapters over std.
ghost use Rattle.std.specs.Prelude.{None};

use ax_io::{
    Failed, MemSink, MemSource, Sink, Source, StdSink, StdSource, SureSink, SureSource, WriteFault,
    read_up_to, write_whole,
};
use std::alloc::Global;
use std::io;
use std::io::{ErrorKind, Read};

/// Reads all, and writes what was read.
fn copied<S: Source, K: Sink>(alloc: Global, src: &mut S, out: &mut K) -> bool {
    match read_up_to(alloc, src, 10_000) {
        Ok(bytes) => write_whole(out, &bytes).is_ok(),
        Err(_) => false,
    }
}

fn is_held(alloc: Global, src: &mut MemSource, out: &mut MemSink) -> bool {
    copied(alloc, src, out)
        && out.held() == b"some bytes".as_slice()
        && src.faults() == 0
        && out.faults() == 0
}

fn is_sunk(alloc: Global, src: &mut MemSource) -> bool {
    match MemSink::new(alloc, 10, 4, Vec::new(alloc)) {
        Ok(mut out) => is_held(alloc, src, &mut out),
        Err(_) => false,
    }
}

fn is_copied(alloc: Global, bytes: Vec<u8>) -> bool {
    is_sunk(alloc, &mut MemSource::new(bytes, 3, Vec::new(alloc)))
}

fn is_surely_copied(alloc: Global, bytes: Vec<u8>) -> bool {
    let mut sure = SureSource::new(bytes);
    copied(alloc, &mut sure, &mut SureSink) && sure.faults() == 0 && SureSink.faults() == 0
}

fn bytes(alloc: Global, text: &str) -> Vec<u8> {
    match text.as_bytes().to_vec(alloc) {
        Ok(bytes) => bytes,
        Err(_) => Vec::new(alloc),
    }
}

#[test]
fn memory_is_copied(rt: HostRuntime) {
    let alloc = rt.alloc();
    assert!(rt; is_copied(alloc, bytes(alloc, "some bytes")));
    assert!(rt; is_surely_copied(alloc, bytes(alloc, "x")));
}

/// A source that notes how much room each of its first two reads had, and gives as many bytes.
#[derive(Drop)]
struct Noting {
    calls: usize,
    rooms: [usize; 2],
}

impl Source for Noting {
    ghost left = { λ _. None };

    ghost fault_count = { λ _. 0 };

    fn read(&mut self, into: &mut [u8]) -> Result<usize, Failed> {
        if self.calls < 2 {
            self.rooms[self.calls] = into.len();
            self.calls += 1;
        }
        Ok(into.len())
    }

    fn faults(&self) -> u64 {
        0
    }
}

fn takes_one_too_many(alloc: Global, src: &mut Noting) -> bool {
    match read_up_to(alloc, src, 5000) {
        Ok(bytes) => bytes.len() == 5001,
        Err(_) => false,
    }
}

#[test]
fn a_read_offers_what_is_wanted(rt: HostRuntime) {
    let mut src = Noting {
        calls: 0,
        rooms: [0, 0],
    };
    assert!(rt; takes_one_too_many(rt.alloc(), &mut src));
    assert!(rt; src.rooms == [4096, 905]);
}

/// A reader that only fails.
#[derive(Drop)]
struct Broken;

impl Read for Broken {
    fn read(&mut self, _into: &mut [u8]) -> io::Result<usize> {
        Err(io::Error::from(ErrorKind::Other))
    }
}

fn std_is_copied(alloc: Global) -> bool {
    let mut src = StdSource::new(b"bytes".as_slice());
    let mut out = StdSink::new(Vec::new(alloc));
    copied(alloc, &mut src, &mut out) && src.faults() == 0 && out.faults() == 0
}

fn a_broken_reader_counts(alloc: Global) -> bool {
    let mut broken = StdSource::new(Broken);
    !copied(alloc, &mut broken, &mut SureSink) && broken.faults() == 1
}

fn a_short_writer_counts() -> bool {
    let mut room = [0u8; 2];
    let mut short = StdSink::new(room.as_mut_slice());
    write_whole(&mut short, b"abc") == Err(WriteFault) && short.faults() == 1
}

#[test]
fn readers_and_writers_of_std_count_faults(rt: HostRuntime) {
    assert!(rt; std_is_copied(rt.alloc()));
    assert!(rt; a_broken_reader_counts(rt.alloc()));
    assert!(rt; a_short_writer_counts());
}
