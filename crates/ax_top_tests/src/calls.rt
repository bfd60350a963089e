//! `calm_main` where a source or a sink fails, where there are too many bytes, and with other words.
ghost use Rattle.std.specs.Prelude.{None};

use crate::given::{Given, ends, writes};
use ax_io::{Failed, Source};
use ax_top::Status;
use std::alloc::Global;

const FIRST: &str =
    "{\"version\":1,\"frames\":[{\"tree\":1,\"ops\":[{\"op\":\"root\",\"node\":1},{\"op\":\"pass\"}]}]}";

const FIRST_TEXT: &str =
    "finale\nf1 root 1 ok\nf1 pass 1 base 0 token 0\n  u clear 0 root 1 list 1 data\na1 applied 1\n  e 1:1 subtree_created\ndump\ntree 1 parent 0 focused 0 loaded no focus 0 sel 0 0 0 0 title \"\" url \"\"\n1 generic\n";

/// A source of so many spaces.
#[derive(Drop)]
struct Spaces {
    left: usize,
}

impl Source for Spaces {
    ghost left = { λ _. None };

    ghost fault_count = { λ _. 0 };

    fn read(&mut self, into: &mut [u8]) -> Result<usize, Failed> {
        let count = into.len().min(self.left);
        into[..count].fill(32);
        self.left -= count;
        Ok(count)
    }

    fn faults(&self) -> u64 {
        0
    }
}

fn spaces_are_refused(alloc: Global, left: usize, line: &str) -> bool {
    let given = Given::replay("");
    writes(
        alloc,
        &mut Spaces { left },
        &given,
        Status::Script,
        line.as_bytes(),
    )
}

#[test]
fn one_byte_too_many_is_refused(rt: HostRuntime) {
    let alloc = rt.alloc();
    assert!(rt; spaces_are_refused(alloc, 67_108_864, "script NotJson\n"));
    assert!(rt; spaces_are_refused(alloc, 67_108_865, "script TooBig 67108865\n"));
}

fn reads_nothing(alloc: Global) -> bool {
    let given = Given {
        words: &["replay"],
        bytes: FIRST,
        failing_read: 1,
        failing_write: 0,
    };
    ends(alloc, &given, Status::ReadFault, b"")
}

fn writes_until(alloc: Global, failing_write: u64, status: Status, text: &[u8]) -> bool {
    let given = Given {
        words: &["replay"],
        bytes: FIRST,
        failing_read: 0,
        failing_write,
    };
    ends(alloc, &given, status, text)
}

/// Whether the run stops at this write, and has written so many bytes.
fn stops_at(alloc: Global, call: u64, written: usize) -> bool {
    let text = FIRST_TEXT.as_bytes();
    if written > text.len() {
        return false;
    }
    writes_until(alloc, call, Status::WriteFault, text.split_at(written).0)
}

/// The text has 200 bytes, so it takes 25 writes.
fn each_write_fails(alloc: Global) -> bool {
    let mut written = 0_usize;
    for call in 1..26 {
        if !stops_at(alloc, call, written) {
            return false;
        }
        written = written.saturating_add(8);
    }
    writes_until(alloc, 26, Status::Ok, FIRST_TEXT.as_bytes())
}

#[test]
fn faults_have_their_status(rt: HostRuntime) {
    assert!(rt; reads_nothing(rt.alloc()));
    assert!(rt; each_write_fails(rt.alloc()));
}

const USAGE: &str = "usage: ax_tool replay | race | combine | act | gen SEED FRAMES OPS\n";

type Words = &'static [&'static str];

/// Words, the status and the text of each. Of what `gen` makes, the line comes from a reference written apart.
const ANSWERED: [(Words, Status, &str); 9] = [
    (&[], Status::Usage, USAGE),
    (&["-h"], Status::Usage, USAGE),
    (&["replay", "x"], Status::Usage, USAGE),
    (&["race"], Status::Usage, USAGE),
    (&["gen", "0", "0", "1"], Status::Usage, USAGE),
    (
        &["gen", "0", "1", "1"],
        Status::Ok,
        "gen 0 1 1 passes 1 listed 1 applied 1 events 1 nodes 1\n",
    ),
    (
        &["gen", "1", "3", "40"],
        Status::Ok,
        "gen 1 3 40 passes 4 listed 19 applied 4 events 7 nodes 15\n",
    ),
    (
        &["gen", "4294967295", "2", "200"],
        Status::Ok,
        "gen 4294967295 2 200 passes 16 listed 55 applied 16 events 51 nodes 12\n",
    ),
    (
        &["gen", "7", "40", "300"],
        Status::Ok,
        "gen 7 40 300 passes 60 listed 201 applied 60 events 89 nodes 171\n",
    ),
];

/// The first read would fail.
fn is_answered(alloc: Global, words: Words, status: Status, text: &str) -> bool {
    let given = Given {
        words,
        bytes: FIRST,
        failing_read: 1,
        failing_write: 0,
    };
    ends(alloc, &given, status, text.as_bytes())
}

#[test]
fn words_are_answered(rt: HostRuntime) {
    for (words, status, text) in ANSWERED {
        assert!(rt; is_answered(rt.alloc(), words, status, text), "{text}");
    }
}

fn stops_within_the_line(alloc: Global) -> bool {
    let given = Given {
        words: &["gen", "0", "1", "1"],
        bytes: "",
        failing_read: 0,
        failing_write: 2,
    };
    ends(alloc, &given, Status::WriteFault, b"gen 0 1 ")
}

#[test]
fn a_failing_sink_has_a_front_of_the_line(rt: HostRuntime) {
    assert!(rt; stops_within_the_line(rt.alloc()));
}
