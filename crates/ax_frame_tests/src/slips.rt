//! The edits that ride in a packet, and the journal of a frame.
ghost use Rattle.std.specs.Prelude.{IfSome};
ghost use Rattle.ax_tree.specs.Edits.{HasLeaf};

use crate::given::{insert, name, root};
use ax_base::{PassNo, Token, TreeId};
use ax_frame::{Frame, PassOut};
use ax_tree::{Edit, Slip};
use std::alloc::Global;

fn takes(frame: &mut Frame, edit: Option<Edit>) -> bool
    requires { IfSome edit HasLeaf }
{
    match edit {
        Some(edit) => frame.edit(&edit).is_ok(),
        None => false,
    }
}

/// What rides in a packet, where it is one edit at most.
fn shown(slip: &Slip) -> &'static str {
    if slip.len() > 1 {
        return "more";
    }
    match slip.get(0) {
        Some(Edit::Root(_)) => "root",
        Some(Edit::Set(_)) => "set",
        Some(_) => "another",
        None => "nothing",
    }
}

fn has_slip(out: &PassOut, wanted: &str) -> bool {
    match out {
        PassOut::Made { packet, .. } => shown(&packet.slip) == wanted,
        PassOut::Nothing => false,
    }
}

/// Whether a pass makes a packet with this edit.
fn sends(frame: &mut Frame, wanted: &str) -> bool {
    match frame.pass() {
        Ok(out) => has_slip(&out, wanted),
        Err(_) => false,
    }
}

/// A refused edit rides in no packet.
fn sends_its_edits(alloc: Global, frame: &mut Frame) -> bool {
    !takes(frame, insert(alloc, 1, 0, 2))
        && takes(frame, root(alloc, 1))
        && sends(frame, "root")
        && takes(frame, name(alloc, 1, "a"))
        && sends(frame, "set")
}

fn is_quiet(frame: &Frame) -> bool {
    !frame.pending() && !frame.short()
}

/// After a delivery the whole tree is sent, with no edit.
fn sends_all(frame: &mut Frame) -> bool {
    frame.deliver(Token(1)).is_ok() && frame.pending() && sends(frame, "nothing")
}

/// A refused edit is an entry of the journal like the others.
fn has_done(frame: &Frame) -> bool {
    frame.passes() == PassNo(3) && frame.token() == Token(1) && frame.journal().len() == 7
}

#[test]
fn a_packet_has_the_edits_since_the_one_before(rt: HostRuntime) {
    let alloc = rt.alloc();
    let tree = TreeId::new(1).expect(&rt, "an id");
    let mut frame = Frame::new(alloc, tree);
    assert!(rt; sends_its_edits(alloc, &mut frame));
    assert!(rt; is_quiet(&frame));
    assert!(rt; sends_all(&mut frame));
    assert!(rt; is_quiet(&frame) && has_done(&frame));
}
