//! The rule of a lane, and what each of its steps tells.

ghost use Rattle.std.specs.Prelude.{ℕ};

use crate::holding::Holding;
use ax_tree::Packet;
use crossbeam_queue::protocol::{Join, Lesson, Outcome, Protocol, Split};
use std::marker::{Brand, PhantomData};

/// The rule.
pub struct InOrder;

impl Protocol<Packet, Holding> for InOrder {
    ghost use Rattle.std.specs.Prelude.{[]};
    ghost use Rattle.ax_lane.specs.Lanes.{taker, Lined};

    ghost holds = { Lined };

    ghost first = { taker [] [] [] };
}

/// To push a packet.
pub(crate) struct Pushes;

impl Outcome<Packet, Holding> for Pushes {
    ghost use Rattle.ax_lane.specs.Lanes.{Sent};

    ghost then = { Sent };
}

/// To pop a packet, or to learn that there is none.
pub(crate) struct Pops;

impl Outcome<Packet, Holding> for Pops {
    ghost use Rattle.ax_lane.specs.Lanes.{Taken};

    ghost then = { Taken };
}

impl Lesson<Packet, Holding> for Pops {
    ghost use Rattle.ax_lane.specs.Lanes.{Left};

    ghost fact = { Left };
}

/// The tree of a new sender. A split takes no run-time argument, so a type carries the tree.
pub trait Of {
    ghost tree: { ℕ };
}

impl Of for Brand {
    ghost tree = { 0 };
}

/// To make a sender.
pub(crate) struct Hire<O> {
    of: PhantomData<O>,
}

impl<O: Of> Split<Holding> for Hire<O> {
    ghost use Rattle.std.specs.Prelude.{[]};
    ghost use Rattle.ax_lane.specs.Lanes.{hired, sender};

    ghost left = { hired O.tree };

    ghost right = { λ _. sender O.tree [] [] };
}

/// To take a sender back.
pub(crate) struct Return;

impl Join<Holding> for Return {
    ghost use Rattle.ax_lane.specs.Lanes.{returned, nobody};

    ghost both = { returned };

    ghost spent = { nobody };
}
