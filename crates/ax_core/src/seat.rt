//! A frame in a run.
ghost use Rattle.std.specs.Prelude.{◌≡◌, ◌++◌, ◌∷◌, [], List, length, IfOk, OnOk, OnErr};
ghost use Rattle.ax_ask.specs.declared.line.Line.TheVariants as lines;
ghost use Rattle.ax_ask.specs.declared.op.FrameOp.{FrameOp as Op};
ghost use Rattle.ax_ask.specs.declared.op.FrameOp.TheVariants as ops;
ghost use Rattle.ax_ask.specs.Calls.{HaveLeaves, IsLeafOp};
ghost use Rattle.ax_core.specs.FrameRuns.{journaled, delivered, in_run, NextDone, NextBroken, IsDone, IsBroken, IsFitting, KeepsFitting};
ghost use Rattle.ax_core.specs.Receipts.{ReceiptDone};

use crate::operating::{Waiting, edit, pass, touch, touch_below};
use crate::queue::Queue;
use crate::receiving::receive_oldest;
use ax_ask::{FrameOp, FrameOps, Line};
use ax_base::{NoMemory, Token, TreeId};
use ax_forest::Forest;
use ax_frame::Frame;
use ax_tree::Packet;
use std::alloc::Global;
use std::marker::Model;

/// A frame with what is left of its operations, and its packets that wait.
#[derive(Drop)]
pub(crate) struct Seat {
    frame: Frame,
    left: Queue<FrameOp>,
    waiting: Waiting,
}

impl Model for Seat {
    ghost use Rattle.ax_run_rules.specs.States.{FrameRun};
    ghost use Rattle.ax_core.specs.Coding.{coded_frame};

    ghost Value = { FrameRun };

    ghost coded = { coded_frame };

    ghost view = { λ s. record { tree = s.frame.tree; left = s.left; journal = s.frame.journal; waiting = s.waiting.items } };
}

impl Seat {
    /// A frame that has done nothing.
    pub fn new(alloc: Global, tree: TreeId, ops: FrameOps) -> Seat
        ensures { result ≡ record { tree = tree; left = ops; journal = []; waiting = [] } }
    {
        Seat::with(Frame::new(alloc, tree), Queue::of(ops), Waiting::new(alloc))
    }

    pub fn with(frame: Frame, left: Queue<FrameOp>, waiting: Waiting) -> Seat
        ensures { result ≡ record { tree = frame.tree; left = left; journal = frame.journal; waiting = waiting.items } }
    {
        Seat {
            frame,
            left,
            waiting,
        }
    }

    pub fn frame(&self) -> &Frame
        ensures { result.now ≡ journaled self.now }
    {
        &self.frame
    }

    /// How many operations are left.
    pub fn left(&self) -> usize
        ensures { result ≡ length self.now.left }
    {
        self.left.len()
    }

    /// How many packets wait.
    pub fn waits(&self) -> usize
        ensures { result ≡ length self.now.waiting }
    {
        self.waiting.len()
    }

    /// Puts a packet behind those that wait.
    pub fn put(&mut self, packet: Packet) -> Result<(), NoMemory>
        ensures ok { OnOk result (self.new ≡ record self.old { waiting = self.old.waiting ++ packet ∷ [] }) }
        ensures err { OnErr result (self.new ≡ self.old) }
    {
        self.waiting.push_back(packet)?;
        Ok(())
    }

    pub fn into_parts(self) -> (Frame, Waiting)
        ensures frame { result.0 ≡ journaled self }
        ensures waiting { result.1.items ≡ self.waiting }
    {
        let Seat {
            frame,
            left: _,
            waiting,
        } = self;
        (frame, waiting)
    }

    /// Does the next operation, and gives the line, or none where none is left.
    pub fn next(&mut self) -> Result<Option<Line>, NoMemory>
        requires { HaveLeaves self.old.left }
        ensures done { IfOk result (λ line. NextDone self.old self.old.left self.new line) }
        ensures broken { OnErr result (NextBroken self.old self.old.left self.new) }
        ensures fits { KeepsFitting self.old self.new }
    {
        let Some(op) = self.left.first() else {
            return Ok(None);
        };
        let line = operate(&mut self.frame, &mut self.waiting, op)?;
        self.left.drop_first();
        Ok(Some(line))
    }

    /// Passes, whatever is left of the operations, and gives the line.
    pub fn pass(&mut self) -> Result<Line, NoMemory>
        ensures done { IfOk result (λ line. IsDone self.old ops.Pass self.old.left self.new line) }
        ensures broken { OnErr result (IsBroken self.old ops.Pass self.new) }
        ensures fits { KeepsFitting self.old self.new }
    {
        pass(&mut self.frame, &mut self.waiting)
    }

    /// Tells the frame a token, and gives the line.
    pub fn deliver(&mut self, token: Token) -> Result<Line, NoMemory>
        ensures line { IfOk result (λ line. line ≡ lines.Delivered self.old.tree token) }
        ensures after { OnOk result (self.new ≡ delivered self.old token.0) }
        ensures err { OnErr result (self.new ≡ self.old) }
        ensures fits { KeepsFitting self.old self.new }
    {
        self.frame.deliver(token)?;
        Ok(Line::Delivered {
            tree: self.frame.tree(),
            token,
        })
    }

    /// The forest receives the oldest packet that waits. Gives the line, or none where none waits.
    pub fn receive(&mut self, forest: &mut Forest) -> Result<Option<Line>, NoMemory>
        requires { IsFitting forest.old.history self.old }
        ensures done { IfOk result (λ line. ReceiptDone self.old.tree forest.old self.old.waiting forest.new self.new.waiting line) }
        ensures rest { self.new ≡ record self.old { waiting = self.new.waiting } }
        ensures forest { OnErr result (forest.new ≡ forest.old) }
        ensures err { OnErr result (self.new ≡ self.old) }
    {
        receive_oldest(forest, self.frame.tree(), &mut self.waiting)
    }
}

/// Does an operation of a frame, and gives the line.
fn operate(frame: &mut Frame, waiting: &mut Waiting, op: &FrameOp) -> Result<Line, NoMemory>
    requires { IsLeafOp op.now }
    ensures done { IfOk result (λ line. (left : List Op) → IsDone (in_run frame.old left waiting.old.items) op.now left (in_run frame.new left waiting.new.items) line) }
    ensures broken { OnErr result ((left : List Op) → IsBroken (in_run frame.old left waiting.old.items) op.now (in_run frame.new left waiting.new.items)) }
    ensures fits { (left : List Op) → KeepsFitting (in_run frame.old left waiting.old.items) (in_run frame.new left waiting.new.items) }
{
    match op {
        FrameOp::Edit(what) => edit(frame, what),
        FrameOp::Touch(node) => touch(frame, *node),
        FrameOp::TouchBelow(node) => touch_below(frame, *node),
        FrameOp::Pass => pass(frame, waiting),
    }
}
