//! The state of a run.
ghost use Rattle.std.specs.Prelude.{◌≡◌, ◌++◌, ◌∷◌, [], IfOk, OnOk, map, option_map};
ghost use Rattle.std.specs.List.{flat_map};
ghost use Rattle.ax_forest.specs.Past.{forest_of};
ghost use Rattle.ax_run_rules.specs.States.{start, forest_now, trees_of, find_frame, FrameRun};
ghost use Rattle.ax_core.specs.FrameRuns.{journaled};
ghost use Rattle.ax_core.specs.Standing.{Stands, IsWhole};
ghost use Rattle.ax_core.specs.Starting.{CanRun, script_in};

use crate::answers::Closed;
use crate::places::Places;
use crate::queue::Queue;
use crate::reading::Reader;
use crate::seat::Seat;
use crate::starting::{readers_of, seats_of, trees_of};
use ax_ask::TimedOp;
use ax_base::{NoMemory, TreeId};
use ax_forest::{Forest, ForestParts};
use ax_frame::{Frame, Frames};
use ax_script::Script;
use ax_tree::Packet;
use std::alloc::Global;
use std::marker::Model;

/// The run of a script by one thread: what is left of each list, each frame's journal and waiting packets, and the browser's
/// history. docs/FORMATS.md tells of items and of the finale.
#[derive(Drop)]
pub struct Core {
    pub(crate) seats: Vec<Seat>,
    pub(crate) places: Places,
    pub(crate) browser: Queue<TimedOp>,
    pub(crate) readers: Vec<Reader>,
    pub(crate) forest: Forest,
    pub(crate) alloc: Global,
}

impl Model for Core {
    ghost use Rattle.ax_run_rules.specs.States.{State};
    ghost use Rattle.ax_core.specs.Coding.{coded_state};
    ghost use Rattle.ax_core.specs.Standing.{IsKept, state_of};

    ghost Value = { State };

    ghost coded = { coded_state };

    ghost view = { λ c. state_of c.seats.items c.browser c.readers.items c.forest.history };

    ghost invariant = { λ c. IsKept (state_of c.seats.items c.browser c.readers.items c.forest.history) c.places c.forest.trees };
}

impl Core {
    /// The state at the start of a script, whose order and actions it lets go. Where there is no memory, the script is given
    /// up. Linear in the frames and readers.
    pub fn new(alloc: Global, script: Script) -> Result<Core, NoMemory>
        requires { CanRun script }
        ensures state { IfOk result (λ core. core ≡ start (script_in script)) }
        ensures whole { IfOk result IsWhole }
    {
        let trees = trees_of(alloc, script.frames.as_slice())?;
        let forest = Forest::new(alloc, trees.as_slice())?;
        let places = Places::new(alloc, trees)?;
        let seats = seats_of(alloc, script.frames)?;
        let readers = readers_of(alloc, script.readers)?;
        Ok(Core {
            seats,
            places,
            browser: Queue::of(script.browser),
            readers,
            forest,
            alloc,
        })
    }

    /// The browser's forest. Its trees are the mirrors: each live tree is its frame's source at the last applied pass.
    pub fn forest(&self) -> &Forest
        ensures past { result.now ≡ record { trees = trees_of self.now; history = self.now.history } }
        ensures mirrors { forest_of result.now ≡ forest_now self.now }
        ensures stands { Stands self.now }
    {
        &self.forest
    }

    /// The tree's frame, or none where the script has no such tree. Constant time.
    pub fn frame(&self, t: TreeId) -> Option<&Frame>
        ensures { option_map (λ f. f.now) result ≡ option_map journaled (find_frame self.now t) }
    {
        let at = self.places.find(t)?;
        Some(self.seats[at].frame())
    }

    /// The frames in their order, and the forest with the packets that wait, tree by tree in that order. Where there is no
    /// memory, all are given up. Linear in the frames and the packets.
    pub fn close(self) -> Result<Closed, NoMemory>
        ensures frames { IfOk result (λ closed. closed.0.items ≡ map journaled self.frames) }
        ensures forest { IfOk result (λ closed. closed.1.forest ≡ record { trees = trees_of self; history = self.history }) }
        ensures waiting { IfOk result (λ closed. closed.1.waiting.items ≡ flat_map (λ (f : FrameRun). f.waiting) self.frames) }
        ensures stands { IfOk result (λ _. Stands self) }
    {
        let Core {
            seats,
            places: _,
            browser: _,
            readers: _,
            forest,
            alloc,
        } = self;
        let mut frames = Frames::new(alloc);
        let mut waiting: Vec<Packet> = Vec::new(alloc);
        for seat in seats {
            close_seat(seat, &mut frames, &mut waiting)?;
        }
        Ok((frames, ForestParts { forest, waiting }))
    }
}

/// Puts a frame and its packets behind those that are closed.
fn close_seat(seat: Seat, frames: &mut Frames, waiting: &mut Vec<Packet>) -> Result<(), NoMemory>
    ensures frame { OnOk result (frames.new.items ≡ frames.old.items ++ journaled seat ∷ []) }
    ensures packets { OnOk result (waiting.new.items ≡ waiting.old.items ++ seat.waiting) }
{
    let (frame, packets) = seat.into_parts();
    frames.push(frame)?;
    for packet in packets.into_vec() {
        waiting.push(packet)?;
    }
    Ok(())
}
