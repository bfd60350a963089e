//! The value in a frame's turn.
ghost use Rattle.std.specs.Prelude.{◌≡◌, ◌⊎◌, ◌-◌, ◌∷◌, [], true, length, take, if◌then◌else◌, IfOk, OnErr, OnOk};
ghost use Rattle.ax_tree.specs.declared.packet.JEntry.TheVariants.{Marked, MarkedBelow, Passed, Short, Delivered};
ghost use Rattle.ax_tree.specs.Edits.{HasLeaf};
ghost use Rattle.ax_tree.specs.Journals.{frame_of, pending};
ghost use Rattle.ax_frame.specs.Frames.{KeepsFitting};
ghost use Rattle.ax_frame.specs.Passes.{is_nothing};
ghost use Rattle.ax_taken.specs.Taking.{cuts_of};
ghost use Rattle.ax_stays.specs.FrameCalls.{edit_entries, mark_entries, delivery_entries, grown, note_of, parcel_of, IsEditAnswer, IsMarkAnswer, IsMade, FitsWith};

use crate::parcel::Parcel;
use ax_ask::{MadeNote, UpdateNotes};
use ax_base::{NoMemory, NodeId, Seq, Token, TreeId};
use ax_frame::{Frame, PassOut};
use ax_tree::{Edit, EditErr, JEntry, MarkErr, Packet};
use ax_turn::Kept;
use std::alloc::Global;
use std::marker::Model;

/// A frame, as its turn keeps it: the frame's seat makes all entries of its journal but the deliveries, and the browser's
/// seat makes those.
#[derive(Drop)]
pub struct FrameRound {
    frame: Frame,
    /// For each packet that was made, how many entries stand up to and with the pass that made it.
    made: Made,
}

/// For each packet of a frame, how many entries of its journal stand up to and with the pass that made it.
pub type Made = Seq<usize>;

impl Model for FrameRound {
    ghost use Rattle.std.specs.Prelude.{◌≡◌};
    ghost use Rattle.ax_frame.specs.Frames.{Journaled, coded_journaled};
    ghost use Rattle.ax_taken.specs.Taking.{cuts_of};

    ghost Value = { Journaled };

    ghost coded = { coded_journaled };

    ghost view = { λ round. round.frame };

    ghost invariant = { λ round. round.made ≡ cuts_of round.frame.tree round.frame.journal };
}

impl Kept for FrameRound {
    ghost use Rattle.std.specs.Prelude.{[], ◌∷◌};
    ghost use Rattle.ax_stays.specs.Makers.{maker_of};

    type Entry = JEntry;

    ghost entries = { λ frame. frame.journal };

    ghost maker = { maker_of };

    ghost name = { λ frame. frame.tree ∷ [] };
}

impl FrameRound {
    pub fn new(alloc: Global, tree: TreeId) -> FrameRound
        ensures { result ≡ record { tree = tree; journal = [] } }
    {
        FrameRound {
            frame: Frame::new(alloc, tree),
            made: Made::new(alloc),
        }
    }

    pub(crate) fn edit(&mut self, e: &Edit) -> Result<(), EditErr>
        requires { HasLeaf e.now }
        ensures grown { self.new ≡ grown (edit_entries e.now result) self.old }
        ensures answer { IsEditAnswer self.old.tree e.now result self.old.journal }
        ensures fits { KeepsFitting self.old self.new }
    {
        self.frame.edit(e)
    }

    pub(crate) fn mark(&mut self, id: NodeId) -> Result<(), MarkErr>
        ensures grown { self.new ≡ grown (mark_entries (Marked id) result) self.old }
        ensures answer { IsMarkAnswer self.old.tree id result self.old.journal }
        ensures fits { KeepsFitting self.old self.new }
    {
        self.frame.mark(id)
    }

    pub(crate) fn mark_below(&mut self, id: NodeId) -> Result<(), MarkErr>
        ensures grown { self.new ≡ grown (mark_entries (MarkedBelow id) result) self.old }
        ensures answer { IsMarkAnswer self.old.tree id result self.old.journal }
        ensures fits { KeepsFitting self.old self.new }
    {
        self.frame.mark_below(id)
    }

    pub(crate) fn deliver(&mut self, n: Token) -> Result<(), NoMemory>
        ensures { self.new ≡ grown (delivery_entries n result) self.old }
    {
        self.frame.deliver(n)
    }

    /// The parcel of a pass, where there is something to send.
    pub(crate) fn pass(&mut self) -> Result<Option<Parcel>, NoMemory>
        ensures made { IfOk result (λ made. IsMade self.old.tree made self.old.journal) }
        ensures passed { OnOk result (self.new ≡ grown (Passed ∷ []) self.old) }
        ensures broken { OnErr result ((self.new ≡ grown [] self.old) ⊎ ((pending (frame_of self.old.tree self.old.journal) ≡ true) × (self.new ≡ grown (Short ∷ []) self.old))) }
        ensures fits { FitsWith self.old result self.new }
    {
        // More entries than `usize` counts want more memory than there is.
        let Some(place) = self.frame.journal().len().checked_add(1) else {
            return Err(NoMemory);
        };
        self.made.push(place)?;
        match self.frame.pass() {
            Ok(out) => {
                keep_place(&mut self.made, &out);
                Ok(parcel_of(out))
            }
            Err(NoMemory) => {
                drop_last(&mut self.made);
                Err(NoMemory)
            }
        }
    }

    /// The frame, and the places of the passes that made its packets.
    pub fn into_parts(self) -> (Frame, Made)
        ensures frame { result.0 ≡ self }
        ensures made { result.1 ≡ cuts_of self.tree self.journal }
    {
        let FrameRound { frame, made } = self;
        (frame, made)
    }
}

/// The last place stays where the pass made a packet.
fn keep_place(made: &mut Made, out: &PassOut)
    ensures { made.new ≡ (if is_nothing out.now then take (length made.old - 1) made.old else made.old) }
{
    match out {
        PassOut::Nothing => drop_last(made),
        PassOut::Made { .. } => {}
    }
}

fn drop_last(made: &mut Made)
    ensures { made.new ≡ take (length made.old - 1) made.old }
{
    let len = made.len();
    if len > 0 {
        made.truncate(len - 1);
    }
}

fn parcel_of(out: PassOut) -> Option<Parcel>
    ensures { result ≡ parcel_of out }
{
    match out {
        PassOut::Nothing => None,
        PassOut::Made {
            packet,
            resumed,
            updates,
        } => {
            let note = note_of(&packet, resumed, updates);
            Some(Parcel { packet, note })
        }
    }
}

fn note_of(packet: &Packet, resumed: bool, updates: UpdateNotes) -> MadeNote
    ensures { result ≡ record { pass = packet.now.pass; base = packet.now.base; token = packet.now.token; resumed = resumed; updates = updates } }
{
    MadeNote {
        pass: packet.pass,
        base: packet.base,
        token: packet.token,
        resumed,
        updates,
    }
}
