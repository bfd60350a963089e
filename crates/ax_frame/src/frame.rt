//! The frame and its calls.
ghost use Rattle.std.specs.Prelude.{◌≡◌, ◌⊎◌, ◌-◌, ◌∷◌, ◌++◌, [], if◌then◌else◌, length, map, not, take, true, IfErr, IfOk, IsTrue, None, Some, OnErr, OnOk};
ghost use Rattle.ax_trees.specs.Trees.{has};
ghost use Rattle.ax_source.specs.Source.{IsMarkRefusal};
ghost use Rattle.ax_tree.specs.declared.edit.EditErr.TheVariants as errors;
ghost use Rattle.ax_tree.specs.declared.edit.MarkErr.TheVariants as marks;
ghost use Rattle.ax_tree.specs.declared.packet.JEntry.TheVariants as entries;
ghost use Rattle.ax_tree.specs.Edits.{refusal, HasLeaf};
ghost use Rattle.ax_tree.specs.Journals.{frame_of, is_short, pending};
ghost use Rattle.ax_tree.specs.Packets.{Fits};
ghost use Rattle.ax_run_rules.specs.FrameSteps.{update_note};
ghost use Rattle.ax_frame.specs.Frames.{edit_answered, is_no_memory, lacks_memory, mark_answered, with_entry, KeepsFitting};
ghost use Rattle.ax_frame.specs.Passes.{is_nothing, IfMade, IsPass, PassFits};

use crate::passing::{PassOut, send_bundle};
use ax_base::{NoMemory, NodeId, PassNo, Seq, Token, TreeId};
use ax_serializer::Serializer;
use ax_source::SourceTree;
use ax_tree::{Edit, EditErr, JEntry, Journal, MarkErr, Packet, Slip, TreeUpdate, TreeView};
use std::alloc::Global;
use std::marker::Model;

/// A frame of a tree. It is seen as its journal: what it has answered, in order.
#[derive(Drop)]
pub struct Frame {
    tree: TreeId,
    source: SourceTree,
    serializer: Serializer,
    /// An update that couldn't be kept for want of memory.
    back: Option<TreeUpdate>,
    journal: Journal,
    slip: Slip,
    passes: u64,
    token: u64,
    short: bool,
    alloc: Global,
}

impl Model for Frame {
    ghost use Rattle.ax_frame.specs.Frames.{Journaled, coded_journaled};

    ghost Value = { Journaled };

    ghost coded = { coded_journaled };

    ghost use Rattle.ax_tree.specs.Journals.{frame_of};
    ghost use Rattle.ax_frame.specs.Frames.{HoldsFrame, all_kept};

    ghost view = { λ a. record { tree = a.tree; journal = a.journal } };

    ghost invariant = { λ a. HoldsFrame (frame_of a.tree a.journal) a.source a.serializer.client (all_kept a.serializer.kept a.back) a.slip a.passes a.token a.short };
}

impl Frame {
    /// A frame that has answered nothing: its source is empty, and so is its receiver.
    pub fn new(alloc: Global, tree: TreeId) -> Frame
        ensures new { result ≡ record { tree = tree; journal = [] } }
        ensures fits { Fits result.tree result.journal [] }
    {
        Frame {
            tree,
            source: SourceTree::new(alloc, tree),
            serializer: Serializer::new(alloc),
            back: None,
            journal: Journal::new(alloc),
            slip: Slip::new(alloc),
            passes: 0,
            token: 0,
            short: false,
            alloc,
        }
    }

    pub fn tree(&self) -> TreeId
        ensures { result ≡ self.now.tree }
    {
        self.tree
    }

    /// The source of the journal.
    pub fn source(&self) -> &SourceTree
        ensures tree { result.now.tree ≡ (frame_of self.now.tree self.now.journal).source }
        ensures flag { result.now.changed ≡ (frame_of self.now.tree self.now.journal).flag }
    {
        &self.source
    }

    /// How many passes made a packet.
    pub fn passes(&self) -> PassNo
        ensures { result.0 ≡ (frame_of self.now.tree self.now.journal).passes }
    {
        PassNo(self.passes)
    }

    /// The last delivered token.
    pub fn token(&self) -> Token
        ensures { result.0 ≡ (frame_of self.now.tree self.now.journal).token }
    {
        Token(self.token)
    }

    pub fn journal(&self) -> &Journal
        ensures { result.now ≡ self.now.journal }
    {
        &self.journal
    }

    /// Whether a pass has run out of memory since the last packet and the last delivery.
    pub fn short(&self) -> bool
        ensures { result ≡ is_short self.now.tree self.now.journal }
    {
        self.short
    }

    /// Whether a pass would send something.
    pub fn pending(&self) -> bool
        ensures { result ≡ pending (frame_of self.now.tree self.now.journal) }
    {
        if self.source.root().is_none() {
            return false;
        }
        if self.serializer.client().root().is_none() {
            return true;
        }
        if !self.source.marks().is_empty() {
            return true;
        }
        if self.source.data_changed() {
            return true;
        }
        if self.serializer.kept() > 0 {
            return true;
        }
        self.back.is_some()
    }

    /// Makes an edit of the source. It costs what it costs there, and two copies of the edit. Want of memory may come before
    /// a refusal is known.
    pub fn edit(&mut self, e: &Edit) -> Result<(), EditErr>
        requires { HasLeaf e.now }
        ensures after { self.new ≡ edit_answered e.now result self.old }
        ensures allowed { OnOk result (refusal e.now (frame_of self.old.tree self.old.journal).source ≡ None) }
        ensures refused { IfErr result (λ x. (x ≡ errors.NoMemory) ⊎ (refusal e.now (frame_of self.old.tree self.old.journal).source ≡ Some x)) }
        ensures fits { KeepsFitting self.old self.new }
    {
        if enter_edit(self.alloc, &mut self.journal, &mut self.slip, e).is_err() {
            return Err(EditErr::NoMemory);
        }
        match self.source.edit(e) {
            Ok(()) => Ok(()),
            Err(refusal) => {
                drop_last(&mut self.slip);
                if is_no_memory(&refusal) {
                    drop_last(&mut self.journal);
                    return Err(EditErr::NoMemory);
                }
                Err(refusal)
            }
        }
    }

    /// Marks a node of the source. Want of memory may come before a refusal is known.
    pub fn mark(&mut self, id: NodeId) -> Result<(), MarkErr>
        ensures after { self.new ≡ mark_answered (entries.Marked id) result self.old }
        ensures there { OnOk result (IsTrue (has (frame_of self.old.tree self.old.journal).source.trees id)) }
        ensures refused { IfErr result (λ x. (x ≡ marks.NoMemory) ⊎ IsMarkRefusal (frame_of self.old.tree self.old.journal).source.trees id x) }
        ensures fits { KeepsFitting self.old self.new }
    {
        if self.journal.push(JEntry::Marked(id)).is_err() {
            return Err(MarkErr::NoMemory);
        }
        match self.source.mark(id) {
            Ok(()) => Ok(()),
            Err(refusal) => {
                if lacks_memory(&refusal) {
                    drop_last(&mut self.journal);
                    return Err(MarkErr::NoMemory);
                }
                Err(refusal)
            }
        }
    }

    /// Marks a node of the source and all below it. Want of memory may come before a refusal is known.
    pub fn mark_below(&mut self, id: NodeId) -> Result<(), MarkErr>
        ensures after { self.new ≡ mark_answered (entries.MarkedBelow id) result self.old }
        ensures there { OnOk result (IsTrue (has (frame_of self.old.tree self.old.journal).source.trees id)) }
        ensures refused { IfErr result (λ x. (x ≡ marks.NoMemory) ⊎ IsMarkRefusal (frame_of self.old.tree self.old.journal).source.trees id x) }
        ensures fits { KeepsFitting self.old self.new }
    {
        if self.journal.push(JEntry::MarkedBelow(id)).is_err() {
            return Err(MarkErr::NoMemory);
        }
        match self.source.mark_below(id) {
            Ok(()) => Ok(()),
            Err(refusal) => {
                if lacks_memory(&refusal) {
                    drop_last(&mut self.journal);
                    return Err(MarkErr::NoMemory);
                }
                Err(refusal)
            }
        }
    }

    /// Sends what has changed. Room for the entry in the journal comes first: where that is refused, nothing is changed.
    /// After a later want of memory the updates that were made are kept, their marks are gone and the entry is `Short`; the
    /// next pass completes the bundle. It costs the sum of its updates.
    pub fn pass(&mut self) -> Result<PassOut, NoMemory>
        ensures nothing { IfOk result (λ out. is_nothing out ≡ not (pending (frame_of self.old.tree self.old.journal))) }
        ensures packet { IfOk result (λ out. IfMade out (λ packet resumed updates. IsPass self.old.tree (frame_of self.old.tree self.old.journal) packet)) }
        ensures resumed { IfOk result (λ out. IfMade out (λ packet resumed updates. resumed ≡ is_short self.old.tree self.old.journal)) }
        ensures notes { IfOk result (λ out. IfMade out (λ packet resumed updates. updates ≡ map update_note packet.bundle)) }
        ensures passed { OnOk result (self.new ≡ with_entry entries.Passed self.old) }
        ensures broken { OnErr result ((self.new ≡ self.old) ⊎ ((pending (frame_of self.old.tree self.old.journal) ≡ true) × (self.new ≡ with_entry entries.Short self.old))) }
        ensures still_pending { OnErr result (pending (frame_of self.new.tree self.new.journal) ≡ pending (frame_of self.old.tree self.old.journal)) }
        ensures fits { PassFits self.old result self.new }
    {
        if !self.pending() {
            self.journal.push(JEntry::Passed)?;
            return Ok(PassOut::Nothing);
        }
        // More than 2^64 passes want more memory than there is.
        let Some(pass) = self.passes.checked_add(1) else {
            return Err(NoMemory);
        };
        let entry = self.journal.len();
        self.journal.push(JEntry::Short)?;
        let Ok(sent) = send_bundle(
            self.alloc,
            &mut self.serializer,
            &mut self.source,
            &mut self.back,
        ) else {
            self.short = true;
            return Err(NoMemory);
        };
        self.journal.set(entry, JEntry::Passed);
        let packet = Packet {
            tree: self.tree,
            pass: PassNo(pass),
            base: base_of(sent.fresh, self.passes),
            token: Token(self.token),
            slip: std::mem::replace(&mut self.slip, Slip::new(self.alloc)),
            bundle: sent.bundle,
        };
        let made = PassOut::Made {
            packet,
            resumed: self.short,
            updates: sent.updates,
        };
        self.passes = pass;
        self.short = false;
        Ok(made)
    }

    /// Tells the frame a token. Its receiver then has nothing. The marks stay.
    pub fn deliver(&mut self, n: Token) -> Result<(), NoMemory>
        ensures ok { OnOk result (self.new ≡ with_entry (entries.Delivered n) self.old) }
        ensures err { OnErr result (self.new ≡ self.old) }
        ensures fits { KeepsFitting self.old self.new }
    {
        self.journal.push(JEntry::Delivered(n))?;
        self.token = n.0;
        self.short = false;
        self.back = None;
        self.serializer.reset();
        Ok(())
    }
}

fn is_no_memory(refusal: &EditErr) -> bool
    ensures { result ≡ is_no_memory refusal.now }
{
    match refusal {
        EditErr::NoMemory => true,
        _ => false,
    }
}

fn lacks_memory(refusal: &MarkErr) -> bool
    ensures { result ≡ lacks_memory refusal.now }
{
    match refusal {
        MarkErr::NoMemory => true,
        MarkErr::UnknownNode(_) => false,
    }
}

/// The pass upon which a bundle stands, 0 where it begins from an empty receiver.
fn base_of(fresh: bool, passes: u64) -> PassNo
    ensures { result.0 ≡ (if fresh then 0 else passes) }
{
    if fresh {
        return PassNo(0);
    }
    PassNo(passes)
}

/// Puts an edit at the end of both lists, or of none.
fn enter_edit(
    alloc: Global,
    journal: &mut Journal,
    slip: &mut Slip,
    e: &Edit,
) -> Result<(), NoMemory>
    ensures journal { OnOk result (journal.new ≡ journal.old ++ entries.Edited e.now ∷ []) }
    ensures slip { OnOk result (slip.new ≡ slip.old ++ e.now ∷ []) }
    ensures no_journal { OnErr result (journal.new ≡ journal.old) }
    ensures no_slip { OnErr result (slip.new ≡ slip.old) }
{
    let entry = e.copy(alloc)?;
    let slipped = e.copy(alloc)?;
    journal.push(JEntry::Edited(entry))?;
    match slip.push(slipped) {
        Ok(()) => Ok(()),
        Err(_) => {
            drop_last(journal);
            Err(NoMemory)
        }
    }
}

/// Takes the last item out.
fn drop_last<X: Drop>(items: &mut Seq<X>)
    ensures { items.new ≡ take (length items.old - 1) items.old }
{
    let len = items.len();
    if len > 0 {
        items.truncate(len - 1);
    }
}
