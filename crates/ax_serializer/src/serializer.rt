//! The serializer and its calls.
ghost use Rattle.std.specs.Prelude.{◌≡◌, ◌≤◌, ◌++◌, ◌∷◌, ◌||◌, [], false, length, map, IfErr, IfOk, IsTrue, OnErr, OnOk};
ghost use Rattle.ax_trees.specs.Trees.{bare, has, height};
ghost use Rattle.ax_tree.specs.Serialised.{client_after_update, marks_after_update, update_of, with_tree_data};
ghost use Rattle.ax_tree.specs.Updates.{nodes_part};
ghost use Rattle.ax_serializer.specs.Sending.{is_fresh, left_after, IsSerRefusal};

use crate::bundling::{is_fresh, with_data_last, without_data};
use crate::following::{begin, child_lists, follow, room_for};
use crate::updating::update_at;
use ax_base::{NoMemory, NodeId};
use ax_client::ClientTree;
use ax_node::NodeData;
use ax_source::SourceTree;
use ax_tree::{Bundle, Nodes, TreeUpdate, TreeView};
use std::alloc::Global;
use std::marker::Model;

/// Why there is no update.
#[derive(Clone, Copy, Debug, PartialEq, Eq)]
pub enum SerErr {
    UnknownNode(NodeId),
    NoMemory,
}

/// Makes the updates that a receiver wants. It knows the receiver's ids and child lists, and keeps the updates of a bundle
/// until the bundle is whole.
#[derive(Drop)]
pub struct Serializer {
    client: ClientTree,
    kept: Vec<TreeUpdate>,
    alloc: Global,
}

impl Model for Serializer {
    ghost use Rattle.ax_serializer.specs.Sending.{Sending, coded_sending};

    ghost Value = { Sending };

    ghost coded = { coded_sending };

    ghost use Rattle.std.specs.Prelude.{◌≤◌};
    ghost use Rattle.ax_trees.specs.Trees.{height};

    ghost view = { λ s. record { client = s.client.tree; kept = s.kept.items } };

    ghost invariant = { λ s. height s.client.tree ≤ 256 };
}

impl Serializer {
    /// For a receiver that has nothing.
    pub fn new(alloc: Global) -> Serializer
        ensures { result ≡ record { client = bare; kept = [] } }
    {
        Serializer {
            client: ClientTree::new(alloc),
            kept: Vec::new(alloc),
            alloc,
        }
    }

    /// What is known of the receiver.
    pub fn client(&self) -> &ClientTree
        ensures { result.now.tree ≡ self.now.client }
    {
        &self.client
    }

    /// How many updates are kept.
    pub fn kept(&self) -> usize
        ensures { result ≡ length self.now.kept }
    {
        self.kept.len()
    }

    /// The kept updates, in order.
    pub fn kept_updates(&self) -> &[TreeUpdate]
        ensures { result.now ≡ self.now.kept }
    {
        self.kept.as_slice()
    }

    /// Whether the bundle at hand begins from an empty client: its first update names a root and clears nothing.
    pub fn is_fresh(&self) -> bool
        ensures { result ≡ is_fresh self.now.kept }
    {
        is_fresh(self.kept.as_slice())
    }

    /// The update at `d`. The receiver has it then, and `d` and all listed ids lose their marks. All memory is taken first, so
    /// want of memory changes nothing. Costs the update times the depth.
    pub fn serialize_changes(&mut self, s: &mut SourceTree, d: NodeId) -> Result<TreeUpdate, SerErr>
        ensures update { IfOk result (λ u. u ≡ update_of self.old.client s.old.tree s.old.marks d) }
        ensures client { OnOk result (self.new ≡ record self.old { client = client_after_update self.old.client (update_of self.old.client s.old.tree s.old.marks d) }) }
        ensures marks { OnOk result (s.new ≡ record s.old { marks = marks_after_update (update_of self.old.client s.old.tree s.old.marks d) d s.old.marks }) }
        ensures there { OnOk result (IsTrue (has s.old.tree.trees d)) }
        ensures refused { IfErr result (λ e. IsSerRefusal s.old.tree.trees d e) }
        ensures unchanged { OnErr result (self.new ≡ self.old) }
        ensures source { OnErr result (s.new ≡ s.old) }
    {
        if s.node(d).is_none() {
            return Err(SerErr::UnknownNode(d));
        }
        match self.serialize(s, d) {
            Ok(update) => Ok(update),
            Err(_) => Err(SerErr::NoMemory),
        }
    }

    fn serialize(&mut self, s: &mut SourceTree, d: NodeId) -> Result<TreeUpdate, NoMemory>
        requires { IsTrue (has s.old.tree.trees d) }
        ensures update { IfOk result (λ u. u ≡ update_of self.old.client s.old.tree s.old.marks d) }
        ensures client { OnOk result (self.new ≡ record self.old { client = client_after_update self.old.client (update_of self.old.client s.old.tree s.old.marks d) }) }
        ensures marks { OnOk result (s.new ≡ record s.old { marks = marks_after_update (update_of self.old.client s.old.tree s.old.marks d) d s.old.marks }) }
        ensures unchanged { OnErr result (self.new ≡ self.old) }
        ensures source { OnErr result (s.new ≡ s.old) }
    {
        let _ = s.root();
        let _ = self.client.root();
        let update = update_at(self.alloc, s, &self.client, s.marks(), d)?;
        let lists = child_lists(self.alloc, update.nodes.as_slice())?;
        let room = room_for(lists.as_slice())?;
        self.client.reserve(room)?;
        begin(&mut self.client, update.root, update.clear);
        follow(&mut self.client, lists);
        unmark_listed(s, update.nodes.as_slice());
        s.unmark(d);
        Ok(update)
    }

    /// Keeps an update of the bundle at hand. It comes back where there is no memory.
    pub fn keep(&mut self, update: TreeUpdate) -> Result<(), (NoMemory, TreeUpdate)>
        ensures ok { OnOk result (self.new ≡ record self.old { kept = self.old.kept ++ update ∷ [] }) }
        ensures back { IfErr result (λ e. e.1 ≡ update) }
        ensures unchanged { OnErr result (self.new ≡ self.old) }
    {
        match self.kept.push(update) {
            Ok(()) => Ok(()),
            Err(failed) => Err((NoMemory, failed.value)),
        }
    }

    /// The bundle of the kept updates, and whether it began from an empty client. Tree data ride on the last update where they
    /// were changed or the bundle is fresh; where there is no update, they come alone. None is kept then, and the flag of
    /// changed tree data is clear.
    pub fn finish_bundle(&mut self, s: &mut SourceTree) -> Result<(Bundle, bool), NoMemory>
        ensures bundle { IfOk result (λ p. p.0 ≡ with_tree_data (s.old.changed || is_fresh self.old.kept) s.old.tree.about (map nodes_part self.old.kept)) }
        ensures fresh { IfOk result (λ p. p.1 ≡ is_fresh self.old.kept) }
        ensures ok { OnOk result (self.new ≡ record self.old { kept = [] }) }
        ensures sent { OnOk result (s.new ≡ record s.old { changed = false }) }
        ensures unchanged { OnErr result (self.new ≡ self.old) }
        ensures source { OnErr result (s.new ≡ s.old) }
    {
        let fresh = is_fresh(self.kept.as_slice());
        if !s.data_changed() && !fresh {
            let kept = std::mem::replace(&mut self.kept, Vec::new(self.alloc));
            s.data_sent();
            return Ok((without_data(kept), fresh));
        }
        let data = s.tree_data().copy()?;
        if self.kept.is_empty() {
            let mut bundle = Bundle::new(self.alloc);
            bundle.push(TreeUpdate {
                clear: None,
                root: None,
                nodes: Nodes::new(self.alloc),
                tree_data: Some(data),
            })?;
            s.data_sent();
            return Ok((bundle, fresh));
        }
        let kept = std::mem::replace(&mut self.kept, Vec::new(self.alloc));
        s.data_sent();
        Ok((with_data_last(kept, data), fresh))
    }

    /// The receiver has nothing, and no update is kept.
    pub fn reset(&mut self)
        ensures { self.new ≡ record { client = bare; kept = [] } }
    {
        self.client.clear();
        self.kept.clear();
    }
}

/// Takes the marks of all listed nodes out.
fn unmark_listed(s: &mut SourceTree, nodes: &[NodeData])
    ensures { s.new ≡ record s.old { marks = left_after nodes.now s.old.marks } }
{
    for node in nodes {
        s.unmark(node.id);
    }
}
