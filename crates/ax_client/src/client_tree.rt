//! The client tree and its calls.
ghost use Rattle.std.specs.Prelude.{◌≡◌, ◌≤◌, ◌+◌, [], false, None, Some, length, if◌then◌else◌, IfOk, IsTrue, OnErr, OnOk};
ghost use Rattle.ax_trees.specs.Trees.{bare, tree, has, root_of, IsTree};
ghost use Rattle.ax_trees.specs.Nodes.{below, chain, children, parent};
ghost use Rattle.ax_trees.specs.Changes.{with_node};
ghost use Rattle.ax_trees.specs.Lists.{first_that};
ghost use Rattle.ax_tree.specs.UpdateRule.{arranged, bad_child, first_repeated};

use crate::children::{exchange, swap_children};
use crate::held::Held;
use ax_base::{Ids, NoMemory, NodeId};
use std::alloc::Global;
use std::collections::HashMap;
use std::marker::Model;

/// What a serializer knows of its receiver: the ids that it has, with their child lists. It also has room for more ids,
/// and each call that adds some wants it: `reserve` is the one call that takes memory for them.
#[derive(Drop)]
pub struct ClientTree {
    held: HashMap<NodeId, Held>,
    root: Option<NodeId>,
    alloc: Global,
}

impl Model for ClientTree {
    ghost use Rattle.ax_client.specs.Known.{Known, coded_known};

    ghost Value = { Known };

    ghost coded = { coded_known };

    ghost use Rattle.std.specs.HashMap.{spare};
    ghost use Rattle.ax_client.specs.Known.{KeepsClient, client_in};

    ghost view = { λ c. record { tree = client_in c.held c.root; spare = spare c.held } };

    ghost invariant = { λ c. KeepsClient c.held c.root (client_in c.held c.root) };
}

impl ClientTree {
    /// The empty tree.
    pub fn new(alloc: Global) -> ClientTree
        ensures { result.tree ≡ bare }
    {
        ClientTree {
            held: HashMap::new(alloc),
            root: None,
            alloc,
        }
    }

    pub fn root(&self) -> Option<NodeId>
        ensures root { result ≡ root_of self.now.tree }
        ensures is_tree { IsTree self.now.tree }
    {
        self.root
    }

    pub fn holds(&self, id: NodeId) -> bool
        ensures { result ≡ has self.now.tree id }
    {
        self.held.contains_key(&id)
    }

    /// The id above an id.
    pub fn parent(&self, id: NodeId) -> Option<NodeId>
        ensures { result ≡ parent self.now.tree id }
    {
        match self.held.get(&id) {
            Some(entry) => entry.above,
            None => None,
        }
    }

    /// The children of an id, in order; none where it isn't held.
    pub fn children(&self, id: NodeId) -> &[NodeId]
        ensures { result.now ≡ children self.now.tree id }
    {
        match self.held.get(&id) {
            Some(entry) => entry.children.as_slice(),
            None => &[],
        }
    }

    /// The ids from the root to an id; `None` where it isn't held. Costs the depth.
    pub fn chain(&self, id: NodeId) -> Result<Option<Ids>, NoMemory>
        ensures { IfOk result (λ o. o ≡ (if has self.now.tree id then Some (chain self.now.tree id) else None)) }
    {
        let _ = self.root();
        if !self.holds(id) {
            return Ok(None);
        }
        let mut chain = Ids::new(self.alloc);
        let mut climbed = Ids::new(self.alloc);
        climbed.push(id)?;
        let mut at = id;
        while let Some(above) = self.parent(at) {
            climbed.push(above)?;
            at = above;
        }
        chain.push_reversed(&climbed)?;
        Ok(Some(chain))
    }

    /// Makes room for `more` ids.
    pub fn reserve(&mut self, more: usize) -> Result<(), NoMemory>
        ensures tree { self.new.tree ≡ self.old.tree }
        ensures ok { OnOk result (more ≤ self.new.spare) }
        ensures room { self.old.spare ≤ self.new.spare }
    {
        match self.held.reserve(more) {
            Ok(()) => Ok(()),
            Err(_) => Err(NoMemory),
        }
    }

    /// The tree is this root alone.
    pub fn start(&mut self, id: NodeId)
        requires { 1 ≤ self.old.spare }
        ensures tree { self.new.tree ≡ tree id tt bare bare }
        ensures room { self.old.spare ≤ self.new.spare + 1 }
    {
        self.held.clear();
        let root = Held {
            above: None,
            children: Ids::new(self.alloc),
        };
        match self.held.insert(id, root) {
            Ok(_) => {}
            Err(_) => unreachable!(),
        }
        self.root = Some(id);
    }

    /// Takes out all below an id. Linear in what goes.
    pub fn drop_below(&mut self, id: NodeId)
        requires { IsTrue (has self.old.tree id) }
        ensures tree { self.new.tree ≡ with_node self.old.tree id tt bare }
        ensures room { self.old.spare ≤ self.new.spare }
    {
        self.set_children(id, Ids::new(self.alloc));
    }

    /// Gives an id these children. Those that aren't listed any more go with all below them, and those that are new come as
    /// leaves. No id may repeat, and each must be a child already, or not be held, or stand below a child that goes. Compares
    /// the two lists, looks up those ids that the lists don't have in the same order, and costs what goes.
    pub fn set_children(&mut self, id: NodeId, children: Ids)
        requires there { IsTrue (has self.old.tree id) }
        requires once { first_repeated [] children ≡ None }
        requires good { first_that (bad_child (λ z. false) self.old.tree (record { id = id; known = tt; children = children })) children ≡ None }
        requires room { length children ≤ self.old.spare }
        ensures tree { self.new.tree ≡ with_node self.old.tree id tt (arranged tt children (below self.old.tree id)) }
        ensures room { self.old.spare ≤ self.new.spare + length children }
    {
        let old = swap_children(&mut self.held, id, Ids::new(self.alloc));
        exchange(
            &mut self.held,
            self.alloc,
            id,
            old.as_slice(),
            children.as_slice(),
        );
        let _ = swap_children(&mut self.held, id, children);
    }

    /// The empty tree. The room stays.
    pub fn clear(&mut self)
        ensures tree { self.new.tree ≡ bare }
        ensures room { self.old.spare ≤ self.new.spare }
    {
        self.held.clear();
        self.root = None;
    }
}
