//! The nodes of a tree that name trees, and how they follow the tree.
ghost use Rattle.std.specs.Prelude.{◌≡◌, ℕ, List, IfOk, OnOk, true, false, nat_eq, if◌then◌else◌};
ghost use Rattle.std.specs.HashMap.{get};
ghost use Rattle.std.specs.FinMap as fin;
ghost use Rattle.ax_trees.specs.Lists.{contains};
ghost use Rattle.ax_tree.specs.Tree.{Tree, empty};
ghost use Rattle.ax_order.specs.Marks.{is_marked};
ghost use Rattle.ax_order.specs.Touched.{NamesChanges};
ghost use Rattle.ax_managers.specs.Naming.{named_at};
ghost use Rattle.ax_managers.specs.Indexes.{IsOf, IsSoundIndex, Settles};
ghost use Rattle.ax_managers.specs.Watching.{IsCalm};

use crate::contest::{Contest, hold_contest, host_in, name_in};
use ax_base::{Ids, NoMemory, NodeId, TreeId};
use ax_by_id::{ByNode, ByTree};
use ax_order::Marks;
use ax_tree::TreeView;
use std::alloc::Global;
use std::collections::HashMap;

/// The nodes of a tree that name trees.
#[derive(Drop)]
pub struct Index {
    /// Each of them, with the tree that it names.
    pub named: ByNode<TreeId>,
    /// Each named tree, with its host: the first node in pre-order that names it.
    pub hosts: ByTree<NodeId>,
    /// The nodes that name a tree beside its host.
    pub rivals: Ids,
    /// The rivals, the hosts that have some, and all ids above these.
    pub watched: Marks,
}

impl Index {
    /// The index of a tree without nodes.
    pub fn new(alloc: Global) -> Index
        ensures of { (t : ℕ) → IsOf (empty t) result }
        ensures sound { IsSoundIndex result }
    {
        Index {
            named: ByNode::new(alloc),
            hosts: ByTree::new(alloc),
            rivals: Ids::new(alloc),
            watched: HashMap::new(alloc),
        }
    }
}

/// Whether no watched id is touched, and the tree's root is watched where any id is. Then all nodes that name the same trees
/// stand as they stood to each other.
pub fn rests<T: TreeView>(watched: &Marks, t: &T, touched: &[NodeId]) -> bool
    ensures { result ≡ true → IsCalm (T.tree t.now) (is_marked (get nat_eq watched.now)) touched.now }
{
    if watched.is_empty() {
        return true;
    }
    let Some(root) = t.root() else {
        return false;
    };
    if watched.contains_key(&root) {
        return none_is_watched(watched, touched);
    }
    false
}

/// Whether none of the ids is watched.
fn none_is_watched(watched: &Marks, ids: &[NodeId]) -> bool
    ensures { result ≡ true → (z : ℕ) → contains ids.now z ≡ true → is_marked (get nat_eq watched.now) z ≡ false }
{
    for id in ids {
        if watched.contains_key(id) {
            return false;
        }
    }
    true
}

/// The index of this tree, which differs at touched ids alone from the one that `index` is of. Of these the renamed ones name
/// another tree now. The rivals and what is watched are found anew; the rest of the index is shared.
pub fn reindexed<T: TreeView>(
    alloc: Global,
    index: &Index,
    t: &T,
    renamed: &[NodeId],
) -> Result<Index, NoMemory>
    ensures of { IfOk result (λ next. (n : Tree) (touched : List ℕ) → IsOf n index.now → IsSoundIndex index.now → NamesChanges n (T.tree t.now) touched → ((z : ℕ) → contains touched z ≡ true → contains renamed.now z ≡ false → fin.get index.now.named z ≡ named_at (T.tree t.now) z) → IsOf (T.tree t.now) next) }
    ensures sound { IfOk result (λ next. IsSoundIndex index.now → IsSoundIndex next) }
{
    let _ = t.root();
    let contest = hold_contest(alloc, index, t, renamed)?;
    settled(index, renamed, contest)
}

/// The index with what a contest gave.
fn settled(index: &Index, renamed: &[NodeId], contest: Contest) -> Result<Index, NoMemory>
    ensures { IfOk result (λ next. Settles index.now next renamed.now contest) }
{
    let mut named = index.named.share()?;
    rename(&mut named, &contest.names, renamed)?;
    let mut hosts = index.hosts.share()?;
    rehost(&mut hosts, &contest.hosts, contest.trees.as_slice())?;
    Ok(Index {
        named,
        hosts,
        rivals: contest.rivals,
        watched: contest.watched,
    })
}

/// Puts in what the nodes name now.
fn rename(
    named: &mut ByNode<TreeId>,
    names: &HashMap<NodeId, TreeId>,
    ids: &[NodeId],
) -> Result<(), NoMemory>
    ensures { OnOk result ((z : ℕ) → fin.get named.new z ≡ (if contains ids.now z then get nat_eq names.now z else fin.get named.old z)) }
{
    for id in ids {
        rename_one(named, names, *id)?;
    }
    Ok(())
}

fn rename_one(
    named: &mut ByNode<TreeId>,
    names: &HashMap<NodeId, TreeId>,
    id: NodeId,
) -> Result<(), NoMemory>
    ensures { OnOk result ((z : ℕ) → fin.get named.new z ≡ (if nat_eq id z then get nat_eq names.now z else fin.get named.old z)) }
{
    match name_in(names, id) {
        Some(tree) => named.put(id, tree),
        None => named.take(id),
    }
}

/// Puts in the hosts that the trees have now.
fn rehost(
    hosts: &mut ByTree<NodeId>,
    now: &HashMap<TreeId, NodeId>,
    trees: &[TreeId],
) -> Result<(), NoMemory>
    ensures { OnOk result ((u : ℕ) → fin.get hosts.new u ≡ (if contains trees.now u then get nat_eq now.now u else fin.get hosts.old u)) }
{
    for tree in trees {
        rehost_one(hosts, now, *tree)?;
    }
    Ok(())
}

fn rehost_one(
    hosts: &mut ByTree<NodeId>,
    now: &HashMap<TreeId, NodeId>,
    tree: TreeId,
) -> Result<(), NoMemory>
    ensures { OnOk result ((u : ℕ) → fin.get hosts.new u ≡ (if nat_eq tree u then get nat_eq now.now u else fin.get hosts.old u)) }
{
    match host_in(now, tree) {
        Some(node) => hosts.put(tree, node),
        None => hosts.take(tree),
    }
}
