//! Which nodes are the hosts of those trees that touched nodes named or name now, or that several nodes name.
//!
//! All nodes that name such a tree are known: the touched ones, the trees' hosts, and the rivals. They alone are put into
//! pre-order, and the first one to name a tree is its host. Rivals and the hosts that have some are watched from then on,
//! with all ids above them.
ghost use Rattle.std.specs.Prelude.{◌≡◌, ◌++◌, ◌||◌, ◌↔◌, ℕ, true, false, filter, filter_map, IfOk, IsTrue, OnOk, Some, nat_eq, if◌then◌else◌};
ghost use Rattle.std.specs.HashMap.{get};
ghost use Rattle.std.specs.FinMap as fin;
ghost use Rattle.ax_trees.specs.Trees.{has};
ghost use Rattle.ax_trees.specs.Lists.{contains, first_that};
ghost use Rattle.ax_trees.specs.Spots.{or_else};
ghost use Rattle.ax_order.specs.Marks.{IsMarking, is_marked};
ghost use Rattle.ax_managers.specs.Naming.{named_at, is_id};
ghost use Rattle.ax_managers.specs.Contests.{IsContest, is_rival, trees_asked};

use crate::index::Index;
use crate::naming::named_at;
use ax_base::{Ids, NoMemory, NodeId, Seq, TreeId};
use ax_by_id::{ByNode, ByTree};
use ax_order::{Marks, in_order, marks_of};
use ax_tree::{Touched, TreeView};
use std::alloc::Global;
use std::collections::HashMap;

/// What some trees' hosts are now.
#[derive(Drop)]
pub struct Contest {
    /// The trees.
    pub trees: Seq<TreeId>,
    /// The nodes that name one of them, with the tree that each names.
    pub names: HashMap<NodeId, TreeId>,
    /// The first node in pre-order that names a tree.
    pub hosts: HashMap<TreeId, NodeId>,
    /// The nodes that aren't the first to name their tree.
    pub rivals: Ids,
    /// The rivals, the hosts that have some, and all ids above these.
    pub watched: Marks,
}

/// Those of the touched ids that name another tree than is known of them.
pub fn renamed_among<T: TreeView>(
    alloc: Global,
    known: &ByNode<TreeId>,
    t: &T,
    touched: &[NodeId],
) -> Result<Ids, NoMemory>
    ensures { IfOk result (λ renamed. (z : ℕ) → contains touched.now z ≡ true → contains renamed z ≡ false → fin.get known.now z ≡ named_at (T.tree t.now) z) }
{
    let mut renamed = Ids::new(alloc);
    for id in touched {
        add_renamed(&mut renamed, known, t, *id)?;
    }
    Ok(renamed)
}

/// Adds an id that names another tree than is known of it.
fn add_renamed<T: TreeView>(
    renamed: &mut Ids,
    known: &ByNode<TreeId>,
    t: &T,
    id: NodeId,
) -> Result<(), NoMemory>
    ensures grows { OnOk result ((z : ℕ) → contains renamed.old z ≡ true → contains renamed.new z ≡ true) }
    ensures same { OnOk result (contains renamed.new id ≡ false → fin.get known.now id ≡ named_at (T.tree t.now) id) }
{
    if is_named(known, id, named_at(t, id)) {
        return Ok(());
    }
    renamed.push(id)?;
    Ok(())
}

/// Whether the node of the id names this tree, or none, by what is known.
fn is_named(known: &ByNode<TreeId>, id: NodeId, tree: Option<TreeId>) -> bool
    ensures { IsTrue result ↔ (fin.get known.now id ≡ tree) }
{
    match known.get(id) {
        Some(known) => tree == Some(*known),
        None => tree.is_none(),
    }
}

/// The contest for the trees that renamed nodes or rivals named or name now.
pub fn hold_contest<T: TreeView>(
    alloc: Global,
    index: &Index,
    t: &T,
    renamed: &[NodeId],
) -> Result<Contest, NoMemory>
    ensures { IfOk result (IsContest index.now (T.tree t.now) renamed.now) }
{
    let trees = trees_asked(alloc, index, t, renamed)?;
    let nodes = contenders(alloc, index, renamed, trees.as_slice())?;
    let names = names_of(alloc, &index.named, t, nodes.as_slice(), renamed)?;
    let ordered = in_order(alloc, t, nodes.as_slice())?;
    let hosts = firsts_of(alloc, &names, ordered.as_slice())?;
    let rivals = rivals_of(alloc, &names, &hosts, nodes.as_slice())?;
    let watched = watched_of(alloc, t, &names, &hosts, rivals.as_slice())?;
    Ok(Contest {
        trees,
        names,
        hosts,
        rivals,
        watched,
    })
}

/// The trees that renamed nodes or rivals named or name now.
fn trees_asked<T: TreeView>(
    alloc: Global,
    index: &Index,
    t: &T,
    renamed: &[NodeId],
) -> Result<Seq<TreeId>, NoMemory>
    ensures { IfOk result (λ trees. trees ≡ trees_asked index.now (T.tree t.now) renamed.now) }
{
    let mut trees = Seq::new(alloc);
    add_known(&mut trees, &index.named, renamed)?;
    add_known(&mut trees, &index.named, index.rivals.as_slice())?;
    add_named(&mut trees, t, renamed)?;
    Ok(trees)
}

/// Adds the trees that the nodes are known to name.
fn add_known(
    trees: &mut Seq<TreeId>,
    known: &ByNode<TreeId>,
    ids: &[NodeId],
) -> Result<(), NoMemory>
    ensures { OnOk result (trees.new ≡ trees.old ++ filter_map (fin.get known.now) ids.now) }
{
    for id in ids {
        match known_name(known, *id) {
            Some(tree) => trees.push(tree)?,
            None => {}
        }
    }
    Ok(())
}

/// Adds the trees that the nodes name.
fn add_named<T: TreeView>(trees: &mut Seq<TreeId>, t: &T, ids: &[NodeId]) -> Result<(), NoMemory>
    ensures { OnOk result (trees.new ≡ trees.old ++ filter_map (named_at (T.tree t.now)) ids.now) }
{
    for id in ids {
        match named_at(t, *id) {
            Some(tree) => trees.push(tree)?,
            None => {}
        }
    }
    Ok(())
}

/// All nodes that may be the hosts of the trees: the renamed nodes, the rivals, and those that are hosts of them.
fn contenders(
    alloc: Global,
    index: &Index,
    renamed: &[NodeId],
    trees: &[TreeId],
) -> Result<Touched, NoMemory>
    ensures { IfOk result (λ nodes. (z : ℕ) → contains nodes z ≡ (contains renamed.now z || (contains index.now.rivals z || contains (filter_map (fin.get index.now.hosts) trees.now) z))) }
{
    let mut nodes = Touched::new(alloc);
    add_all(&mut nodes, renamed)?;
    add_all(&mut nodes, index.rivals.as_slice())?;
    let hosts = known_hosts(alloc, &index.hosts, trees)?;
    add_all(&mut nodes, hosts.as_slice())?;
    Ok(nodes)
}

fn add_all(nodes: &mut Touched, ids: &[NodeId]) -> Result<(), NoMemory>
    ensures { OnOk result ((z : ℕ) → contains nodes.new z ≡ (contains nodes.old z || contains ids.now z)) }
{
    for id in ids {
        nodes.push(*id)?;
    }
    Ok(())
}

/// The known hosts of the trees.
fn known_hosts(alloc: Global, known: &ByTree<NodeId>, trees: &[TreeId]) -> Result<Ids, NoMemory>
    ensures { IfOk result (λ hosts. hosts ≡ filter_map (fin.get known.now) trees.now) }
{
    let mut hosts = Ids::new(alloc);
    for tree in trees {
        match known_host(known, *tree) {
            Some(node) => hosts.push(node)?,
            None => {}
        }
    }
    Ok(hosts)
}

fn known_host(known: &ByTree<NodeId>, tree: TreeId) -> Option<NodeId>
    ensures { result ≡ fin.get known.now tree }
{
    match known.get(tree) {
        Some(node) => Some(*node),
        None => None,
    }
}

/// What the nodes name now: the renamed ones by the tree, the others as is known.
fn names_of<T: TreeView>(
    alloc: Global,
    known: &ByNode<TreeId>,
    t: &T,
    nodes: &[NodeId],
    renamed: &[NodeId],
) -> Result<HashMap<NodeId, TreeId>, NoMemory>
    ensures { IfOk result (λ names. (z : ℕ) → get nat_eq names z ≡ (if contains renamed.now z then named_at (T.tree t.now) z else (if contains nodes.now z then fin.get known.now z else None))) }
{
    let mut names = HashMap::new(alloc);
    for id in nodes {
        put_name(&mut names, *id, known_name(known, *id))?;
    }
    put_names(&mut names, t, renamed)?;
    Ok(names)
}

fn known_name(known: &ByNode<TreeId>, id: NodeId) -> Option<TreeId>
    ensures { result ≡ fin.get known.now id }
{
    match known.get(id) {
        Some(tree) => Some(*tree),
        None => None,
    }
}

/// The tree that the node names, by these names.
pub fn name_in(names: &HashMap<NodeId, TreeId>, id: NodeId) -> Option<TreeId>
    ensures { result ≡ get nat_eq names.now id }
{
    match names.get(&id) {
        Some(tree) => Some(*tree),
        None => None,
    }
}

/// Puts in what the nodes name in the tree.
fn put_names<T: TreeView>(
    names: &mut HashMap<NodeId, TreeId>,
    t: &T,
    ids: &[NodeId],
) -> Result<(), NoMemory>
    ensures { OnOk result ((z : ℕ) → get nat_eq names.new z ≡ (if contains ids.now z then named_at (T.tree t.now) z else get nat_eq names.old z)) }
{
    for id in ids {
        put_name(names, *id, named_at(t, *id))?;
    }
    Ok(())
}

fn put_name(
    names: &mut HashMap<NodeId, TreeId>,
    id: NodeId,
    name: Option<TreeId>,
) -> Result<(), NoMemory>
    ensures { OnOk result ((z : ℕ) → get nat_eq names.new z ≡ (if nat_eq id z then name else get nat_eq names.old z)) }
{
    let Some(tree) = name else {
        let _ = names.remove(&id);
        return Ok(());
    };
    match names.insert(id, tree) {
        Ok(_) => Ok(()),
        Err(_) => Err(NoMemory),
    }
}

/// Of each tree the first of the nodes, in their order, that names it.
fn firsts_of(
    alloc: Global,
    names: &HashMap<NodeId, TreeId>,
    ids: &[NodeId],
) -> Result<HashMap<TreeId, NodeId>, NoMemory>
    ensures { IfOk result (λ hosts. (u : ℕ) → get nat_eq hosts u ≡ first_that (λ z. is_id (get nat_eq names.now z) u) ids.now) }
{
    let mut hosts = HashMap::new(alloc);
    for id in ids {
        add_first(&mut hosts, name_in(names, *id), *id)?;
    }
    Ok(hosts)
}

/// Adds a node behind all that are there.
fn add_first(
    hosts: &mut HashMap<TreeId, NodeId>,
    name: Option<TreeId>,
    id: NodeId,
) -> Result<(), NoMemory>
    ensures { OnOk result ((u : ℕ) → get nat_eq hosts.new u ≡ or_else (get nat_eq hosts.old u) (if is_id name u then Some id else None)) }
{
    let Some(tree) = name else {
        return Ok(());
    };
    if hosts.contains_key(&tree) {
        return Ok(());
    }
    match hosts.insert(tree, id) {
        Ok(_) => Ok(()),
        Err(_) => Err(NoMemory),
    }
}

/// Those of the nodes that aren't the hosts of the trees that they name.
fn rivals_of(
    alloc: Global,
    names: &HashMap<NodeId, TreeId>,
    hosts: &HashMap<TreeId, NodeId>,
    ids: &[NodeId],
) -> Result<Ids, NoMemory>
    ensures { IfOk result (λ out. out ≡ filter (λ z. is_rival (get nat_eq hosts.now) (get nat_eq names.now z) z) ids.now) }
{
    let mut out = Ids::new(alloc);
    for id in ids {
        if is_rival(hosts, name_in(names, *id), *id) {
            out.push(*id)?;
            continue;
        }
    }
    Ok(out)
}

/// Whether a node names a tree of which it isn't the host.
fn is_rival(hosts: &HashMap<TreeId, NodeId>, name: Option<TreeId>, id: NodeId) -> bool
    ensures { result ≡ is_rival (get nat_eq hosts.now) name id }
{
    let Some(tree) = name else {
        return false;
    };
    match hosts.get(&tree) {
        Some(host) => *host != id,
        None => true,
    }
}

/// Marks on the rivals, on the hosts of the trees that they name, and on all ids above these.
fn watched_of<T: TreeView>(
    alloc: Global,
    t: &T,
    names: &HashMap<NodeId, TreeId>,
    hosts: &HashMap<TreeId, NodeId>,
    rivals: &[NodeId],
) -> Result<Marks, NoMemory>
    ensures marking { IfOk result (λ m. IsMarking (T.tree t.now).trees (get nat_eq m)) }
    ensures watched { IfOk result (λ m. (z : ℕ) → (contains rivals.now z || contains (filter_map (get nat_eq hosts.now) (filter_map (get nat_eq names.now) rivals.now)) z) ≡ true → has (T.tree t.now).trees z ≡ true → is_marked (get nat_eq m) z ≡ true) }
{
    let trees = named_in(alloc, names, rivals)?;
    let contested = hosts_in(alloc, hosts, trees.as_slice())?;
    let mut nodes = Touched::new(alloc);
    add_all(&mut nodes, rivals)?;
    add_all(&mut nodes, contested.as_slice())?;
    let marks = marks_of(alloc, t, nodes.as_slice())?;
    Ok(marks)
}

/// The trees that the nodes name, by these names.
fn named_in(
    alloc: Global,
    names: &HashMap<NodeId, TreeId>,
    ids: &[NodeId],
) -> Result<Seq<TreeId>, NoMemory>
    ensures { IfOk result (λ trees. trees ≡ filter_map (get nat_eq names.now) ids.now) }
{
    let mut trees = Seq::new(alloc);
    for id in ids {
        match name_in(names, *id) {
            Some(tree) => trees.push(tree)?,
            None => {}
        }
    }
    Ok(trees)
}

/// The hosts of the trees, among these hosts.
fn hosts_in(
    alloc: Global,
    hosts: &HashMap<TreeId, NodeId>,
    trees: &[TreeId],
) -> Result<Ids, NoMemory>
    ensures { IfOk result (λ nodes. nodes ≡ filter_map (get nat_eq hosts.now) trees.now) }
{
    let mut nodes = Ids::new(alloc);
    for tree in trees {
        match host_in(hosts, *tree) {
            Some(node) => nodes.push(node)?,
            None => {}
        }
    }
    Ok(nodes)
}

/// The host of the tree, among these hosts.
pub fn host_in(hosts: &HashMap<TreeId, NodeId>, tree: TreeId) -> Option<NodeId>
    ensures { result ≡ get nat_eq hosts.now tree }
{
    match hosts.get(&tree) {
        Some(node) => Some(*node),
        None => None,
    }
}
