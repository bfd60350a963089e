//! Each call of the client tree, of the ancestors and of the serializer, once. Each step says whether it went as is wanted.

use ax_base::{Ids, NodeId, TreeId};
use ax_client::ClientTree;
use ax_lca::last_common;
use ax_serializer::{SerErr, Serializer};
use ax_source::SourceTree;
use std::alloc::Global;

fn starts(client: &mut ClientTree, id: NodeId) -> bool {
    match client.reserve(10) {
        Ok(()) => {
            client.start(id);
            true
        }
        Err(_) => false,
    }
}

/// The ids down to one, and none where it isn't held.
fn line(client: &ClientTree, id: NodeId) -> Option<Ids> {
    match client.chain(id) {
        Ok(line) => line,
        Err(_) => None,
    }
}

fn is_alone(line: Option<Ids>, id: NodeId) -> bool {
    match line {
        Some(line) => line.as_slice() == [id].as_slice(),
        None => false,
    }
}

fn has_its_line(client: &mut ClientTree, one: NodeId, two: NodeId) -> bool {
    starts(client, one) && is_alone(line(client, one), one) && line(client, two).is_none()
}

#[test]
fn a_client_has_its_line(rt: HostRuntime) {
    let one = NodeId::new(1).expect(&rt, "an id");
    let two = NodeId::new(2).expect(&rt, "an id");
    let mut client = ClientTree::new(rt.alloc());
    assert!(rt; has_its_line(&mut client, one, two));
    client.clear();
    assert!(rt; client.root().is_none());
}

fn push_id(ids: &mut Ids, n: u32) -> bool {
    match NodeId::new(n) {
        Some(id) => ids.push(id).is_ok(),
        None => false,
    }
}

fn ids(alloc: Global, numbers: &[u32]) -> Ids {
    let mut ids = Ids::new(alloc);
    for n in numbers {
        if !push_id(&mut ids, *n) {
            return Ids::new(alloc);
        }
    }
    ids
}

/// Whether the lines agree down to this id, 0 for none.
fn agree(alloc: Global, a: &[u32], b: &[u32], n: u32) -> bool {
    last_common(&ids(alloc, a), &ids(alloc, b)) == NodeId::new(n)
}

#[test]
fn lines_agree_down_to_an_id(rt: HostRuntime) {
    let alloc = rt.alloc();
    assert!(rt; agree(alloc, &[1, 2, 3], &[1, 2, 4, 3], 2));
    assert!(rt; agree(alloc, &[1, 2, 3], &[2, 1], 0));
    assert!(rt; agree(alloc, &[1, 2, 3], &[1, 2, 3], 3));
}

fn is_strange(s: &mut SourceTree, z: &mut Serializer, node: NodeId) -> bool {
    let answer = z.serialize_changes(s, node);
    match &answer {
        Ok(_) => false,
        Err(refusal) => *refusal == SerErr::UnknownNode(node),
    }
}

#[test]
fn a_strange_id_has_no_update(rt: HostRuntime) {
    let tree = TreeId::new(1).expect(&rt, "an id");
    let node = NodeId::new(7).expect(&rt, "an id");
    let mut s = SourceTree::new(rt.alloc(), tree);
    let mut z = Serializer::new(rt.alloc());
    assert!(rt; is_strange(&mut s, &mut z, node));
}
