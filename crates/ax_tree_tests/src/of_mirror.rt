//! Mirrors: updates and bundles that are applied, a refused bundle, and the greatest chain.

ghost use Rattle.std.specs.Prelude.{◌≡◌, ◌<◌};

use crate::given::{Listed, push_node, tree_id, update, with_root};
use ax_base::NodeId;
use ax_mirror::Mirror;
use ax_pages::Steps;
use ax_tree::{Bundle, BundleErr, Nodes, Refusal, TreeUpdate, TreeView};
use std::alloc::Global;
use std::marker::Brand;
use std::sync::ledger::{Blank, Ledger};
use std::test::Fail;

/// 1 over 2 and 3, and 2 over 4.
const FOUR: Listed = &[(1, &[2, 3]), (2, &[4]), (3, &[]), (4, &[])];

/// How many ids the update touches, or why it is refused.
fn answer(mirror: &mut Mirror, update: &TreeUpdate) -> Result<usize, Refusal> {
    match mirror.unserialize(update) {
        Ok(touched) => Ok(touched.as_slice().len()),
        Err(why) => Err(why),
    }
}

/// The same, where there is an update at all.
fn answer_of(mirror: &mut Mirror, update: Option<TreeUpdate>) -> Option<Result<usize, Refusal>> {
    match update {
        Some(update) => Some(answer(mirror, &update)),
        None => None,
    }
}

fn is_refused(mirror: &mut Mirror, update: Option<TreeUpdate>, wanted: Refusal) -> bool {
    match answer_of(mirror, update) {
        Some(Err(why)) => why == wanted,
        _ => false,
    }
}

fn touches(mirror: &mut Mirror, update: Option<TreeUpdate>, wanted: usize) -> bool {
    match answer_of(mirror, update) {
        Some(Ok(touched)) => touched == wanted,
        _ => false,
    }
}

fn has(mirror: &Mirror, n: u32) -> bool {
    match NodeId::new(n) {
        Some(id) => mirror.node(id).is_some(),
        None => false,
    }
}

/// A chain of this many nodes.
fn chain(alloc: Global, len: u32) -> Option<TreeUpdate> {
    let mut nodes = Nodes::new(alloc);
    for n in 1..len {
        if !push_node(alloc, &mut nodes, n, &[n + 1]) {
            return None;
        }
    }
    if !push_node(alloc, &mut nodes, len, &[]) {
        return None;
    }
    Some(with_root(1, nodes))
}

/// The last node of a chain of 256 gets a child.
fn ends_at_256(alloc: Global, mirror: &mut Mirror) -> bool {
    touches(mirror, chain(alloc, 256), 256)
        && is_refused(
            mirror,
            update(alloc, 0, &[(256, &[257]), (257, &[])]),
            Refusal::TooDeep(257),
        )
        && mirror.count() == 256
}

#[test]
fn a_chain_ends_at_256(rt: HostRuntime) -> Result<(), Fail> {
    let alloc = rt.alloc();
    let mut mirror = Mirror::new(alloc, tree_id()?);
    assert!(rt; touches(&mut mirror, update(alloc, 1, FOUR), 4) && ends_at_256(alloc, &mut mirror));
    Ok(())
}

/// 3 goes first, 2 goes with 4, and 5 is new. A share taken before still has 4 below 2.
fn orders_drops_and_makes(alloc: Global, mirror: &mut Mirror) -> bool {
    let share = match mirror.share() {
        Ok(share) => share,
        Err(_) => return false,
    };
    touches(mirror, update(alloc, 0, &[(1, &[3, 5]), (5, &[])]), 4)
        && mirror.count() == 3
        && !has(mirror, 4)
        && has(mirror, 5)
        && share.count() == 4
        && is_below_2(&share, 4)
}

fn is_below_2(mirror: &Mirror, n: u32) -> bool {
    match NodeId::new(n) {
        Some(id) => mirror.parent(id) == NodeId::new(2),
        None => false,
    }
}

#[test]
fn an_update_orders_drops_and_makes(rt: HostRuntime) -> Result<(), Fail> {
    let alloc = rt.alloc();
    let mut mirror = Mirror::new(alloc, tree_id()?);
    assert!(rt;
        touches(&mut mirror, update(alloc, 1, FOUR), 4)
            && orders_drops_and_makes(alloc, &mut mirror)
    );
    Ok(())
}

/// How many ids the bundle touches, or where and why it was refused.
fn applied<L: Ledger>(
    mirror: &mut Mirror,
    bundle: &Bundle,
    fresh: bool,
    blank: Blank,
) -> Result<usize, BundleErr>
    requires name { blank.name ≡ L.name }
    requires parts { blank.parts ≡ L.parts }
    requires some { 0 < L.parts }
{
    let mut steps: Steps<L> = Steps::start(blank);
    match mirror.apply(bundle, fresh, &mut steps) {
        Ok(touched) => Ok(touched.as_slice().len()),
        Err(refusal) => Err(refusal),
    }
}

fn push_update(bundle: &mut Bundle, update: Option<TreeUpdate>) -> bool {
    match update {
        Some(update) => bundle.push(update).is_ok(),
        None => false,
    }
}

/// The second update lists 4, which the first one took out.
fn broken(alloc: Global, bundle: &mut Bundle) -> bool {
    push_update(bundle, update(alloc, 0, &[(2, &[])]))
        && push_update(bundle, update(alloc, 0, &[(4, &[])]))
        && push_update(bundle, update(alloc, 0, &[(3, &[])]))
}

fn is_broken(answer: Result<usize, BundleErr>) -> bool {
    match (answer, NodeId::new(4)) {
        (Err(refused), Some(four)) => refused.at == 1 && refused.why == Refusal::NotInTree(four),
        _ => false,
    }
}

fn stays<L: Ledger>(mirror: &mut Mirror, bundle: &Bundle, blank: Blank) -> bool
    requires name { blank.name ≡ L.name }
    requires parts { blank.parts ≡ L.parts }
    requires some { 0 < L.parts }
{
    is_broken(applied::<L>(mirror, bundle, false, blank)) && mirror.count() == 4 && has(mirror, 4)
}

fn begins_anew<L: Ledger>(mirror: &mut Mirror, bundle: &Bundle, blank: Blank) -> bool
    requires name { blank.name ≡ L.name }
    requires parts { blank.parts ≡ L.parts }
    requires some { 0 < L.parts }
{
    match applied::<L>(mirror, bundle, true, blank) {
        Ok(touched) => touched == 4 && mirror.count() == 2,
        Err(_) => false,
    }
}

#[test]
fn a_refused_bundle_leaves_all(rt: HostRuntime) -> Result<(), Fail> {
    let alloc = rt.alloc();
    let mut mirror = Mirror::new(alloc, tree_id()?);
    let mut bundle = Bundle::new(alloc);
    assert!(rt;
        touches(&mut mirror, update(alloc, 1, FOUR), 4)
            && broken(alloc, &mut bundle)
            && stays::<Brand>(&mut mirror, &bundle, Blank::new(1))
    );
    Ok(())
}

#[test]
fn a_fresh_bundle_begins_anew(rt: HostRuntime) -> Result<(), Fail> {
    let alloc = rt.alloc();
    let mut mirror = Mirror::new(alloc, tree_id()?);
    let mut bundle = Bundle::new(alloc);
    assert!(rt;
        touches(&mut mirror, update(alloc, 1, FOUR), 4)
            && push_update(&mut bundle, chain(alloc, 2))
            && begins_anew::<Brand>(&mut mirror, &bundle, Blank::new(1))
    );
    Ok(())
}
