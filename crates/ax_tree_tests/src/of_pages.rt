//! Pages: a share keeps what it had while the other owner writes and erases.

ghost use Rattle.std.specs.Prelude.{◌≡◌, ◌<◌, ◌≤◌, ◌+◌};

use crate::given::id;
use ax_base::{NodeId, Rect};
use ax_node::NodeData;
use ax_pages::{Paged, Pages, Steps};
use std::alloc::Global;
use std::marker::Brand;
use std::sync::ledger::{Blank, Ledger};
use std::test::Fail;

/// A node that is told from others of its id by its width.
fn node(alloc: Global, id: NodeId, width: i32) -> Option<NodeData> {
    let rect = Rect::new(0, 0, width, 1)?;
    let mut node = NodeData::blank(alloc, id);
    node.rect = rect;
    Some(node)
}

/// Each write takes one step at most.
fn put<L: Ledger>(
    alloc: Global,
    pages: &mut Pages,
    n: u32,
    width: i32,
    steps: &mut Steps<L>,
) -> bool
    ensures cost { steps.new ≤ steps.old + 1 }
{
    let Some(id) = NodeId::new(n) else {
        return false;
    };
    match node(alloc, id, width) {
        Some(node) => pages.write(id, node, steps).is_ok(),
        None => false,
    }
}

fn put_all<L: Ledger>(alloc: Global, pages: &mut Pages, steps: &mut Steps<L>) -> bool {
    for n in 1..641 {
        if !put(alloc, pages, n, 1, steps) {
            return false;
        }
    }
    true
}

fn put_three<L: Ledger>(alloc: Global, pages: &mut Pages, steps: &mut Steps<L>) -> bool
    ensures cost { steps.new ≤ steps.old + 3 }
{
    put(alloc, pages, 1, 2, steps)
        && put(alloc, pages, 2, 2, steps)
        && put(alloc, pages, 64, 2, steps)
}

/// The width of a node, and 0 where it isn't there.
fn width_at(pages: &Pages, n: u32) -> i32 {
    match NodeId::new(n) {
        Some(id) => match pages.read(id) {
            Some(node) => node.rect.w(),
            None => 0,
        },
        None => 0,
    }
}

fn widths(pages: &Pages) -> i32 {
    let mut sum: i32 = 0;
    for n in 1..641 {
        sum = sum.wrapping_add(width_at(pages, n));
    }
    sum
}

/// The sums of the widths in the share and in the pages, of which three were widened after it.
fn share_and_pages<L: Ledger>(
    alloc: Global,
    pages: &mut Pages,
    steps: &mut Steps<L>,
) -> (i32, i32) {
    match pages.share() {
        Ok(share) => {
            if !put_three(alloc, pages, steps) {
                return (0, 0);
            }
            (widths(&share), widths(pages))
        }
        Err(_) => (0, 0),
    }
}

fn share_keeps_its_nodes<L: Ledger>(alloc: Global, blank: Blank) -> (i32, i32)
    requires name { blank.name ≡ L.name }
    requires parts { blank.parts ≡ L.parts }
    requires some { 0 < L.parts }
{
    let mut steps: Steps<L> = Steps::start(blank);
    let mut pages = Pages::new(alloc);
    if !put_all(alloc, &mut pages, &mut steps) {
        return (0, 0);
    }
    share_and_pages(alloc, &mut pages, &mut steps)
}

#[test]
fn a_share_keeps_its_nodes(rt: HostRuntime) -> Result<(), Fail> {
    assert_eq!(rt;
        share_keeps_its_nodes::<Brand>(rt.alloc(), Blank::new(1)),
        (640, 643)
    );
    Ok(())
}

fn written<L: Ledger>(values: &mut Paged<u32>, at: NodeId, steps: &mut Steps<L>) -> bool {
    values.write(at, 11, steps).is_ok()
        && values.write_own(at, 13).is_ok()
        && values.erase_own(at).is_ok()
        && values.write_own(at, 12).is_ok()
}

/// How many values stand after one is erased twice, and in a share from before that; none where the share lost it.
fn erased<L: Ledger>(values: &mut Paged<u32>, at: NodeId, steps: &mut Steps<L>) -> (usize, usize) {
    match values.share() {
        Ok(share) => {
            let gone = values.erase(at, steps).is_ok() && values.erase(at, steps).is_ok();
            if !gone || values.read(at).is_some() || share.read(at) != Some(&12) {
                return (0, 0);
            }
            (values.len(), share.len())
        }
        Err(_) => (0, 0),
    }
}

fn erased_after<L: Ledger>(alloc: Global, first: NodeId, at: NodeId, blank: Blank) -> (usize, usize)
    requires name { blank.name ≡ L.name }
    requires parts { blank.parts ≡ L.parts }
    requires some { 0 < L.parts }
{
    let mut steps: Steps<L> = Steps::start(blank);
    let mut values: Paged<u32> = Paged::new(alloc);
    if values.write_own(first, 10).is_err() || !written(&mut values, at, &mut steps) {
        return (0, 0);
    }
    erased(&mut values, at, &mut steps)
}

#[test]
fn an_erased_value_stays_in_the_share(rt: HostRuntime) -> Result<(), Fail> {
    let first = id(1)?;
    let at = id(65)?;
    assert_eq!(rt;
        erased_after::<Brand>(rt.alloc(), first, at, Blank::new(1)),
        (1, 2)
    );
    Ok(())
}
