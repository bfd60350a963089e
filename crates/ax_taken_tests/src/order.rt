//! The order of parts without packets.
use ax_ask::Item;
use ax_base::{NodeId, Seq, Token, TreeId};
use ax_taken::{Closed, ClosedFrame, taken};
use ax_tree::{HEntry, JEntry};
use std::test::Fail;

// A frame without a root, whose packets would be none, and a browser that asked for its tree and ended it.
#[test]
fn asked_and_ended(rt: HostRuntime) -> Result<(), Fail> {
    let alloc = rt.alloc();
    let tree = TreeId::new(2).unwrap();
    let node = NodeId::new(1).unwrap();
    let entries = vec![in alloc; JEntry::Marked(node), JEntry::Delivered(Token(1))]?;
    let journal = Seq::from_vec(entries);
    let made = Seq::new(alloc);
    let frames = vec![in alloc;
        ClosedFrame {
            tree,
            journal,
            made
        },
    ]?;
    let events = vec![in alloc; HEntry::Asked(tree), HEntry::Ended(tree)]?;
    let done = Closed {
        frames: Seq::from_vec(frames),
        history: Seq::from_vec(events),
        waiting: Seq::new(alloc),
    };
    let numbers = vec![in alloc; 0u64, 2]?;
    let looks = vec![in alloc; Seq::from_vec(numbers)]?;
    let order = taken(alloc, &done, looks.as_slice())?;
    let wanted = [
        Item::Reader(1),
        Item::Browser,
        Item::Browser,
        Item::Reader(1),
        Item::Frame(tree),
        Item::Deliver(tree, Token(1)),
    ];
    assert_eq!(rt; order.as_slice(), wanted.as_slice());
    Ok(())
}
