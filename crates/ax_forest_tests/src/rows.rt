//! What calls answer as values. What receipts tell of changes, and where trees hang, is told in printed text elsewhere.

use crate::calls::{Call, Step, are_answered};
use crate::given::{Head, Listed, Update};

/// A node without children that names no tree.
const ONE: &[Listed] = &[(1, &[], 0)];

/// The first receipt tells of the root alone, by the event `subtree_created`.
const BEGUN: &str =
    "Ok(Applied { pass: PassNo(1), events: Seq { items: [Event { tree: TreeId { number: 1 }, node: Some(NodeId { number: 1 }), kind: EventKind { number: 25 } }] } })";

/// A packet whose token is too low is stale, and so is one whose token is too high. Another base than the last applied pass is a gap.
const TOKENS: &[Step] = &[
    (1, Call::Receive(Head(1, 0, 0), Update(0, 1, ONE, 0)), BEGUN),
    (
        1,
        Call::Receive(Head(2, 0, 1), Update(0, 1, ONE, 0)),
        "Ok(Stale { had: Token(1), want: Token(0) })",
    ),
    (1, Call::Ask, "Ok(Token(1))"),
    (
        1,
        Call::Receive(Head(3, 1, 0), Update(0, 0, ONE, 0)),
        "Ok(Stale { had: Token(0), want: Token(1) })",
    ),
    (
        1,
        Call::Receive(Head(3, 2, 1), Update(0, 0, ONE, 0)),
        "Ok(Gap { base: PassNo(2), at: PassNo(1) })",
    ),
    (1, Call::At, "PassNo(1)"),
    (
        1,
        Call::Receive(Head(4, 0, 1), Update(0, 1, ONE, 0)),
        "Ok(Applied { pass: PassNo(4), events: Seq { items: [] } })",
    ),
    (1, Call::At, "PassNo(4)"),
    (1, Call::Token, "Token(1)"),
    (1, Call::History, "6"),
];

/// The mirror is what the bundle says, whatever the slip says.
const BUNDLE: &[Step] = &[
    (
        1,
        Call::Receive(Head(1, 0, 0), Update(0, 2, &[(2, &[], 0)], 0)),
        "Ok(Applied { pass: PassNo(1), events: Seq { items: [Event { tree: TreeId { number: 1 }, node: Some(NodeId { number: 2 }), kind: EventKind { number: 25 } }] } })",
    ),
    (1, Call::Tree, "Some((Some(NodeId { number: 2 }), 1))"),
];

/// A packet whose bundle is refused, and one of a strange tree, come back, and nothing is kept of them.
const RETURNS: &[Step] = &[
    (
        1,
        Call::Return(Head(1, 0, 0), Update(0, 0, &[(5, &[], 0)], 0)),
        "Refused(BundleErr { at: 0, why: NotInTree(NodeId { number: 5 }) })",
    ),
    (
        9,
        Call::Return(Head(1, 0, 0), Update(0, 1, ONE, 0)),
        "NoTree(TreeId { number: 9 })",
    ),
    (1, Call::Tree, "Some((None, 0))"),
    (1, Call::History, "0"),
];

/// No call at a strange tree is kept.
const STRANGE: &[Step] = &[
    (9, Call::Ask, "Err(NoTree(TreeId { number: 9 }))"),
    (9, Call::Destroy, "Err(NoTree(TreeId { number: 9 }))"),
    (
        9,
        Call::Probe(Update(0, 1, ONE, 0)),
        "Err(NoTree(TreeId { number: 9 }))",
    ),
    (9, Call::At, "PassNo(0)"),
    (9, Call::Token, "Token(0)"),
    (9, Call::Tree, "None"),
    (9, Call::Host, "None"),
    (9, Call::History, "0"),
];

/// A tree that hangs at a node of the first one ends. It is gone for each later call, and each is kept.
const ENDS: &[Step] = &[
    (
        1,
        Call::Receive(Head(1, 0, 0), Update(0, 1, &[(1, &[2], 0), (2, &[], 2)], 0)),
        BEGUN,
    ),
    (
        2,
        Call::Receive(Head(1, 0, 0), Update(0, 1, ONE, 1)),
        "Ok(Applied { pass: PassNo(1), events: Seq { items: [Event { tree: TreeId { number: 2 }, node: Some(NodeId { number: 1 }), kind: EventKind { number: 25 } }] } })",
    ),
    (
        2,
        Call::Host,
        "Some(Place { tree: TreeId { number: 1 }, node: NodeId { number: 2 } })",
    ),
    (2, Call::Ask, "Ok(Token(1))"),
    (2, Call::Destroy, "Ok(())"),
    (2, Call::Host, "None"),
    (2, Call::Tree, "None"),
    (
        2,
        Call::Receive(Head(2, 0, 1), Update(0, 1, ONE, 0)),
        "Ok(Gone)",
    ),
    (2, Call::Ask, "Err(AlreadyGone(TreeId { number: 2 }))"),
    (2, Call::Destroy, "Err(AlreadyGone(TreeId { number: 2 }))"),
    (
        2,
        Call::Probe(Update(0, 1, ONE, 0)),
        "Err(AlreadyGone(TreeId { number: 2 }))",
    ),
    (2, Call::Token, "Token(1)"),
    (2, Call::At, "PassNo(1)"),
    (2, Call::History, "8"),
];

/// Probes of a tree of four nodes, which stays.
const PROBES: &[Step] = &[
    (
        1,
        Call::Receive(
            Head(1, 0, 0),
            Update(
                0,
                1,
                &[(1, &[2, 3], 0), (2, &[], 0), (3, &[4], 0), (4, &[], 0)],
                0,
            ),
        ),
        BEGUN,
    ),
    (
        1,
        Call::Probe(Update(0, 0, &[(1, &[2, 3, 9], 0)], 0)),
        "Ok(Refused(Pending(NodeId { number: 9 })))",
    ),
    (
        1,
        Call::Probe(Update(0, 0, &[(2, &[4], 0)], 0)),
        "Ok(Refused(Reparented(NodeId { number: 4 })))",
    ),
    (
        1,
        Call::Probe(Update(0, 0, &[(1, &[2, 2], 0)], 0)),
        "Ok(Refused(DuplicateChild(NodeId { number: 2 })))",
    ),
    (
        1,
        Call::Probe(Update(0, 0, &[(9, &[], 0)], 0)),
        "Ok(Refused(NotInTree(NodeId { number: 9 })))",
    ),
    (
        1,
        Call::Probe(Update(9, 0, &[], 0)),
        "Ok(Refused(BadClear(NodeId { number: 9 })))",
    ),
    (
        1,
        Call::Probe(Update(3, 0, &[], 0)),
        "Ok(Refused(Pending(NodeId { number: 3 })))",
    ),
    (
        1,
        Call::Probe(Update(0, 0, &[(1, &[2], 0), (2, &[4], 0), (4, &[], 0)], 0)),
        "Ok(Accepted(3))",
    ),
    (1, Call::Tree, "Some((Some(NodeId { number: 1 }), 4))"),
    (1, Call::At, "PassNo(1)"),
    (1, Call::History, "8"),
];

const ROWS: [(&str, &[Step]); 6] = [
    ("tokens and bases", TOKENS),
    ("the bundle makes the mirror", BUNDLE),
    ("refused packets come back", RETURNS),
    ("a strange tree", STRANGE),
    ("a tree that ends", ENDS),
    ("probes", PROBES),
];

#[test]
fn calls_are_answered(rt: HostRuntime) {
    for (name, steps) in ROWS {
        assert!(rt; are_answered(rt.alloc(), steps), "{name}");
    }
}
