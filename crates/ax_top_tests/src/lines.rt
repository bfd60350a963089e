//! Lines of each kind, written apart from the definitions.
use ax_ask::{
    ActNote, DoName, Item, Items, Line, MadeNote, OpName, PassNote, ProbeNote, QueryName, Reply,
    UpdateNote, UpdateNotes,
};
use ax_attrs::{EventKind, Key, Role};
use ax_base::{Affinity, Ids, NodeId, PassNo, Place, Places, Pos, Text, Token, TreeId};
use ax_report::{Bytes, line_text, order_text};
use ax_tree::{EditErr, Event, Events, MarkErr, Refusal, Verdict};
use std::alloc::Global;
use std::cmp::Ordering;

fn tree() -> TreeId {
    TreeId::new(1000).unwrap()
}

fn node() -> NodeId {
    NodeId::new(7).unwrap()
}

/// Whether the line is printed so.
fn is(alloc: Global, line: Line, text: &str) -> bool {
    let mut out = Bytes::new(alloc);
    line_text(&line, &mut out).is_ok() && out.as_slice() == text.as_bytes()
}

fn edited(refused: Option<EditErr>) -> Line {
    Line::Edited {
        tree: tree(),
        name: OpName::Insert,
        node: node(),
        refused,
    }
}

fn touched(below: bool, refused: Option<MarkErr>) -> Line {
    Line::Touched {
        tree: tree(),
        below,
        node: node(),
        refused,
    }
}

#[test]
fn edits_and_touches(rt: HostRuntime) {
    let alloc = rt.alloc();
    let tree = tree();
    assert!(rt; is(alloc, edited(None), "f1000 insert 7 ok\n"));
    assert!(rt;
        is(
            alloc,
            edited(Some(EditErr::BadIndex(5, 0))),
            "f1000 insert 7 BadIndex 5 0\n"
        )
    );
    assert!(rt;
        is(
            alloc,
            edited(Some(EditErr::BadAttr(Key::LEVEL))),
            "f1000 insert 7 BadAttr 8\n"
        )
    );
    assert!(rt; is(alloc, Line::DataSet { tree }, "f1000 data ok\n"));
    assert!(rt; is(alloc, touched(false, None), "f1000 touch 7 ok\n"));
    let refused = touched(true, Some(MarkErr::UnknownNode(node())));
    assert!(rt; is(alloc, refused, "f1000 touch_below 7 UnknownNode 7\n"));
}

fn update(clear: Option<NodeId>, nodes: Ids, with_data: bool) -> UpdateNote {
    UpdateNote {
        clear,
        root: None,
        nodes,
        with_data,
    }
}

fn push_two(nodes: &mut Ids) -> bool {
    nodes.push(node()).is_ok() && nodes.push(node()).is_ok()
}

/// Puts two updates: two ids without tree data, and an empty list with them.
fn put_updates(updates: &mut UpdateNotes, two: Ids, none: Ids) -> bool {
    updates.push(update(Some(node()), two, false)).is_ok()
        && updates.push(update(None, none, true)).is_ok()
}

fn passed(note: PassNote) -> Line {
    Line::Passed { tree: tree(), note }
}

const PASS: &str = "f1000 pass 2 base 1 token 18446744073709551615
  u clear 7 root 0 list 7 7
  u clear 0 root 0 list - data
";

#[test]
fn passes(rt: HostRuntime) {
    let alloc = rt.alloc();
    assert!(rt; is(alloc, passed(PassNote::Nothing), "f1000 pass nothing\n"));
    let mut two = Ids::new(alloc);
    assert!(rt; push_two(&mut two));
    let mut updates = UpdateNotes::new(alloc);
    assert!(rt; put_updates(&mut updates, two, Ids::new(alloc)));
    let made = passed(PassNote::Made(MadeNote {
        pass: PassNo(2),
        base: PassNo(1),
        token: Token(18_446_744_073_709_551_615),
        resumed: false,
        updates,
    }));
    assert!(rt; is(alloc, made, PASS));
}

fn event(node: Option<NodeId>, kind: EventKind) -> Event {
    Event {
        tree: tree(),
        node,
        kind,
    }
}

fn put_events(events: &mut Events) -> bool {
    events.push(event(None, EventKind::LOAD_COMPLETE)).is_ok()
        && events
            .push(event(Some(node()), EventKind::FOCUS_CHANGED))
            .is_ok()
}

fn received(verdict: Verdict) -> Line {
    Line::Received {
        tree: tree(),
        verdict,
    }
}

const APPLIED: &str = "a1000 applied 2
  e 1000 load_complete
  e 1000:7 focus_changed
";

#[test]
fn receipts(rt: HostRuntime) {
    let alloc = rt.alloc();
    let mut events = Events::new(alloc);
    assert!(rt; put_events(&mut events));
    let applied = received(Verdict::Applied {
        pass: PassNo(2),
        events,
    });
    assert!(rt; is(alloc, applied, APPLIED));
    let had = Token(1);
    let want = Token(2);
    assert!(rt;
        is(
            alloc,
            received(Verdict::Stale { had, want }),
            "a1000 stale 1 2\n"
        )
    );
    let base = PassNo(3);
    let at = PassNo(1);
    assert!(rt;
        is(
            alloc,
            received(Verdict::Gap { base, at }),
            "a1000 gap 3 1\n"
        )
    );
    assert!(rt; is(alloc, received(Verdict::Gone), "a1000 gone\n"));
}

fn probed(note: ProbeNote) -> Line {
    Line::Probed { tree: tree(), note }
}

#[test]
fn browser(rt: HostRuntime) {
    let alloc = rt.alloc();
    let tree = tree();
    let token = Some(Token(1));
    assert!(rt; is(alloc, Line::Asked { tree, token }, "b ask 1000 token 1\n"));
    assert!(rt;
        is(
            alloc,
            Line::Asked { tree, token: None },
            "b ask 1000 gone\n"
        )
    );
    assert!(rt;
        is(
            alloc,
            Line::Destroyed { tree, gone: true },
            "b destroy 1000 gone\n"
        )
    );
    assert!(rt;
        is(
            alloc,
            probed(ProbeNote::Accepted(100_000)),
            "b probe 1000 accepted 100000\n"
        )
    );
    let refused = probed(ProbeNote::Refused(Refusal::Reparented(node())));
    assert!(rt; is(alloc, refused, "b probe 1000 Reparented 7\n"));
    let token = Token(1_000_000);
    assert!(rt; is(alloc, Line::Delivered { tree, token }, "d1000:1000000\n"));
}

#[test]
fn actions(rt: HostRuntime) {
    let acted = Line::Acted {
        tree: tree(),
        name: DoName::SetValue,
        node: node(),
        out: ActNote::NoContainer(node()),
    };
    assert!(rt; is(rt.alloc(), acted, "p1000 set_value 7 NoContainer 7\n"));
}

/// Whether the reply is printed so.
fn told(alloc: Global, query: QueryName, reply: Reply, text: &str) -> bool {
    let answered = Line::Answered {
        reader: 16,
        query,
        reply,
    };
    is(alloc, answered, text)
}

fn place() -> Place {
    Place {
        tree: tree(),
        node: node(),
    }
}

fn put_places(places: &mut Places) -> bool {
    places.push(place()).is_ok() && places.push(place()).is_ok()
}

fn up() -> Reply {
    Reply::Pos(Pos::Text {
        tree: tree(),
        node: node(),
        offset: 5,
        affinity: Affinity::Up,
    })
}

#[test]
fn replies(rt: HostRuntime) {
    let alloc = rt.alloc();
    let none = Reply::Places(Places::new(alloc));
    assert!(rt; told(alloc, QueryName::Children, none, "r16 children = -\n"));
    let mut two = Places::new(alloc);
    assert!(rt; put_places(&mut two));
    let two = Reply::Places(two);
    assert!(rt;
        told(
            alloc,
            QueryName::UChildren,
            two,
            "r16 u_children = 1000:7 1000:7\n"
        )
    );
    let heading = Reply::Node(Role::HEADING, 0);
    assert!(rt; told(alloc, QueryName::Node, heading, "r16 node = heading 0\n"));
    let less = Reply::Order(Ordering::Less);
    assert!(rt; told(alloc, QueryName::Compare, less, "r16 compare = Less\n"));
    assert!(rt;
        told(
            alloc,
            QueryName::Leaf,
            up(),
            "r16 leaf = 1000:7 text 5 up\n"
        )
    );
    let bounds = Reply::Bounds(-1, 0, 4_294_967_296, 7);
    assert!(rt;
        told(
            alloc,
            QueryName::Bounds,
            bounds,
            "r16 bounds = [-1,0,4294967296,7]\n"
        )
    );
}

const PLAIN: &str = "a\"\\\u{0}\u{8}\t\n\u{b}\u{c}\r\u{1f} \u{7f}\u{e9}\u{2028}\u{1f600}";

const ESCAPED: &str =
    "r16 text = \"a\\\"\\\\\\u0000\\b\\t\\n\\u000b\\f\\r\\u001f \u{7f}\u{e9}\u{2028}\u{1f600}\"\n";

fn is_escaped(alloc: Global) -> bool {
    match Text::of(alloc, PLAIN) {
        Ok(text) => told(alloc, QueryName::Text, Reply::Text(text), ESCAPED),
        Err(_) => false,
    }
}

#[test]
fn escapes(rt: HostRuntime) {
    assert!(rt; is_escaped(rt.alloc()));
}

fn put_items(items: &mut Items) -> bool {
    items.push(Item::Frame(tree())).is_ok()
        && items.push(Item::Receive(tree())).is_ok()
        && items.push(Item::Browser).is_ok()
        && items.push(Item::Deliver(tree(), Token(2))).is_ok()
        && items.push(Item::Reader(16)).is_ok()
}

/// Whether nothing is written of no item, and then the five.
fn are_written(none: &Items, five: &Items, out: &mut Bytes) -> bool {
    order_text(none, out).is_ok()
        && order_text(five, out).is_ok()
        && out.as_slice() == "f1000 a1000 b d1000:2 r16".as_bytes()
}

#[test]
fn order(rt: HostRuntime) {
    let alloc = rt.alloc();
    let mut items = Items::new(alloc);
    assert!(rt; put_items(&mut items));
    assert!(rt; are_written(&Items::new(alloc), &items, &mut Bytes::new(alloc)));
}
