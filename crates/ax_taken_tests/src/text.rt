//! The text of an order whose lines are given.
use ax_ask::{Item, Line, PassNote};
use ax_base::{Seq, Token, TreeId};
use ax_placed::{FrameTold, Told, placed_text};
use std::test::Fail;

#[test]
fn next_lines(rt: HostRuntime) -> Result<(), Fail> {
    let alloc = rt.alloc();
    let tree = TreeId::new(2).unwrap();
    let own = vec![in alloc;
        Line::DataSet { tree },
        Line::Passed {
            tree,
            note: PassNote::Nothing
        },
    ]?;
    let frames = vec![in alloc;
        FrameTold {
            tree,
            lines: Seq::from_vec(own)
        },
    ]?;
    let entries = vec![in alloc;
        Line::Destroyed { tree, gone: false },
        Line::Asked { tree, token: None },
    ]?;
    let told = Told {
        frames: Seq::from_vec(frames),
        entries: Seq::from_vec(entries),
        readers: Seq::new(alloc),
    };
    let order = [
        Item::Frame(tree),
        Item::Browser,
        Item::Deliver(tree, Token(3)),
        Item::Frame(tree),
        Item::Browser,
    ];
    let mut out = Vec::new(alloc);
    placed_text(&told, order.as_slice(), &mut out)?;
    let text = b"f2 data ok\nb destroy 2 ok\nd2:3\nf2 pass nothing\nb ask 2 gone\n";
    assert_eq!(rt; out.as_slice(), text.as_slice());
    Ok(())
}
