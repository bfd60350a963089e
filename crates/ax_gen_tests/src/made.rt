//! The operations of each frame, one line a frame: a letter for each (root, insert, set a name, move, delete, pass) with its
//! numbers. What is wanted was made by another program, written apart from this one.
use ax_ask::FrameOp;
use ax_attrs::Version;
use ax_gen::make;
use ax_node::Value;
use ax_script::{FrameScript, Script};
use ax_tree::{Edit, SetNode};
use std::alloc::Global;
use std::test::*;

fn written(alloc: Global, script: &Script) -> Result<String, Fail> {
    let mut text = String::new(alloc);
    for frame in script.frames.as_slice() {
        let line = frame_text(alloc, frame)?;
        text.push_str(line.as_str())?;
    }
    Ok(text)
}

fn frame_text(alloc: Global, frame: &FrameScript) -> Result<String, Fail> {
    let tree = frame.tree.get();
    let mut text = format!(in alloc; "{tree}:")?;
    for op in frame.ops.as_slice() {
        let op = op_text(alloc, op)?;
        text.push_str(op.as_str())?;
    }
    text.push_str("\n")?;
    Ok(text)
}

fn op_text(alloc: Global, op: &FrameOp) -> Result<String, Fail> {
    match op {
        FrameOp::Edit(edit) => edit_text(alloc, edit),
        FrameOp::Pass => Ok(String::from_str(alloc, " P")?),
        _ => Ok(String::from_str(alloc, " ?")?),
    }
}

fn edit_text(alloc: Global, edit: &Edit) -> Result<String, Fail> {
    let text = match edit {
        Edit::Root(node) => {
            let node = node.id.get();
            format!(in alloc; " R{node}")?
        }
        Edit::Insert {
            parent,
            index,
            node,
        } => {
            let parent = parent.get();
            let node = node.id.get();
            format!(in alloc; " I{parent},{index},{node}")?
        }
        Edit::Set(set) => {
            let node = set.node.get();
            let name = name_in(set);
            format!(in alloc; " S{node},{name}")?
        }
        Edit::Move {
            node,
            parent,
            index,
        } => {
            let node = node.get();
            let parent = parent.get();
            format!(in alloc; " M{node},{parent},{index}")?
        }
        Edit::Remove(node) => {
            let node = node.get();
            format!(in alloc; " D{node}")?
        }
        Edit::Tree(_) => format!(in alloc; " ?")?,
    };
    Ok(text)
}

/// The name that is set, where nothing else is.
fn name_in(set: &SetNode) -> &str {
    match set.attrs.as_slice() {
        [change] => match &change.value {
            Some(Value::Text(name)) => name.as_str(),
            _ => "?",
        },
        _ => "?",
    }
}

#[test]
fn three_frames(rt: HostRuntime) -> Result<(), Fail> {
    let script = make(rt.alloc(), 7, 3, 40)?;
    let text = written(rt.alloc(), &script)?;
    assert_eq!(rt;
        text.as_str(),
        "\
1: R1 D1 I1,0,2 I1,0,3 P M1,3,0 M3,2,0 I2,0,4 S1,22 S3,25 I3,0,5 I1,0,6 I3,0,7 D5 I3,0,8 P
2: R1 I1,0,2 I1,0,3 M2,1,0 I2,0,4 I2,0,5 M5,5,0 P I5,0,6 M3,3,0 I2,0,7 S2,32 D5 I6,0,8 P
3: R1 I1,0,2 I2,0,3 I1,0,4 D3 I1,0,5 I3,0,6 I3,0,7 I1,0,8 I1,0,9 M9,4,0 I4,0,10 I6,0,11 I9,0,12 P
"
    );
    Ok(())
}

#[test]
fn more_frames_than_operations(rt: HostRuntime) -> Result<(), Fail> {
    let script = make(rt.alloc(), 0, 2, 1)?;
    let text = written(rt.alloc(), &script)?;
    assert_eq!(rt; text.as_str(), "1: R1 P P\n2: R1 P\n");
    assert!(rt; script.version == Version::One);
    assert!(rt; script.browser.is_empty());
    assert!(rt; script.readers.is_empty());
    assert!(rt; script.order.is_empty());
    assert!(rt; script.actions.is_empty());
    Ok(())
}

#[test]
fn the_last_seed(rt: HostRuntime) -> Result<(), Fail> {
    let script = make(rt.alloc(), 4294967295, 1, 30)?;
    let text = written(rt.alloc(), &script)?;
    assert_eq!(rt;
        text.as_str(),
        "\
1: R1 P S1,2 I1,0,2 P I1,0,3 P I1,0,4 I4,0,5 P I1,0,6 P I3,0,7 I3,0,8 I4,0,9 I5,0,10 I7,0,11 D10 I6,0,12 D4 P D2 I1,0,13 P P D9 I10,0,14 I8,0,15 M6,13,0 P I12,0,16 P
"
    );
    Ok(())
}
