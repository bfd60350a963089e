//! What two threads wrote, whatever the schedule.
use crate::{Note, Notes, look_twice, two_writers};
use ax_turn::Turn;
use std::test::*;

#[test]
fn a_thousand_each(rt: HostRuntime) -> Result<(), Fail> {
    let notes = two_writers(&rt, rt.alloc(), 1000).ok_or("no memory")?;
    assert_eq!(rt; notes.items.len(), 2000);
    let mut next = [0u64; 2];
    for note in &notes.items {
        assert!(rt; note.by < 2);
        let by = note.by as usize;
        assert_eq!(rt; note.number, next[by]);
        next[by] = next[by].wrapping_add(1);
    }
    assert_eq!(rt; next[0], 1000);
    assert_eq!(rt; next[1], 1000);
    Ok(())
}

#[test]
fn a_look_sees_all(rt: HostRuntime) -> Result<(), Fail> {
    let mut notes = Notes {
        items: Vec::new(rt.alloc()),
    };
    notes.items.push(Note { by: 0, number: 7 })?;
    let Ok((turn, mut seat)) = Turn::new(rt.alloc(), notes, 1) else {
        return Err("no memory".into());
    };
    let (first, second) = look_twice(&rt, &turn, &mut seat).ok_or("no memory")?;
    assert_eq!(rt; first.len(), 1);
    assert_eq!(rt; second.len(), 1);
    Ok(())
}
