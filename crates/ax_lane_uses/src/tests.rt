//! What three threads sent and took, whatever the schedule.
use crate::exchange;
use std::test::*;

#[test]
fn five_hundred_each(rt: HostRuntime) -> Result<(), Fail> {
    let (taken, left) = exchange(&rt, rt.alloc(), 500, 1000).ok_or("no memory")?;
    assert_eq!(rt; taken.len(), 1000);
    assert_eq!(rt; left.len(), 0);
    let mut next = [1u64; 3];
    for packet in &taken {
        let at = packet.tree.get() as usize;
        assert!(rt; at < 3);
        assert_eq!(rt; packet.pass.0, next[at]);
        next[at] = next[at].wrapping_add(1);
    }
    Ok(())
}
