//! Entries of ids that are gone.
ghost use Rattle.std.specs.Prelude.{◌≡◌, ℕ, None, nat_eq, if◌then◌else◌};
ghost use Rattle.std.specs.HashMap.{get};
ghost use Rattle.ax_trees.specs.Lists.{contains};

use ax_base::NodeId;
use std::collections::HashMap;

/// Takes out the entries of the listed ids. Costs the list.
pub fn take_out<E: Drop>(entries: &mut HashMap<NodeId, E>, gone: &[NodeId])
    ensures { (z : ℕ) → get nat_eq entries.new z ≡ (if contains gone.now z then None else get nat_eq entries.old z) }
{
    for id in gone {
        let _ = entries.remove(id);
    }
}

#[cfg(test)]
mod tests {
    use super::*;
    use std::test::Fail;

    #[test]
    fn takes_out(rt: HostRuntime) -> Result<(), Fail> {
        let one = NodeId::new(1).ok_or("no id")?;
        let two = NodeId::new(2).ok_or("no id")?;
        let mut entries = HashMap::new(rt.alloc());
        entries.insert(one, 10u32)?;
        entries.insert(two, 20u32)?;
        take_out(&mut entries, &[two]);
        assert!(rt; entries.contains_key(&one));
        assert!(rt; !entries.contains_key(&two));
        Ok(())
    }
}
