//! Child lists with an id more or less.
ghost use Rattle.std.specs.Prelude.{◌≡◌, ◌<◌, ◌≤◌, ◌==◌, filter, length, not, remove, IsTrue, OnOk, OnErr};
ghost use Rattle.ax_trees.specs.Lists.{contains};
ghost use Rattle.ax_trees.specs.Spots.{inserted, removed};

use ax_base::{Ids, NoMemory, NodeId};

/// How many ids of the list are others.
pub(crate) fn others_count(ids: &[NodeId], id: NodeId) -> usize
    ensures { result ≡ length (filter (λ other. not (other == id)) ids.now) }
{
    ids.iter().filter(|other| **other != id).count()
}

/// Takes the first `id` out of the list.
pub(crate) fn leave(ids: &mut Ids, id: NodeId)
    ensures { ids.new ≡ removed id ids.old }
{
    for i in 0..ids.len() {
        if ids.as_slice()[i] == id {
            let _ = ids.remove(i);
            return;
        }
    }
}

/// Where the id stands first.
fn place_of(ids: &[NodeId], id: NodeId) -> usize
    requires { IsTrue (contains ids.now id) }
    ensures within { result < length ids.now }
    ensures first { removed id ids.now ≡ remove ids.now result }
{
    let mut at = 0;
    while at < ids.len() && ids[at] != id {
        at += 1;
    }
    at
}

/// Moves `id` to the place `index` among the others. It comes twice for a moment, so that want of memory changes nothing.
pub(crate) fn reorder(ids: &mut Ids, id: NodeId, index: usize) -> Result<(), NoMemory>
    requires there { IsTrue (contains ids.old id) }
    requires within { index ≤ length (removed id ids.old) }
    ensures ok { OnOk result (ids.new ≡ inserted index id (removed id ids.old)) }
    ensures err { OnErr result (ids.new ≡ ids.old) }
{
    let at = place_of(ids.as_slice(), id);
    if at < index {
        ids.insert(index + 1, id)?;
        let _ = ids.remove(at);
    } else {
        ids.insert(index, id)?;
        let _ = ids.remove(at + 1);
    }
    Ok(())
}
