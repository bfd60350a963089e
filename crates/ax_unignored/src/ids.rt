//! Parts of a list of ids.
ghost use Rattle.std.specs.Prelude.{◌≡◌, ◌≤◌, length};
ghost use Rattle.ax_stitch.specs.Orders.{ahead, past};

use ax_base::NodeId;

/// How many ids stand before an id, or how many there are where it isn't there.
fn count_ahead(ids: &[NodeId], id: NodeId) -> usize
    ensures count { result ≡ length (ahead ids.now id) }
    ensures few { result ≤ length ids.now }
{
    let mut count = 0usize;
    for other in ids {
        if *other == id {
            return count;
        }
        count += 1;
    }
    count
}

/// The ids before an id, or all where it isn't there.
pub(crate) fn ahead(ids: &[NodeId], id: NodeId) -> &[NodeId]
    ensures { result.now ≡ ahead ids.now id }
{
    let count = count_ahead(ids, id);
    &ids[..count]
}

/// The ids behind an id, or none where it isn't there.
pub(crate) fn past(ids: &[NodeId], id: NodeId) -> &[NodeId]
    ensures { result.now ≡ past ids.now id }
{
    let count = count_ahead(ids, id);
    if count == ids.len() {
        return &ids[count..];
    }
    &ids[count + 1..]
}
