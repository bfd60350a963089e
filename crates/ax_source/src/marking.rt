//! Marks that an edit sets, and how they are taken back.
ghost use Rattle.std.specs.Prelude.{◌≡◌, [], ◌∷◌, IfOk, OnErr, OnOk};
ghost use Rattle.ax_tree.specs.MarkRule.{add_mark, add_marks};
ghost use Rattle.ax_source.specs.Marking.{less, taken_back};

use ax_base::{Ids, NoMemory, NodeId};
use ax_marks::Marks;
use std::alloc::Global;

/// Marks two ids, and tells of each whether it wasn't marked, so that it can be taken back.
pub(crate) fn mark_two(
    marks: &mut Marks,
    first: NodeId,
    second: NodeId,
) -> Result<(bool, bool), NoMemory>
    ensures ok { OnOk result (marks.new ≡ add_marks marks.old (first ∷ second ∷ [])) }
    ensures back { IfOk result (λ new. taken_back new.0 first (taken_back new.1 second marks.new) ≡ marks.old) }
    ensures err { OnErr result (marks.new ≡ marks.old) }
{
    let first_is_new = marks.add(first)?;
    match marks.add(second) {
        Ok(second_is_new) => Ok((first_is_new, second_is_new)),
        Err(_) => {
            take_back(marks, first, first_is_new);
            Err(NoMemory)
        }
    }
}

/// Takes back what `mark_two` did.
pub(crate) fn unmark_two(marks: &mut Marks, first: NodeId, second: NodeId, new: (bool, bool))
    ensures { marks.new ≡ taken_back new.0 first (taken_back new.1 second marks.old) }
{
    take_back(marks, second, new.1);
    take_back(marks, first, new.0);
}

fn take_back(marks: &mut Marks, id: NodeId, is_new: bool)
    ensures { marks.new ≡ taken_back is_new id marks.old }
{
    if is_new {
        let _ = marks.remove(id);
    }
}

/// Marks all listed ids, in order.
pub(crate) fn mark_all(alloc: Global, marks: &mut Marks, ids: &[NodeId]) -> Result<(), NoMemory>
    ensures ok { OnOk result (marks.new ≡ add_marks marks.old ids.now) }
    ensures err { OnErr result (marks.new ≡ marks.old) }
{
    let mut added = Ids::new(alloc);
    for id in ids {
        match mark_noting(marks, *id, &mut added) {
            Ok(()) => {}
            Err(_) => {
                unmark_all(marks, added.as_slice());
                return Err(NoMemory);
            }
        }
    }
    Ok(())
}

/// Marks an id, and notes it before where it wasn't marked.
fn mark_noting(marks: &mut Marks, id: NodeId, added: &mut Ids) -> Result<(), NoMemory>
    ensures ok { OnOk result (marks.new ≡ add_mark marks.old id) }
    ensures back { less added.new marks.new ≡ less added.old marks.old }
{
    if marks.has(id) {
        return Ok(());
    }
    added.push(id)?;
    match marks.add(id) {
        Ok(_) => Ok(()),
        Err(_) => Err(NoMemory),
    }
}

/// Takes the marks of all listed ids out.
pub(crate) fn unmark_all(marks: &mut Marks, ids: &[NodeId])
    ensures { marks.new ≡ less ids.now marks.old }
{
    for id in ids {
        let _ = marks.remove(*id);
    }
}
