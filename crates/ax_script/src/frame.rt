//! The frames of a script, whose trees differ.
ghost use Rattle.std.specs.Prelude.{◌≡◌, [], Result};
ghost use Rattle.serde_json.specs.Data.{Data};
ghost use Rattle.serde_json.specs.View.{view, items_view};
ghost use Rattle.ax_json.specs.Refused.{Refusal, Gives};
ghost use Rattle.ax_script.specs.Frames.{frame_of, frames_after, frames_of};
ghost use Rattle.ax_script.specs.Trees.{knows};

use crate::trees::{add_tree, is_known};
use crate::{FrameScript, FrameScripts};
use ax_attrs::Version;
use ax_forms::FrameOpForm;
use ax_json::{
    Fault, Form, ListOf, Tree, WalkErr, array_of, fields2, in_item, in_member, refuse, required,
};
use serde_json::Value;
use std::alloc::Global;
use std::collections::BTreeSet;

/// A frame whose tree isn't taken.
#[tactic(auto, unfolding(crate::specs::Frames::frame_of))]
fn frame_of(
    alloc: Global,
    version: Version,
    taken: &BTreeSet<u32>,
    v: Value,
) -> Result<FrameScript, WalkErr>
    ensures { Gives (λ x. x) result (frame_of version (knows taken.now) (view v)) }
{
    let (tree, ops) = fields2(alloc, v, "tree", "ops")?;
    let tree = required(alloc, &Tree, "tree", tree)?;
    if is_known(taken, tree) {
        return Err(in_member(alloc, "tree", refuse(alloc, Fault::BadNumber)));
    }
    let form = ListOf {
        form: FrameOpForm { version },
    };
    let ops = required(alloc, &form, "ops", ops)?;
    Ok(FrameScript { tree, ops })
}

/// The frames of an array. No list is searched for their trees.
#[tactic(auto, using(crate::proofs::Steps::none_known, crate::proofs::Steps::has_more))]
fn frames_after(alloc: Global, version: Version, list: Vec<Value>) -> Result<FrameScripts, WalkErr>
    ensures { Gives (λ x. x) result (frames_after version [] (items_view list.items)) }
{
    let mut found = FrameScripts::new(alloc);
    let mut taken = BTreeSet::new(alloc);
    for v in list {
        match frame_of(alloc, version, &taken, v) {
            Ok(frame) => {
                add_tree(&mut taken, frame.tree)?;
                found.push(frame)?;
            }
            Err(e) => return Err(in_item(alloc, found.len(), e)),
        }
    }
    Ok(found)
}

/// The frames, 1 to 1000.
#[derive(Clone, Copy)]
pub(crate) struct FramesForm {
    pub version: Version,
}

impl Form for FramesForm {
    type Item = FrameScripts;

    ghost reads = { λ f. frames_of f.version };

    #[tactic(auto, unfolding(crate::specs::Frames::frames_of), using(ax_forms::proofs::Under::items_len_view))]
    fn read(&self, alloc: Global, v: Value) -> Result<FrameScripts, WalkErr> {
        let items = array_of(alloc, v)?;
        if items.is_empty() || items.len() > 1000 {
            return Err(refuse(alloc, Fault::BadCount));
        }
        frames_after(alloc, self.version, items)
    }
}
