//! Each frame with its actions.
ghost use Rattle.std.specs.Prelude.{◌≡◌, ℕ, [], Some, IfOk, OnOk, map, nat_eq, if◌then◌else◌};
ghost use Rattle.std.specs.HashMap.{get};
ghost use Rattle.ax_frame.specs.Frames.{Journaled};
ghost use Rattle.ax_trees.specs.Lists.{NoneTwice};
ghost use Rattle.ax_actions.specs.Acting.{Gives, place_in, share_of, trees_in, with_one_more, with_own};

use ax_ask::{Action, Actions, What};
use ax_base::{NoMemory, TreeId};
use ax_frame::{Frame, Frames};
use std::alloc::Global;
use std::collections::HashMap;

/// A frame, and the actions of its tree, in order.
#[derive(Drop)]
pub(crate) struct Share {
    pub frame: Frame,
    pub own: Actions,
}

fn copy_of(a: &Action) -> Result<Action, NoMemory>
    ensures { IfOk result (λ b. b ≡ a.now) }
{
    let what = match &a.what {
        What::Focus => What::Focus,
        What::SetValue(text) => What::SetValue(text.copy()?),
        What::Scroll => What::Scroll,
    };
    Ok(Action {
        tree: a.tree,
        node: a.node,
        what,
    })
}

/// The frames, each without actions.
fn without_actions(alloc: Global, frames: Frames) -> Result<Vec<Share>, NoMemory>
    ensures { IfOk result (λ shares. shares.items ≡ map (with_own []) frames.items) }
{
    let mut shares = Vec::with_capacity(alloc, frames.len())?;
    for frame in frames {
        let own = Actions::new(alloc);
        shares.push(Share { frame, own })?;
    }
    Ok(shares)
}

/// The frame of a tree stands at this place.
fn put_place(places: &mut HashMap<TreeId, usize>, tree: TreeId, at: usize) -> Result<(), NoMemory>
    ensures { OnOk result ((t : ℕ) → get nat_eq places.new t ≡ (if nat_eq tree t then Some at else get nat_eq places.old t)) }
{
    match places.insert(tree, at) {
        Ok(_) => Ok(()),
        Err(_) => Err(NoMemory),
    }
}

/// Where the frame of each tree stands. From the end, so that the first of a tree that stood twice would be found.
fn places_of(alloc: Global, shares: &[Share]) -> Result<HashMap<TreeId, usize>, NoMemory>
    ensures { IfOk result (λ places. (t : ℕ) → get nat_eq places t ≡ place_in (trees_in shares.now) t) }
{
    let mut places = HashMap::new(alloc);
    let mut left = shares.len();
    while left > 0 {
        left -= 1;
        put_place(&mut places, shares[left].frame.tree(), left)?;
    }
    Ok(places)
}

fn add_own(share: &mut Share, action: &Action) -> Result<(), NoMemory>
    ensures { OnOk result (share.new ≡ with_one_more action.now share.old) }
{
    let copy = copy_of(action)?;
    share.own.push(copy)
}

/// Gives an action to the frame of its tree, where there is one.
fn give(
    shares: &mut Vec<Share>,
    places: &HashMap<TreeId, usize>,
    action: &Action,
) -> Result<(), NoMemory>
    requires { get nat_eq places.now action.now.tree ≡ place_in (trees_in shares.old.items) action.now.tree }
    ensures { OnOk result (Gives action.now (get nat_eq places.now action.now.tree) shares.old.items shares.new.items) }
{
    match places.get(&action.tree) {
        Some(at) => add_own(&mut shares[*at], action),
        None => Ok(()),
    }
}

/// Gives each frame the actions of its tree.
pub(crate) fn shares_of(
    alloc: Global,
    frames: Frames,
    actions: &Actions,
) -> Result<Vec<Share>, NoMemory>
    requires { NoneTwice (map (λ (j : Journaled). j.tree) frames.items) }
    ensures { IfOk result (λ shares. shares.items ≡ map (share_of actions.now) frames.items) }
{
    let mut shares = without_actions(alloc, frames)?;
    let places = places_of(alloc, shares.as_slice())?;
    let list = actions.as_slice();
    for action in list {
        give(&mut shares, &places, action)?;
    }
    Ok(shares)
}
