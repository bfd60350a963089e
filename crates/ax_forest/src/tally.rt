//! What is counted of a tree.
ghost use Rattle.std.specs.Prelude.{◌≡◌, ℕ, List, IfOk, if◌then◌else◌};
ghost use Rattle.ax_tree.specs.declared.packet.HEntry.{HEntry};
ghost use Rattle.ax_forest.specs.ById.{IsFilled};
ghost use Rattle.ax_forest.specs.Tallied.{IsTallied, first_tally, pass_said, token_said};
ghost use Rattle.ax_forest.specs.ById.{at_id};

use crate::by_id::{ById, fill, value_at};
use ax_base::{NoMemory, PassNo, Token, TreeId};
use std::alloc::Global;

/// How often a tree was asked for before it ended, and the pass of its last applied packet.
#[derive(Clone, Copy, Debug, PartialEq, Eq)]
pub struct Tally {
    pub token: Token,
    pub at: PassNo,
}

/// The tallies of a forest's trees, ended ones among them.
pub type Tallies = ById<Tally>;

/// The tallies before the first entry.
pub fn first_tallies(alloc: Global, trees: &[TreeId]) -> Result<Tallies, NoMemory>
    ensures { IfOk result (IsFilled first_tally trees.now) }
{
    let mut tallies = Tallies::new(alloc);
    for tree in trees {
        let none = Tally {
            token: Token(0),
            at: PassNo(0),
        };
        fill(&mut tallies, *tree, none)?;
    }
    Ok(tallies)
}

/// The last applied pass of a tree, 0 of a strange one.
pub fn pass_at(tallies: &Tallies, t: TreeId) -> PassNo
    ensures { (ts : List ℕ) (h : List HEntry) → IsTallied ts h t (at_id tallies.now t) → result.0 ≡ pass_said ts h t }
{
    match value_at(tallies, t) {
        Some(tally) => tally.at,
        None => PassNo(0),
    }
}

/// The token of a tree, 0 of a strange one.
pub fn token_at(tallies: &Tallies, t: TreeId) -> Token
    ensures { (ts : List ℕ) (h : List HEntry) → IsTallied ts h t (at_id tallies.now t) → result.0 ≡ token_said ts h t }
{
    match value_at(tallies, t) {
        Some(tally) => tally.token,
        None => Token(0),
    }
}
