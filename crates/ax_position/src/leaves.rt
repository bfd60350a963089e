//! The search of the leaf within a place on which an offset of its text stands.
ghost use Rattle.std.specs.Prelude.{◌≡◌, ◌+◌, Bool, false, option_map};
ghost use Rattle.ax_rules.specs.Stitched.{stitched};
ghost use Rattle.ax_rules.specs.Texts.{capped};
ghost use Rattle.ax_tree.specs.Forest.{IsSound};
ghost use Rattle.ax_position.specs.Walks.{folded, rows};
ghost use Rattle.ax_position.specs.Leaves.{begun_search, fits, goal_of, is_found, kept, pos_on, sought};

use crate::places::{Visitor, walk};
use crate::positions::text_pos;
use crate::starts::{Start, counted};
use crate::targets::Within;
use ax_base::{Affinity, NoMemory, Place, Pos};
use ax_node::NodeData;
use ax_tree::Grove;

/// A leaf, and where its text starts in the document.
#[derive(Clone, Copy, Debug)]
pub(crate) struct Leaf {
    pub(crate) place: Place,
    pub(crate) start: usize,
}

/// The search of the leaf within a place on which an offset of its text stands: where the place starts, the scalars that
/// were counted in the document and in the place, and the leaf found so far.
#[derive(Clone, Copy, Debug)]
pub(crate) struct Search {
    pub(crate) target: Start,
    pub(crate) offset: usize,
    pub(crate) affinity: Affinity,
    pub(crate) at: usize,
    pub(crate) len: usize,
    pub(crate) found: Option<Leaf>,
}

/// Downstream a leaf that starts by the global offset, upstream one that ends from it on.
fn fits(affinity: &Affinity, goal: usize, start: usize, end: usize) -> bool
    ensures { result ≡ fits affinity.now goal start end }
{
    match affinity {
        Affinity::Down => start <= goal,
        Affinity::Up => goal <= end,
    }
}

/// Downstream the last leaf, upstream the first.
fn kept(affinity: &Affinity, found: &Option<Leaf>, leaf: Leaf) -> Option<Leaf>
    ensures { result ≡ kept affinity.now found.now leaf }
{
    match affinity {
        Affinity::Down => Some(leaf),
        Affinity::Up => match found {
            Some(first) => Some(*first),
            None => Some(leaf),
        },
    }
}

impl Search {
    fn new(target: Place, offset: usize, affinity: &Affinity) -> Search
        ensures { result ≡ begun_search target offset affinity.now }
    {
        Search {
            target: Start::new(target),
            offset,
            affinity: *affinity,
            at: 0,
            len: 0,
            found: None,
        }
    }

    /// The global offset that is sought, where the place was met.
    pub(crate) fn goal(&self) -> usize
        ensures { result ≡ goal_of self.now }
    {
        self.target.start.saturating_add(self.offset)
    }

    /// Whether no later leaf is found: downstream the next one starts behind the goal, upstream one is found, and as much
    /// of the text was counted as the offset.
    fn is_found(&self) -> bool
        ensures { result ≡ is_found self.now }
    {
        match self.affinity {
            Affinity::Down => self.goal() < self.at,
            Affinity::Up => self.found.is_some() && self.offset <= self.len,
        }
    }
}

impl Visitor for Search {
    ghost seen = { sought };

    ghost fails = { λ _. false };

    fn visit(
        &mut self,
        place: &Place,
        node: &NodeData,
        leaf: bool,
        within: Within,
    ) -> Result<(), NoMemory> {
        if self.target.met && self.is_found() {
            return Ok(());
        }
        self.target.see(place, node, leaf, within.one);
        let start = self.at;
        self.at = counted(leaf, start, node);
        self.len = counted(leaf && within.one, self.len, node);
        let goal = self.goal();
        if leaf && within.one && fits(&self.affinity, goal, start, self.at) {
            self.found = kept(
                &self.affinity,
                &self.found,
                Leaf {
                    place: *place,
                    start,
                },
            );
        }
        Ok(())
    }

    fn is_settled(&self) -> bool {
        self.target.met && self.is_found()
    }
}

/// The leaf within a place on which an offset of its text stands.
pub(crate) fn searched<G: Grove>(g: &G, place: &Place, offset: usize, affinity: &Affinity) -> Search
    ensures seen { result ≡ folded sought (begun_search place.now offset affinity.now) (rows (stitched (G.forest g.now)) place.now) }
    ensures sound { IsSound (G.forest g.now) }
{
    let mut search = Search::new(*place, offset, affinity);
    let _ = walk(g, place, &mut search);
    search
}

/// The position of the goal on the leaf that was found.
pub(crate) fn on_leaf(search: &Search) -> Option<Pos>
    ensures { result ≡ option_map (pos_on (goal_of search.now) search.now.affinity) search.now.found }
{
    let leaf = search.found?;
    Some(text_pos(&leaf.place, search.goal(), leaf.start, &search.affinity))
}
