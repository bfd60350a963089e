//! Laws of the joined list of sound forests: no place stands twice; each place has a leaf, each position that isn't
//! refused a leaf form, and each bound that a move reaches a position; and bounds ascend. So the defaults of replies,
//! for what is none, are never reached. Each law is the contract of a function with an empty body; the statements stand
//! in `specs/`.
//!
//! The proofs cite lemmas of `ax_stitch` on which tree hangs where, and none of its bodies. The lemmas here on the list
//! as a tree, on its parts at a place and on where leaves start serve the crates of positions and moves.
#![tactic(auto)]

ghost use Rattle.ax_place_laws.specs.Laws.{NoPlaceStandsTwice, EachPlaceHasALeaf, EachOffsetHasALeafForm, EachPositionHasALeafForm, EachBoundHasAPosition};
ghost use Rattle.ax_place_laws.specs.Laws.{BoundsAscend, EachBoundIsInTheDocument, TheFirstAboveIsTheLeast, TheLastBelowIsTheGreatest};

/// No place stands twice in the joined list.
pub fn no_place_stands_twice()
    ensures { NoPlaceStandsTwice }
{}

/// Each place of the joined list has a leaf: itself, or one below it.
pub fn each_place_has_a_leaf()
    ensures { EachPlaceHasALeaf }
{}

/// At each offset of a place's text there is a leaf form, with either affinity.
pub fn each_offset_has_a_leaf_form()
    ensures { EachOffsetHasALeafForm }
{}

/// Each position that isn't refused has a leaf form.
pub fn each_position_has_a_leaf_form()
    ensures { EachPositionHasALeafForm }
{}

/// A move that reaches a bound has a position there.
pub fn each_bound_has_a_position()
    ensures { EachBoundHasAPosition }
{}

/// The bounds by characters, words and leaves ascend.
pub fn bounds_ascend()
    ensures { BoundsAscend }
{}

/// No bound is above the document's length.
pub fn each_bound_is_in_the_document()
    ensures { EachBoundIsInTheDocument }
{}

/// The first bound above an offset is the least above it, and there is one exactly where the rule of moves has one.
pub fn the_first_above_is_the_least()
    ensures { TheFirstAboveIsTheLeast }
{}

/// The last bound below an offset is the greatest below it, and there is one exactly where the rule of moves has one.
pub fn the_last_below_is_the_greatest()
    ensures { TheLastBelowIsTheGreatest }
{}
