//! What trees, histories and forests mean, as definitions: verdicts and the forest of a history, the joined list, events,
//! extents, hit and focus, texts, positions, moves, walks without ignored nodes, and the combined tree. Their laws are the
//! contracts of functions with empty bodies.
#![tactic(auto)]

ghost use Rattle.ax_rules.specs.Laws.{EachHistoryGoesOn, BundlesGiveTheSource, NoneInOrderIsRefused, EachPlaceHasAnExtent};

/// Each history goes on from each front of it.
pub fn each_history_goes_on()
    ensures { EachHistoryGoesOn }
{}

/// Where a tree's received packets are good, the applied bundles build the source at the last applied pass.
pub fn bundles_give_the_source()
    ensures { BundlesGiveTheSource }
{}

/// Where the received packets and the next one are good, its verdict is that of the mirrors, and a bundle that is to be
/// applied is accepted.
pub fn none_in_order_is_refused()
    ensures { NoneInOrderIsRefused }
{}

/// Each place of the joined list has an extent.
pub fn each_place_has_an_extent()
    ensures { EachPlaceHasAnExtent }
{}
