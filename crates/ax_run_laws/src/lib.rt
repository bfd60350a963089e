//! The laws of whole runs, over the definitions of `ax_rules` and the laws of packets. Each is the contract of a function
//! with an empty body; its statement stands in `specs/Laws.antt`.
#![tactic(auto)]

ghost use Rattle.ax_run_laws.specs.Laws.{EachRunHasItsPackets, NoUpdateInOrderIsRefused, NoReceiptIsAGap, EachTreeCatchesUp, ForestIsOfTheScript};

/// In each run each tree's packets are those of its frame's journal, and so they are good.
pub fn each_run_has_its_packets()
    ensures { EachRunHasItsPackets }
{}

/// In each run an update that is in order is accepted.
pub fn no_update_in_order_is_refused()
    ensures { NoUpdateInOrderIsRefused }
{}

/// Where each delivered token was asked for before, no receipt is a gap.
pub fn no_receipt_is_a_gap()
    ensures { NoReceiptIsAGap }
{}

/// After the finale each tree that hasn't ended, and whose frame's source has a root, is that source.
pub fn each_tree_catches_up()
    ensures { EachTreeCatchesUp }
{}

/// After the finale the forest, and so the dump, depends on the script alone.
pub fn forest_is_of_the_script()
    ensures { ForestIsOfTheScript }
{}
