//! Laws of runs from any state whose packets fit, through orders and through the finale: the finale is there, no update in
//! order is refused, no receipt is a gap, and each tree catches up. Each is the contract of a function with an empty body; the
//! statements stand in `specs/`.
#![tactic(auto)]

ghost use Rattle.ax_finale_laws.specs.Laws.{TheFinaleIsThere, EachStateHasItsFinale, TheTextsAreThere};
ghost use Rattle.ax_finale_laws.specs.Resumed.{EachStateKeepsItsPackets, NoStateRefusesInOrder};
ghost use Rattle.ax_finale_laws.specs.Gaps.{NoGapFromAState, EachScriptStartsInOrder};
ghost use Rattle.ax_finale_laws.specs.CatchingUp.{EachStateCatchesUp, EachActionCatchesUp, ForestIsOfTheLists};

/// Where no tree has two frames and each browser operation names a frame's tree, each run has its finale.
pub fn the_finale_is_there()
    ensures { TheFinaleIsThere }
{}

/// The same from each state, however it came about.
pub fn each_state_has_its_finale()
    ensures { EachStateHasItsFinale }
{}

/// And so the texts of a run are there: of the run itself, with the combined tree, and with its actions.
pub fn the_texts_are_there()
    ensures { TheTextsAreThere }
{}

/// From each state whose packets are those of its frames' journals, each order and the finale keep them so.
pub fn each_state_keeps_its_packets()
    ensures { EachStateKeepsItsPackets }
{}

/// And from there no update that is in order is refused.
pub fn no_state_refuses_in_order()
    ensures { NoStateRefusesInOrder }
{}

/// From each state whose tokens were asked for, and whose packets are those of its frames' journals, no receipt is a gap.
pub fn no_gap_from_a_state()
    ensures { NoGapFromAState }
{}

/// The start of each script is such a state.
pub fn each_script_starts_in_order()
    ensures { EachScriptStartsInOrder }
{}

/// From each state whose packets are those of its frames' journals, each tree that hasn't ended, and whose frame's source has a
/// root, is that source after the finale.
pub fn each_state_catches_up()
    ensures { EachStateCatchesUp }
{}

/// So it is again after the actions that follow the finale, and the catching up that follows them.
pub fn each_action_catches_up()
    ensures { EachActionCatchesUp }
{}

/// After the finale the forest is of the lists and the journals alone, where no tree has two frames.
pub fn forest_is_of_the_lists()
    ensures { ForestIsOfTheLists }
{}
