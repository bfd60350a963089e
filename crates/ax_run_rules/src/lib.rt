//! What a run is, as definitions over the rules of trees and histories: scripts, states, steps and the finale, fair and
//! taken orders, replies, actions, and the printed text. Worked examples are computed from them by the checker.
#![tactic(auto)]

ghost use Rattle.ax_run_rules.specs.Laws.{EachRunGoesOn};

/// Each run of an order goes on from the run of each front of it, so no reader goes back.
pub fn each_run_goes_on()
    ensures { EachRunGoesOn }
{}
