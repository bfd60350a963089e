//! Trees of named nodes, as definitions: what stands where in them, how they are changed, and what follows.
#![tactic(auto)]
