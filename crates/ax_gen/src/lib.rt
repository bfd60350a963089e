//! Large scripts, made of a seed.
//!
//! `make` gives exactly the script of the definition `script_made` of `specs/Made.antt`.
#![tactic(auto)]

mod draws;
mod frames;
mod op;

pub use frames::make;
