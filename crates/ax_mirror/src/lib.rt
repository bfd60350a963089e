//! The receiver's copy of a tree: updates change it by the update rule, or are refused and change nothing.
#![tactic(auto)]

mod about;
mod bundling;
mod children;
mod draft;
mod entries;
mod finishing;
mod mirrored;
mod placing;
mod removing;
mod starting;
mod stepping;
mod updating;

pub use mirrored::Mirror;
