//! Tests of the order that a closed hub took, and of its text.
#![tactic(auto)]

#[cfg(test)]
mod order;
#[cfg(test)]
mod text;
