//! Tests of the forest over public calls alone: what calls answer as values, packets that come back, and views.
#![tactic(auto)]

#[cfg(test)]
mod calls;
#[cfg(test)]
mod given;
#[cfg(test)]
mod rows;
#[cfg(test)]
mod views;
