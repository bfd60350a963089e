//! Tests of the low crates by their public calls: what no clause says, as rows that come from outside, how much a read
//! asks for, or that a copy shares its bytes, and each call once.
#![tactic(auto)]

#[cfg(test)]
mod bytes;
#[cfg(test)]
mod lists;
#[cfg(test)]
mod marks;
#[cfg(test)]
mod nodes;
#[cfg(test)]
mod rows;
#[cfg(test)]
mod texts;
#[cfg(test)]
mod words;
