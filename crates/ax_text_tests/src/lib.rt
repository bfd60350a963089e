//! Tests of the grammar of scripts by public calls: how numbers that are no whole numbers are told, and the refusals with
//! their paths.
#![tactic(auto)]

#[cfg(test)]
mod json;
#[cfg(test)]
mod scripts;
