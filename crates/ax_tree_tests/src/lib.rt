//! Tests of trees and of what keeps them, over public calls alone: pages, source, mirror, and copies of edits and updates.
#![tactic(auto)]

#[cfg(test)]
mod copies;
#[cfg(test)]
mod given;
#[cfg(test)]
mod of_mirror;
#[cfg(test)]
mod of_pages;
#[cfg(test)]
mod of_source;
