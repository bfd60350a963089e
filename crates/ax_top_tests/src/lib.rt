//! Tests of what no contract says of the top layers: the printed text of lines of each kind, and whole runs over sources and
//! sinks in memory, against texts that were made apart from the program.
#![tactic(auto)]

#[cfg(test)]
mod calls;
#[cfg(test)]
mod given;
#[cfg(test)]
mod lines;
#[cfg(test)]
mod scripts;
