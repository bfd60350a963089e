//! Stories of pages: scripts, and the text that the program prints for each. The texts come from a reference written apart.
#![tactic(auto)]

#[cfg(test)]
mod combined;
#[cfg(test)]
mod events;
#[cfg(test)]
mod hosts;
#[cfg(test)]
mod packets;
#[cfg(test)]
mod positions;
#[cfg(test)]
mod queries;
#[cfg(test)]
mod story;
#[cfg(test)]
mod walks;
