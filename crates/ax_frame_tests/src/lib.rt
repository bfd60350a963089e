//! Tests of what no printed text shows of the sender: each call of the client tree, of the ancestors and of the serializer that
//! a run doesn't make by itself, updates that are kept until their bundle is whole, and the edits that ride in a packet.
#![tactic(auto)]

#[cfg(test)]
mod calls;
#[cfg(test)]
mod given;
#[cfg(test)]
mod kept;
#[cfg(test)]
mod slips;
