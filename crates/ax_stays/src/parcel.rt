//! A packet that is still to be sent.
use ax_ask::MadeNote;
use ax_tree::Packet;

/// A packet that a pass made, and what is told of it.
#[derive(Debug, Drop)]
pub struct Parcel {
    pub packet: Packet,
    pub note: MadeNote,
}
