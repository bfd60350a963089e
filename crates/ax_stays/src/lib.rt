//! What the calls of a hub do in a turn: each enters, makes one step of its value, and leaves. The value in a frame's turn is
//! the frame, and that in the forest's turn is the forest. At the ends of the lane a parcel is sent or kept, and a packet is
//! taken or held.
//!
//! A stay adds what its call answers, behind what others have added since the seat was there; the answer is that of the list
//! before it. Nothing is claimed of waiting, of fairness or of time.
#![tactic(auto)]

mod forest_round;
mod forest_stays;
mod frame_round;
mod frame_stays;
mod lane_ends;
mod look;
mod parcel;

pub use ax_base::NoMemory;
pub use forest_round::ForestRound;
pub use forest_stays::{ask_in, destroy_in, look_in, probe_in, receive_in};
pub use frame_round::{FrameRound, Made};
pub use frame_stays::{deliver_in, edit_in, mark_below_in, mark_in, pass_in};
pub use lane_ends::{hold, send_kept};
pub use look::Look;
pub use parcel::Parcel;
