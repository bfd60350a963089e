//! Frames, one browser and readers that share the system from threads of their own. Each frame stands in a turn, and so
//! does the forest; packets go by a lane between them. Each call is one step of the one-thread system at one point of it.
//!
//! Who calls holds a seat. A seat has seen a beginning of its journal or of the history: what others add comes first, then
//! the one entry of the call, and the call's answer is that of the list before it.
//!
//! Nothing is claimed of waiting, of fairness or of time: a call that takes the runtime may wait for another thread, and
//! its promise holds where it returns. A query is answered outside every turn: [`Snap::answer`] takes no runtime, so it can't
//! wait, and no other thread waits for it.
#![tactic(auto)]

mod answers;
mod browsing;
mod closing;
mod delivering;
mod frame_calls;
mod hub;
mod lists;
mod opening;
mod places;
mod reading;
mod seats;
mod snap;

pub use answers::HubErr;
pub use ax_base::NoMemory;
pub use ax_stays::Made;
pub use closing::ClosedHub;
pub use hub::{Hub, HubParts};
pub use seats::{BrowserSeat, FrameSeat, FrameSeats, ReaderSeat, ReaderSeats};
pub use snap::Snap;
