//! The two ends of the lane: a parcel is sent or kept, and a packet is taken and held.
ghost use Rattle.std.specs.Prelude.{◌≡◌, ◌++◌, ◌∷◌, [], Some};
ghost use Rattle.ax_tree.specs.Packets.{IsGood};
ghost use Rattle.ax_stays.specs.declared.parcel.Parcel.{Parcel as KeptParcel};
ghost use Rattle.ax_stays.specs.LaneEnds.{IsSentOn, IsHeldNow};

use crate::parcel::Parcel;
use ax_ask::PassNote;
use ax_base::NoMemory;
use ax_lane::{Lane, Rx, Tx};
use ax_tree::Packet;
use std::sync::Wait;

/// Sends the parcel that is kept, and tells its note. Without memory it is kept still. Where none is kept there is nothing to
/// tell.
pub fn send_kept<R: Wait>(
    rt: &R,
    lane: &Lane,
    tx: &mut Tx,
    kept: &mut Option<Parcel>,
) -> Result<PassNote, NoMemory>
    requires lane { tx.old.lane ≡ lane.now }
    requires next { (p : KeptParcel) → kept.old ≡ Some p → (p.packet.tree ≡ tx.old.tree) × IsGood tx.old.tree (tx.old.sent ++ p.packet ∷ []) }
    ensures { IsSentOn kept.old tx.old result kept.new tx.new }
{
    match kept.take() {
        None => Ok(PassNote::Nothing),
        Some(parcel) => {
            let Parcel { packet, note } = parcel;
            match lane.send(rt, tx, packet) {
                Ok(()) => Ok(PassNote::Made(note)),
                Err(refused) => {
                    let packet = refused.1;
                    *kept = Some(Parcel { packet, note });
                    Err(NoMemory)
                }
            }
        }
    }
}

/// Takes a packet out of the lane, unless one is held.
pub fn hold<R: Wait>(rt: &R, lane: &Lane, rx: &mut Rx, held: &mut Option<Packet>)
    requires { rx.old.lane ≡ lane.now }
    ensures { IsHeldNow held.old rx.old held.new rx.new }
{
    if held.is_some() {
        return;
    }
    *held = lane.take(rt, rx);
}
