//! The ends of a lane.

ghost use Rattle.std.specs.Prelude.{◌≡◌};

use crate::holding::Holding;
use crate::rule::InOrder;
use ax_tree::Packet;
use crossbeam_queue::{RuledSegQueue, SegPass};
use std::marker::Model;

pub(crate) type Pass = SegPass<Packet, Holding>;

pub(crate) type Line = RuledSegQueue<Packet, Holding, InOrder>;

/// Who sends the packets of one tree.
///
/// Contracts see its lane, its tree, the packets that it has sent, and at which places these stand among all packets
/// that were ever sent.
#[derive(Drop)]
pub struct Tx {
    pub(crate) pass: SegPass<Packet, Holding>,
}

impl Model for Tx {
    ghost use Rattle.ax_lane.specs.Ends.{TxView, tx_view, IsTxPass};

    ghost Value = { TxView };

    ghost view = { λ t. tx_view t.pass };

    ghost invariant = { λ t. IsTxPass t.pass };
}

/// Who takes the packets. It counts how often the lane was empty, up to the end of `u64`.
///
/// Contracts see its lane, the packets that it got, the lane's trees, and that count.
#[derive(Drop)]
pub struct Rx {
    pub(crate) pass: SegPass<Packet, Holding>,
    pub(crate) lulls: u64,
}

impl Model for Rx {
    ghost use Rattle.ax_lane.specs.Ends.{RxView, rx_view, IsRxPass};

    ghost Value = { RxView };

    ghost view = { λ t. rx_view t.pass t.lulls };

    ghost invariant = { λ t. IsRxPass t.pass };
}

impl Rx {
    /// How often a take has found the lane empty.
    pub fn lulls(&self) -> u64
        ensures { result ≡ self.now.lulls }
    {
        self.lulls
    }
}
