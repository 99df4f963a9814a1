//! Seats, from which callers and the keeper step at the gates.
ghost use Rattle.std.specs.Prelude.{◌≡◌, ◌-◌, length};

use crate::rule::GateView;
use atomic_table::Seat;
use std::marker::Model;

/// A seat at the gates: callers enter and leave from it, as many at once as it has places. The keeper's seat also
/// opens, shuts and claims. To a contract it is the table of its gates and what it knows of them, which includes how often
/// its callers found a gate gone, and how often it was told a key as last.
#[derive(Drop)]
pub struct GateSeat {
    pub(crate) seat: Seat<(), GateView>,
    pub(crate) free: u32,
}

impl Model for GateSeat {
    ghost use Rattle.std.specs.Prelude.{◌≡◌, ◌+◌, ◌≤◌, [], length};
    ghost use Rattle.call_gate.specs.Gates.{SeatView};

    ghost Value = { SeatView };

    ghost view = { λ s. record { gate = s.seat.table_id; knows = s.seat.me.0 } };

    ghost invariant = { λ s. (s.seat.me.1 ≡ []) × (s.free + length s.seat.me.0.inside ≡ s.seat.me.0.places) × (s.seat.me.0.passing ≡ []) × (s.seat.me.0.cut ≡ 0) × (s.seat.me.0.places ≤ 16777215) };
}

impl GateSeat {
    /// The places that no caller inside takes, 2^24 - 1 at most.
    pub fn free(&self) -> u32
        ensures { result ≡ self.now.knows.places - length self.now.knows.inside }
    {
        self.free
    }
}
