// The right to take the value.
ghost use Rattle.im_turn.specs.Passes.{KnowsOwn};

use crate::logged::Logged;
use crate::view::View;
use atomic_table::Seat;
use std::marker::Model;

// A seat at the table of a turn: a view, and the slot while the value is out with it.
pub type TurnSeat<V> = Seat<Option<V>, View<<V as Logged>::Item>>;

/// The right to take the value of a turn, and what its holder knows of the log. It has no bytes, and may go to another
/// thread. Where a pass is dropped, its turn can no longer be closed.
#[derive(Drop)]
pub struct Pass<V: Logged> {
    pub(crate) seat: TurnSeat<V>,
}

impl<V: Logged> Model for Pass<V> {
    ghost use Rattle.im_turn.specs.Passes.{PassState};
    ghost use Rattle.im_turn.specs.inner.Views.{state_of};
    ghost use Rattle.im_turn.specs.inner.Steps.{IsSettled};

    ghost Value = { PassState V.Item };

    ghost view = { λ p. state_of p.seat.table_id p.seat.me.0 };

    ghost invariant = { λ p. IsSettled V.who p.seat.me };
}

impl<V: Logged> Pass<V> {
    /// Shows that the pass knows its own entries. It does nothing when it runs.
    pub fn recall(&self)
        ensures { KnowsOwn V.who self.now }
    {
        // Naming the seat brings what always holds of it to the proof.
        let _ = &self.seat;
    }
}
