//! Which board it is.

ghost use Rattle.std.specs.Prelude.{◌≡◌};

use std::marker::{Brand, Model, PhantomData};
use std::sync::ledger::Ledger;

/// Which board it is: its ledger, which has a part for each seat, the book of its one list, and the
/// spec that it was begun with. Contracts alone see them. Each call of a program picks them.
pub trait Named: Ledger {
    ghost use Rattle.logbook.specs.Pages.{Book};
    ghost use Rattle.dd_log.specs.declared.events.Spec.{Spec};

    ghost book: { Book };

    ghost spec: { Spec };
}

impl Named for Brand {
    ghost use Rattle.std.specs.Prelude.{[]};

    ghost book = { record { number = 0; log_name = 0; cells_name = 0 } };

    ghost spec = { record { modes = []; capacity = 0; privileged = [] } };
}

/// The number of a board's seats.
#[derive(Drop)]
pub struct SeatCount<L: Named> {
    seats: u32,
    of: PhantomData<L>,
}

impl<L: Named> Model for SeatCount<L> {
    ghost use Rattle.std.specs.Prelude.{◌≡◌, ℕ};

    ghost Value = { ℕ };

    ghost view = { λ c. c.seats };

    ghost invariant = { λ c. c.seats ≡ L.parts };
}

impl<L: Named> SeatCount<L> {
    pub(crate) fn new(seats: u32) -> SeatCount<L>
        requires { seats ≡ L.parts }
    {
        SeatCount {
            seats,
            of: PhantomData,
        }
    }

    pub(crate) fn get(&self) -> u32
        ensures { result ≡ L.parts }
    {
        self.seats
    }
}
