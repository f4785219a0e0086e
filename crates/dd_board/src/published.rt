//! The list as readers find it, and what makes it go on.

ghost use Rattle.std.specs.Prelude.{◌≡◌};
ghost use Rattle.dd_board.specs.Lists.{listed, IsLast};

use crate::named::Named;
use crate::told::Told;
use dd_log::{Entry, Log};
use left_right::Absorb;
use std::alloc::AllocError;
use std::cell::Cell;
use std::marker::Model;

/// The one list, so far. Readers find it whole.
#[derive(Drop)]
pub struct Published<L: Named> {
    pub(crate) log: Log,
    pub(crate) told: Told<L>,
    ghost same: { log ≡ listed L.spec told },
}

/// An entry, with the list of which it is the last.
#[derive(Drop)]
pub struct Step<L: Named> {
    entry: Entry,
    told: Told<L>,
}

impl<L: Named> Model for Step<L> {
    ghost use Rattle.std.specs.Prelude.{List};
    ghost use Rattle.dd_log.specs.declared.events.Entry.{Entry};
    ghost use Rattle.dd_board.specs.Lists.{IsLast};

    ghost Value = { Entry × List Entry };

    ghost view = { λ s. (s.entry, s.told) };

    ghost invariant = { λ s. IsLast s.entry s.told };
}

/// The writer's operation: a step for each of the two copies of the list, or none.
#[derive(Drop)]
pub struct Op<L: Named> {
    first: Cell<Option<Step<L>>>,
    second: Option<Step<L>>,
}

impl<L: Named> Op<L> {
    /// An operation that does nothing.
    pub(crate) fn idle() -> Op<L> {
        Op {
            first: Cell::new(None),
            second: None,
        }
    }

    /// The steps that bring an entry into the two copies.
    pub(crate) fn of(first: Entry, second: Entry, told: &Told<L>) -> Op<L>
        requires first { IsLast first told.now }
        requires second { IsLast second told.now }
    {
        let first = Step {
            entry: first,
            told: told.again(),
        };
        let second = Step {
            entry: second,
            told: told.again(),
        };
        Op {
            first: Cell::new(Some(first)),
            second: Some(second),
        }
    }
}

impl<L: Named> Published<L> {
    /// Takes in the entry of a step that is its next one. It takes no memory.
    fn take_in(&mut self, step: Step<L>) {
        let Step { entry, told } = step;
        if told.follows(&self.told) {
            self.log.add(entry);
            self.told = told;
        }
    }
}

impl<L: Named> Absorb<Op<L>> for Published<L> {
    ghost use Rattle.std.specs.Prelude.{◌≡◌};

    type State = ();

    ghost state = { λ published. tt };

    ghost applied = { λ state operation. state };

    ghost never_fails = { Unit {0} };

    fn absorb_first(&mut self, operation: &Op<L>, _other: &Published<L>) -> Result<(), AllocError> {
        if let Some(step) = operation.first.take() {
            self.take_in(step);
        }
        Ok(())
    }

    fn absorb_second(&mut self, operation: Op<L>, _other: &Published<L>) -> Result<(), Op<L>> {
        let Op {
            first: _first,
            second,
        } = operation;
        if let Some(step) = second {
            self.take_in(step);
        }
        Ok(())
    }
}

/// What a copy of the list is, in a type that hides how it takes in operations.
pub trait Sheet {
    ghost use Rattle.std.specs.Prelude.{List};
    ghost use Rattle.dd_log.specs.declared.events.Entry.{Entry};

    ghost entries: { Self → List Entry };
}

impl<L: Named> Sheet for Published<L> {
    ghost entries = { λ published. published.told };
}
