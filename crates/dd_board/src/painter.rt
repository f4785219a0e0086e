//! Who alone makes the list longer: the press, and the ledger of what the seats made.

ghost use Rattle.std.specs.Prelude.{◌≡◌, ◌↔◌, ◌<◌, ℕ, None, true, false, List, Option, IsTrue};
ghost use mathlib.Core.List.{IsPrefix};
ghost use Rattle.dd_log.specs.Desk.{finds_slot};
ghost use Rattle.dd_log.specs.History.{desk, is_end, last_step, refusal};
ghost use Rattle.dd_board.specs.Lists.{listed};
ghost use Rattle.dd_board.specs.Painting.{IsEntering, IsDrawing, attempt_of as went};
ghost use Rattle.dd_board.specs.Seats.{seeing};
ghost use Rattle.dd_board.specs.declared.painter.Attempt.TheVariants.{Done};
ghost use Rattle.dd_board.specs.Wanting.{Fits, MayGrant, OnUnfit, OnWant};

use crate::actor::Actor;
use crate::named::Named;
use crate::press::{Press, PressOf, Printed};
use crate::published::{Op, Published, Sheet};
use crate::told::Told;
use dd_log::{Entry, Log, LogRefusal};
use left_right::Absorb;
use std::marker::Model;
use std::sync::Wait;
use std::sync::ledger::Book;

/// The press, and the book of the ledger. Contracts see the entries that are published.
///
/// The book's total is the number of entries before the end.
pub struct PainterOf<L: Named, T: Absorb<Op<L>, State = ()> + Sheet + Drop> {
    pub(crate) press: PressOf<L, T>,
    pub(crate) book: Book<L>,
}

impl<L: Named, T: Absorb<Op<L>, State = ()> + Sheet + Drop> Model for PainterOf<L, T> {
    ghost use Rattle.std.specs.Prelude.{◌≡◌, List};
    ghost use Rattle.dd_log.specs.declared.events.Entry.{Entry};
    ghost use Rattle.dd_log.specs.History.{before_end};

    ghost Value = { List Entry };

    ghost view = { λ p. p.press };

    ghost invariant = { λ p. p.book.total ≡ before_end p.press };
}

/// The painter of a board.
pub type Painter<L> = PainterOf<L, Published<L>>;

/// How an entry of a seat went.
#[derive(Drop)]
pub(crate) enum Entering {
    Made,
    NoMemory,
}

/// How a call on the locked list went.
#[derive(Drop)]
pub(crate) enum Attempt<A> {
    /// It was answered by the list at this place.
    Done { place: u64, answer: A },
    /// The list didn't fit the seat. In truth it always does.
    Unfit,
    NoMemory,
}

/// How a call went, once the list fitted it.
pub(crate) fn attempt_of<A: Drop>(entering: Entering, place: u64, answer: A) -> Attempt<A>
    ensures { result ≡ went entering place answer }
{
    match entering {
        Entering::Made => Attempt::Done { place, answer },
        Entering::NoMemory => Attempt::NoMemory,
    }
}

impl<L: Named> Painter<L> {
    /// The list so far.
    pub(crate) fn told(&self) -> &Told<L>
        ensures { result.now ≡ self.now }
    {
        self.press.told()
    }

    /// The same, as a list of events.
    pub(crate) fn log(&self) -> &Log
        ensures { result.now ≡ listed L.spec self.now }
    {
        self.press.log()
    }

    /// Whether the list begins with a seat's view, and a step of the seat is past its last one.
    pub(crate) fn fits(&self, actor: &Actor<L>, step: u32) -> bool
        ensures { IsTrue result ↔ Fits self.now actor.now step }
    {
        self.told().covers(actor.view()) && self.log().last_step(actor.number()) < step
    }

    /// Publishes an entry of a seat.
    pub(crate) fn enter<R: Wait>(
        self,
        rt: &R,
        actor: &mut Actor<L>,
        entry: &Entry,
    ) -> (Painter<L>, Entering)
        requires actor { entry.now.actor ≡ actor.old.number }
        requires step { last_step self actor.old.number < entry.now.step }
        requires allowed { refusal (listed L.spec self) entry.now.event ≡ None }
        requires slot { IsTrue (finds_slot (desk (listed L.spec self)).slots entry.now.event) }
        requires kind { is_end entry.now.event ≡ false }
        ensures { IsEntering result.1 self result.0 actor.old actor.new entry.now }
    {
        let _front = self.told().front();
        let _number = actor.number();
        let PainterOf { press, mut book } = self;
        let (press, printed) = press.print(rt, entry);
        let entering = match printed {
            Printed::Made(told) => {
                actor.enter(&mut book, told);
                Entering::Made
            }
            Printed::NoMemory => Entering::NoMemory,
        };
        (PainterOf { press, book }, entering)
    }

    /// A call that the list refuses: the seat has seen that list then.
    pub(crate) fn refused<A>(
        self,
        actor: &mut Actor<L>,
        place: u64,
        answer: A,
    ) -> (Painter<L>, Attempt<A>)
        ensures seen { actor.new ≡ seeing actor.old self }
        ensures done { result.1 ≡ Done place answer }
    {
        actor.see(self.told().again());
        (self, Attempt::Done { place, answer })
    }

    /// A drawing of a seat.
    pub(crate) fn draw<R: Wait>(
        self,
        rt: &R,
        actor: &mut Actor<L>,
        entry: &Entry,
    ) -> (Painter<L>, Attempt<Result<(), LogRefusal>>)
        requires actor { entry.now.actor ≡ actor.old.number }
        requires kind { is_end entry.now.event ≡ false }
        requires slot { (slots : List (Option ℕ)) → finds_slot slots entry.now.event ≡ true }
        ensures drawing { IsDrawing result.1 L.spec actor.old actor.new entry.now }
        ensures unfit { OnUnfit result.1 (Fits self actor.old entry.now.step → ⊥) }
        ensures wants { OnWant result.1 (MayGrant L.spec L.parts actor.old entry.now.step
            (λ h. refusal h entry.now.event ≡ None)) }
    {
        if !self.fits(actor, entry.step) {
            return (self, Attempt::Unfit);
        }
        let place = self.told().front();
        if let Err(cause) = self.log().allows(&entry.event) {
            return self.refused(actor, place, Err(cause));
        }
        let (painter, entering) = self.enter(rt, actor, entry);
        (painter, attempt_of(entering, place, Ok(())))
    }
}
