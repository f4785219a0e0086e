//! The screen: the painter behind its lock.

ghost use Rattle.std.specs.Prelude.{◌≡◌, ◌≤◌, ℕ, None, true, false, length, take, List, Option, IfOk, OnErr, IsOk, is_ok};
ghost use Rattle.std.specs.Sync.Mutex.{mutex_guard_value};
ghost use Rattle.dd_log.specs.Desk.{finds_slot};
ghost use Rattle.dd_log.specs.History.{allowed, is_end, before_end, refusal};
ghost use Rattle.dd_board.specs.Ending.{HasEnded};
ghost use Rattle.dd_board.specs.Lists.{listed};
ghost use Rattle.dd_board.specs.Listing.{made_by, EachBegins};
ghost use Rattle.dd_board.specs.Drawing.{drawing_of, drawing_answer};
ghost use Rattle.dd_board.specs.Opening.{IsOpened, IsClosed};
ghost use Rattle.dd_board.specs.Painting.{IsDrawn};
ghost use Rattle.dd_board.specs.Seats.{entry_if, IsCall};
ghost use Rattle.dd_board.specs.Wanting.{MayGrant};
ghost use Rattle.dd_table.specs.Opening.{opening, closing};

use crate::actor::Actor;
use crate::board::Seat;
use crate::holding::Holding;
use crate::listing::{Copied, FullList, gather};
use crate::named::{Named, SeatCount};
use crate::painter::{Attempt, Painter, PainterOf};
use crate::press::Printed;
use crate::published::{Op, Published, Sheet};
use crate::told::Told;
use dd_calls::{CloseRefusal, OpenRefusal};
use dd_log::{Draw, Entry, Event, LogRefusal};
use left_right::Absorb;
use std::alloc::{AllocError, Global};
use std::sync::{Mutex, MutexGuard, Wait};

/// The screen of a board, which all threads share.
pub struct ScreenOf<L: Named, T: Absorb<Op<L>, State = ()> + Sheet + Drop> {
    painter: Mutex<Option<PainterOf<L, T>>>,
    seats: SeatCount<L>,
}

/// The screen of a board, which all threads share. End it by `finish`.
pub type Screen<L> = ScreenOf<L, Published<L>>;

/// What a drawing is answered.
#[derive(Drop)]
pub struct Drawn<L: Named> {
    /// How many entries stood before it, or in the list that refused it.
    pub place: u64,
    pub answer: Result<(), LogRefusal>,
    /// The list then, with the drawing as its last entry where it was accepted.
    pub told: Told<L>,
}

/// Puts the painter back behind its lock.
fn give_back<L: Named>(guard: MutexGuard<'_, Option<Painter<L>>>, painter: Painter<L>)
    requires { mutex_guard_value guard ≡ None }
{
    let mut guard = guard;
    match guard.replace(painter) {
        None => {}
        Some(_other) => unreachable!(),
    }
    MutexGuard::unlock(guard);
}

impl<L: Named> Screen<L> {
    pub(crate) fn new(painter: Painter<L>, seats: u32) -> Screen<L>
        requires { seats ≡ L.parts }
    {
        ScreenOf {
            painter: Mutex::new(Some(painter)),
            seats: SeatCount::new(seats),
        }
    }

    /// Takes the writer apart, and ends the screen. It takes no memory.
    pub fn finish<R: Wait>(self, rt: &R) {
        let ScreenOf {
            painter,
            seats: _seats,
        } = self;
        match painter.into_inner() {
            None => {}
            Some(painter) => {
                let PainterOf { press, book: _book } = painter;
                press.finish(rt);
            }
        }
    }

    /// Takes the lock, and the painter out of it. In truth it is always there.
    fn take<R: Wait>(&self, rt: &R) -> (MutexGuard<'_, Option<Painter<L>>>, Painter<L>)
        ensures { mutex_guard_value result.0 ≡ None }
    {
        for _ in rt.forever() {
            let mut guard = self.painter.lock(rt);
            if let Some(painter) = guard.take() {
                return (guard, painter);
            }
            MutexGuard::unlock(guard);
        }
        unreachable!()
    }

    /// A drawing, once the locked list fits the actor.
    fn draw_entry<R: Wait>(
        &self,
        rt: &R,
        actor: &mut Actor<L>,
        entry: &Entry,
    ) -> Result<(u64, Result<(), LogRefusal>), AllocError>
        requires actor { entry.now.actor ≡ actor.old.number }
        requires kind { is_end entry.now.event ≡ false }
        requires slot { (slots : List (Option ℕ)) → finds_slot slots entry.now.event ≡ true }
        ensures drawn { IsDrawn result L.spec actor.old actor.new entry.now }
        ensures wants { OnErr result (MayGrant L.spec L.parts actor.old entry.now.step
            (λ h. refusal h entry.now.event ≡ None)) }
    {
        for _ in rt.forever() {
            let (guard, painter) = self.take(rt);
            let (painter, attempt) = painter.draw(rt, actor, entry);
            give_back(guard, painter);
            match attempt {
                Attempt::Done { place, answer } => return Ok((place, answer)),
                Attempt::NoMemory => return Err(AllocError),
                Attempt::Unfit => {}
            }
        }
        unreachable!()
    }

    /// Draws, or says why not: the list at the place answers, which begins with all that the actor
    /// saw or was told, and which the drawing is added to where it is accepted.
    ///
    /// At an error there was no memory for a drawing that the list allowed, and no entry was made.
    /// It waits for as long as the list has a step of this actor that isn't below this one.
    pub fn draw<R: Wait>(
        &self,
        rt: &R,
        actor: &mut Actor<L>,
        step: u32,
        drawing: Draw,
    ) -> Result<Drawn<L>, AllocError>
        ensures answer { IfOk result (λ d.
            d.answer ≡ drawing_answer L.spec (take d.place d.told) drawing) }
        ensures call { IfOk result (λ d. IsCall actor.old actor.new d.place
            (entry_if d.answer (drawing_of actor.old.number step drawing))) }
        ensures told { IfOk result (λ d. d.told ≡ actor.new.view) }
        ensures err { OnErr result (actor.new ≡ actor.old) }
        ensures wants { OnErr result (MayGrant L.spec L.parts actor.old step
            (λ h. allowed h drawing ≡ None)) }
    {
        let entry = Entry {
            actor: actor.number(),
            step,
            event: Event::Draw(drawing),
        };
        let (place, answer) = self.draw_entry(rt, actor, &entry)?;
        Ok(Drawn {
            place,
            answer,
            told: actor.view().again(),
        })
    }

    /// An opening, once the locked list fits the actor.
    pub(crate) fn open<R: Wait>(
        &self,
        rt: &R,
        alloc: Global,
        actor: &mut Actor<L>,
        app: u32,
        step: u32,
    ) -> Result<(u64, Result<Holding, OpenRefusal>), AllocError>
        ensures opened { IsOpened result L.spec actor.old actor.new app step }
        ensures wants { OnErr result (MayGrant L.spec L.parts actor.old step
            (λ h. IsOk (opening h app))) }
    {
        for _ in rt.forever() {
            let (guard, painter) = self.take(rt);
            let (painter, attempt) = painter.open(rt, alloc, actor, app, step);
            give_back(guard, painter);
            match attempt {
                Attempt::Done { place, answer } => return Ok((place, answer)),
                Attempt::NoMemory => return Err(AllocError),
                Attempt::Unfit => {}
            }
        }
        unreachable!()
    }

    /// A closing of a slot, where there is one, once the locked list fits the actor.
    pub(crate) fn close<R: Wait>(
        &self,
        rt: &R,
        actor: &mut Actor<L>,
        app: u32,
        slot: Option<u32>,
        step: u32,
    ) -> Result<(u64, Result<u32, CloseRefusal>), AllocError>
        ensures closed { IsClosed result L.spec actor.old actor.new slot step }
        ensures wants { OnErr result (MayGrant L.spec L.parts actor.old step
            (λ h. IsOk (closing h slot))) }
    {
        for _ in rt.forever() {
            let (guard, painter) = self.take(rt);
            let (painter, attempt) = painter.close(rt, actor, app, slot, step);
            give_back(guard, painter);
            match attempt {
                Attempt::Done { place, answer } => return Ok((place, answer)),
                Attempt::NoMemory => return Err(AllocError),
                Attempt::Unfit => {}
            }
        }
        unreachable!()
    }

    /// A list of the board with at least so many entries. It waits for as long as there are fewer.
    pub fn tell<R: Wait>(&self, rt: &R, at_least: u64) -> Told<L>
        ensures least { at_least ≤ length result }
    {
        for _ in rt.forever() {
            let (guard, painter) = self.take(rt);
            let told = painter.told().again();
            give_back(guard, painter);
            if told.front() >= at_least {
                return told;
            }
        }
        unreachable!()
    }

    /// Ends the list, once at least so many entries stand before the end, and gives it. It waits
    /// for as long as there are fewer, for ever where the list ended with fewer.
    ///
    /// At an error there was no memory, and no entry was made.
    pub fn end<R: Wait>(&self, rt: &R, at_least: u64) -> Result<Told<L>, AllocError>
        ensures least { IfOk result (λ told. at_least ≤ before_end told) }
        ensures ended { IfOk result (λ told. HasEnded L.parts told) }
    {
        for _ in rt.forever() {
            let (guard, painter) = self.take(rt);
            let (painter, printed) = painter.end(rt, self.seats.get(), at_least);
            give_back(guard, painter);
            match printed {
                Some(Printed::Made(told)) => return Ok(told),
                Some(Printed::NoMemory) => return Err(AllocError),
                None => {}
            }
        }
        unreachable!()
    }

    /// A copy of a list of the board, which begins with the view of each seat. It has exactly as
    /// many entries before its end as the seats made together. The seats are given up, at an error
    /// too.
    ///
    /// At an error there was no memory.
    pub fn list<R: Wait>(&self, rt: &R, seats: Vec<Seat<L>>) -> Result<FullList<L>, AllocError>
        requires all { length seats.items ≡ L.parts }
        requires some { 1 ≤ length seats.items }
        ensures log { IfOk result (λ l. l.log ≡ listed L.spec l.told) }
        ensures views { IfOk result (λ l. EachBegins seats.items l.told) }
        ensures made { IfOk result (λ l. before_end l.told ≡ made_by seats.items) }
    {
        let (mut share, longest) = gather(seats);
        for _ in rt.forever() {
            let (guard, painter) = self.take(rt);
            let (painter, copied) = painter.copied(&mut share, &longest);
            give_back(guard, painter);
            match copied {
                Copied::Made(listed) => return Ok(listed),
                Copied::NoMemory => return Err(AllocError),
                Copied::Unfit => {}
            }
        }
        unreachable!()
    }
}
