//! A client: an actor with a door to the board, and its duplicator where it has one.

ghost use Rattle.std.specs.Prelude.{◌≡◌, ◌<◌, ◌≤◌, length, option_map, IfOk, OnErr, IsOk, IsTrue};
ghost use mathlib.Core.List.{IsPrefix};
ghost use Rattle.dd_log.specs.declared.events.TheConstants.{MAX_CAPACITY};
ghost use Rattle.dd_log.specs.History.{legal};
ghost use Rattle.dd_table.specs.Opening.{opening, closing};
ghost use Rattle.dd_board.specs.Lists.{listed, at_place, all_seated, longer};
ghost use Rattle.dd_board.specs.Seats.{seeing, IsCall};
ghost use Rattle.dd_dup.specs.Reply.{slot_of};
ghost use Rattle.dd_dup.specs.Stands.{memory, MayStand};
ghost use Rattle.dd_board.specs.Holding.{held_dup, MayHold};
ghost use Rattle.dd_board.specs.Opening.{opened_answer, held_after, closed_answer, held_closed, held_slot};
ghost use Rattle.dd_board.specs.Asking.{dup_info, look_answer};
ghost use Rattle.dd_board.specs.Looking.{IsLook};
ghost use Rattle.dd_board.specs.Looked.{IsLooked};
ghost use Rattle.dd_board.specs.Wanting.{MayGrant};
ghost use Rattle.dd_board.specs.Openings.{opening_entry, opening_answer, opening_memory, closing_entry, closing_answer, closing_dup};

use crate::actor::Actor;
use crate::door::Door;
use crate::holding::Holding;
use crate::looking::{Asked, Call, LookAnswer, Looked, ask, frame_of};
use crate::named::Named;
use crate::screen::Screen;
use crate::told::Told;
use dd_calls::{Answer, CloseRefusal, FrameInfo, OpenRefusal};
use dd_dup::Dup;
use dd_log::Log;
use std::alloc::{AllocError, Global};
use std::marker::Model;
use std::sync::Wait;
use std::sync::ledger::Share;

/// A client of the board. Contracts see its actor, its application, its duplicator where it has
/// one, and how often its looks weren't let in.
///
/// Its duplicator stands on the list that it saw last or was told of.
#[derive(Drop)]
pub struct Client<L: Named> {
    actor: Actor<L>,
    app: u32,
    door: Option<Door<L>>,
    held: Option<Holding>,
}

impl<L: Named> Model for Client<L> {
    ghost use Rattle.std.specs.Prelude.{IsSome};
    ghost use Rattle.dd_board.specs.Clients.{ClientState};
    ghost use Rattle.dd_board.specs.Holding.{client_state, MayHold};
    ghost use Rattle.dd_board.specs.Lists.{listed};

    ghost Value = { ClientState };

    ghost view = { λ c. client_state c.actor c.app c.held c.door };

    ghost invariant = { λ c. IsSome c.door × MayHold c.held (listed L.spec c.actor.view) };
}

/// What an opening or a closing is answered.
#[derive(Drop)]
pub struct Tried<L: Named> {
    /// How many entries stood before it, or in the list that refused it.
    pub place: u64,
    pub answer: Answer,
    /// The list then, with the call's entry as its last where it was accepted.
    pub told: Told<L>,
}

/// Asks a client's duplicator, where it has one.
///
/// A call of its own, so that its answer is written once, before the board is left.
#[inline(never)]
fn ask_any(held: &mut Option<Holding>, log: &Log, call: Call, buffer: &mut [u8]) -> Asked
    requires { MayHold held.old log.now }
    ensures answer { IsLook (look_answer result (dup_info (memory (held_dup held.new)))) call
        (memory (held_dup held.old)) (memory (held_dup held.new)) log.now buffer.old buffer.new }
    ensures held { MayHold held.new log.now }
{
    match held {
        None => Asked::NoDuplicator,
        Some(holding) => ask(&mut holding.dup, log, call, buffer),
    }
}

/// The info of the frame that is held.
fn info_of(held: &Option<Holding>) -> Option<FrameInfo>
    ensures { result ≡ dup_info (memory (held_dup held.now)) }
{
    match held {
        None => None,
        Some(holding) => holding.dup.info(),
    }
}

/// What a look is answered. The info of the held frame is read only where it was acquired.
fn answer_of(asked: Asked, held: &Option<Holding>) -> LookAnswer
    ensures { result ≡ look_answer asked (dup_info (memory (held_dup held.now))) }
{
    match asked {
        Asked::Acquired => frame_of(info_of(held)),
        Asked::Released => LookAnswer::Released,
        Asked::Size(size) => LookAnswer::Size(size),
        Asked::Refused(cause) => LookAnswer::Refused(cause),
        Asked::NoDuplicator => LookAnswer::NoDuplicator,
    }
}

/// What a client is answered that opened something as the entry of this number. It holds it then.
fn opened(held: &mut Option<Holding>, answer: Result<Holding, OpenRefusal>, number: u64) -> Answer
    ensures answer { result ≡ opened_answer answer number }
    ensures held { held.new ≡ held_after answer held.old }
{
    match answer {
        Ok(holding) => {
            let slot = holding.slot;
            *held = Some(holding);
            Answer::Opened {
                entry: number,
                slot,
            }
        }
        Err(cause) => Answer::NotOpened(cause),
    }
}

/// What a client is answered that closed what it held by the entry of this number.
fn closed(held: &mut Option<Holding>, answer: Result<u32, CloseRefusal>, number: u64) -> Answer
    ensures answer { result ≡ closed_answer answer number }
    ensures held { held.new ≡ held_closed answer held.old }
{
    match answer {
        Ok(_slot) => {
            *held = None;
            Answer::Closed { entry: number }
        }
        Err(cause) => Answer::NotClosed(cause),
    }
}

/// The slot that is held.
fn slot_held(held: &Option<Holding>) -> Option<u32>
    ensures { result ≡ held_slot held.now }
{
    match held {
        None => None,
        Some(holding) => Some(holding.slot),
    }
}

impl<L: Named> Client<L> {
    pub(crate) fn new(actor: Actor<L>, app: u32, door: Door<L>) -> Client<L>
        ensures { result ≡ record { actor = actor; app = app; dup = None; refusals = door } }
    {
        Client {
            actor,
            app,
            door: Some(door),
            held: None,
        }
    }

    /// Its share and its view, at the end.
    pub(crate) fn apart(self) -> (Share<L>, Told<L>)
        ensures parts { result.0.parts ≡ 1 }
        ensures amount { result.0.amount ≡ self.actor.made }
        ensures view { result.1 ≡ self.actor.view }
    {
        let Client {
            actor,
            app: _,
            door: _door,
            held: _held,
        } = self;
        actor.apart()
    }

    /// The number of its seat, from 0.
    pub fn number(&self) -> u32
        ensures value { result ≡ self.now.actor.number }
        ensures seat { self.now.actor.number < L.parts }
    {
        self.actor.number()
    }

    /// How many entries it made.
    pub fn made(&self) -> u64
        ensures made { result ≡ self.now.actor.made }
    {
        self.actor.made()
    }

    /// How many entries the list has that it saw last or was told of.
    pub fn front(&self) -> u64
        ensures front { result ≡ length self.now.actor.view }
        ensures few { length self.now.actor.view ≤ MAX_CAPACITY }
        ensures legal { IsTrue (legal (listed L.spec self.now.actor.view)) }
        ensures seated { IsTrue (all_seated L.parts self.now.actor.view) }
        ensures stands { MayStand self.now.dup (listed L.spec self.now.actor.view) }
    {
        self.actor.front()
    }

    /// How often its looks weren't let in, which is at most 2^64 - 1.
    pub fn refusals(&self) -> u64
        ensures refusals { result ≡ self.now.refusals }
    {
        match &self.door {
            None => 0,
            Some(door) => door.refusals(),
        }
    }

    /// Its duplicator, which stands on the list that it saw last or was told of.
    pub fn dup(&self) -> Option<&Dup>
        ensures value { option_map (λ d. d.now) result ≡ self.now.dup }
        ensures stands { MayStand self.now.dup (listed L.spec self.now.actor.view) }
    {
        match &self.held {
            None => None,
            Some(holding) => Some(&holding.dup),
        }
    }

    /// Is told of a list: its view is then the longer of the two. It takes no memory.
    pub fn learn<R: Wait>(&mut self, rt: &R, told: Told<L>)
        ensures value { self.new
            ≡ record self.old { actor = seeing self.old.actor (longer self.old.actor.view told) } }
        ensures begins { IsPrefix self.old.actor.view self.new.actor.view }
        ensures told { IsPrefix told self.new.actor.view }
        ensures stands { MayStand self.new.dup (listed L.spec self.new.actor.view) }
    {
        self.actor.learn(rt, told);
    }

    /// Looks: asks its duplicator about the list as it is. It waits for nobody.
    ///
    /// The list begins with all that the client saw or was told, and the duplicator's answer on it
    /// is the look's; acquire and release leave the buffer. Or the board doesn't let the look in:
    /// then that is counted in `refusals`, and nothing else changes.
    pub fn look(&mut self, call: Call, buffer: &mut [u8]) -> Looked
        ensures begins { IsPrefix self.old.actor.view self.new.actor.view }
        ensures place { result.place ≡ length self.new.actor.view }
        ensures seat { self.new.actor ≡ seeing self.old.actor self.new.actor.view }
        ensures app { self.new.app ≡ self.old.app }
        ensures answer { IsLooked result.answer call self.old self.new
            (listed L.spec self.new.actor.view) buffer.old buffer.new }
        ensures stands { MayStand self.new.dup (listed L.spec self.new.actor.view) }
    {
        let door = self.door.take().unwrap();
        match door.enter(self.actor.view()) {
            Ok(inside) => {
                let told = inside.told().again();
                let asked = ask_any(&mut self.held, inside.log(), call, buffer);
                self.door = Some(inside.leave());
                let place = told.front();
                self.actor.see(told);
                // Returned at once: where nothing is new, no room for a frame's info is copied.
                if let Asked::Refused(cause) = asked {
                    return Looked {
                        place,
                        answer: LookAnswer::Refused(cause),
                    };
                }
                let answer = answer_of(asked, &self.held);
                Looked { place, answer }
            }
            Err(door) => {
                self.door = Some(door);
                Looked {
                    place: self.actor.front(),
                    answer: LookAnswer::NotEntered,
                }
            }
        }
    }

    /// Opens a duplicator, or says why not: the list at the place answers, which begins with all
    /// that the client saw or was told, and which the opening is added to where it is accepted.
    ///
    /// At an error there was no memory for an opening that the list granted, and no entry was made.
    /// It waits for as long as the list has a step of this actor that isn't below this one.
    pub fn duplicate<R: Wait>(
        &mut self,
        rt: &R,
        alloc: Global,
        screen: &Screen<L>,
        step: u32,
    ) -> Result<Tried<L>, AllocError>
        ensures answer { IfOk result (λ t. t.answer
            ≡ opening_answer (opening (at_place L.spec t.told t.place) self.old.app) t.place) }
        ensures call { IfOk result (λ t. IsCall self.old.actor self.new.actor t.place
            (opening_entry (opening (at_place L.spec t.told t.place) self.old.app)
            self.old.actor.number step self.old.app)) }
        ensures memory { IfOk result (λ t. memory self.new.dup
            ≡ opening_memory (opening (at_place L.spec t.told t.place) self.old.app)
            (memory self.old.dup)
            (at_place L.spec t.told t.place) t.place) }
        ensures told { IfOk result (λ t. t.told ≡ self.new.actor.view) }
        ensures app { self.new.app ≡ self.old.app }
        ensures refusals { self.new.refusals ≡ self.old.refusals }
        ensures err { OnErr result (self.new ≡ self.old) }
        ensures wants { OnErr result (MayGrant L.spec L.parts self.old.actor step
            (λ h. IsOk (opening h self.old.app))) }
        ensures stands { MayStand self.new.dup (listed L.spec self.new.actor.view) }
    {
        let (place, answer) = screen.open(rt, alloc, &mut self.actor, self.app, step)?;
        let answer = opened(&mut self.held, answer, self.actor.front());
        let told = self.actor.view().again();
        Ok(Tried {
            place,
            answer,
            told,
        })
    }

    /// Closes its duplicator, or says why not, by the list at the place as `duplicate` does.
    pub fn close<R: Wait>(
        &mut self,
        rt: &R,
        screen: &Screen<L>,
        step: u32,
    ) -> Result<Tried<L>, AllocError>
        ensures answer { IfOk result (λ t. t.answer
            ≡ closing_answer (closing (at_place L.spec t.told t.place)
            (slot_of (memory self.old.dup) (at_place L.spec t.told t.place))) t.place) }
        ensures call { IfOk result (λ t. IsCall self.old.actor self.new.actor t.place
            (closing_entry (closing (at_place L.spec t.told t.place)
            (slot_of (memory self.old.dup) (at_place L.spec t.told t.place))) self.old.actor.number step)) }
        ensures dup { IfOk result (λ t. self.new.dup
            ≡ closing_dup (closing (at_place L.spec t.told t.place)
            (slot_of (memory self.old.dup) (at_place L.spec t.told t.place))) self.old.dup) }
        ensures told { IfOk result (λ t. t.told ≡ self.new.actor.view) }
        ensures app { self.new.app ≡ self.old.app }
        ensures refusals { self.new.refusals ≡ self.old.refusals }
        ensures err { OnErr result (self.new ≡ self.old) }
        ensures wants { OnErr result (MayGrant L.spec L.parts self.old.actor step
            (λ h. IsOk (closing h (slot_of (memory self.old.dup) h)))) }
        ensures stands { MayStand self.new.dup (listed L.spec self.new.actor.view) }
    {
        let slot = slot_held(&self.held);
        let (place, answer) = screen.close(rt, &mut self.actor, self.app, slot, step)?;
        let answer = closed(&mut self.held, answer, self.actor.front());
        let told = self.actor.view().again();
        Ok(Tried {
            place,
            answer,
            told,
        })
    }
}
