//! An actor: its number, its view, and its share of what was made.

ghost use Rattle.std.specs.Prelude.{◌≡◌, ◌+◌, ◌-◌, ◌<◌, ◌≤◌, ◌^◌, length, IsTrue};
ghost use mathlib.Core.List.{IsPrefix};
ghost use Rattle.dd_log.specs.declared.events.TheConstants.{MAX_CAPACITY};
ghost use Rattle.dd_log.specs.History.{legal};
ghost use Rattle.dd_board.specs.Lists.{listed, all_seated, longer};
ghost use Rattle.dd_board.specs.Seats.{fresh_seat, seeing, entering};

use crate::named::Named;
use crate::told::Told;
use std::marker::Model;
use std::sync::Wait;
use std::sync::ledger::{Book, Share};

/// An actor of the board. Contracts see its number, how many entries it made, and its view: the
/// list that it saw last or was told of.
///
/// Its share in the ledger has one part, and its amount is how many entries it made.
#[derive(Drop)]
pub struct Actor<L: Named> {
    number: u32,
    share: Share<L>,
    made: u64,
    view: Told<L>,
}

impl<L: Named> Model for Actor<L> {
    ghost use Rattle.std.specs.Prelude.{◌≡◌, ◌<◌};
    ghost use Rattle.dd_board.specs.Seats.{Seated};

    ghost Value = { Seated };

    ghost view = { λ m. record { number = m.number; made = m.made; view = m.view } };

    ghost invariant = { λ m. (m.share.parts ≡ 1) × (m.share.amount ≡ m.made)
        × (m.number < L.parts) };
}

impl<L: Named> Actor<L> {
    /// One that has seen and made nothing.
    pub(crate) fn new(number: u32, share: Share<L>, view: Told<L>) -> Actor<L>
        requires parts { share.parts ≡ 1 }
        requires amount { share.amount ≡ 0 }
        requires number { number < L.parts }
        ensures { result ≡ seeing (fresh_seat number) view }
    {
        Actor {
            number,
            share,
            made: 0,
            view,
        }
    }

    /// The number of its seat, from 0.
    pub fn number(&self) -> u32
        ensures value { result ≡ self.now.number }
        ensures seat { self.now.number < L.parts }
    {
        self.number
    }

    /// How many entries it made.
    pub fn made(&self) -> u64
        ensures made { result ≡ self.now.made }
    {
        self.made
    }

    /// How many entries the list has that it saw last or was told of.
    pub fn front(&self) -> u64
        ensures front { result ≡ length self.now.view }
        ensures few { length self.now.view ≤ MAX_CAPACITY }
        ensures legal { IsTrue (legal (listed L.spec self.now.view)) }
        ensures seated { IsTrue (all_seated L.parts self.now.view) }
    {
        self.view.front()
    }

    /// Is told of a list: its view is then the longer of the two. It takes no memory.
    pub fn learn<R: Wait>(&mut self, _rt: &R, told: Told<L>)
        ensures value { self.new ≡ seeing self.old (longer self.old.view told) }
        ensures begins { IsPrefix self.old.view self.new.view }
        ensures told { IsPrefix told self.new.view }
    {
        self.view = self.view.longer(&told);
    }

    /// The list that it saw or was told of.
    pub(crate) fn view(&self) -> &Told<L>
        ensures { result.now ≡ self.now.view }
    {
        &self.view
    }

    /// Has seen another list.
    pub(crate) fn see(&mut self, told: Told<L>)
        ensures { self.new ≡ seeing self.old told }
    {
        self.view = told;
    }

    /// Has seen a list with one entry of its own more, which the ledger counts.
    pub(crate) fn enter(&mut self, book: &mut Book<L>, told: Told<L>)
        requires { book.old.total < 2 ^ 64 - 1 }
        ensures book { book.new.total ≡ book.old.total + 1 }
        ensures seat { self.new ≡ entering self.old told }
    {
        book.audit(&mut self.share);
        book.add(&mut self.share, 1);
        self.made += 1;
        self.view = told;
    }

    /// Its share, its view, and how many entries it made, at the end.
    pub(crate) fn apart(self) -> (Share<L>, Told<L>)
        ensures parts { result.0.parts ≡ 1 }
        ensures amount { result.0.amount ≡ self.made }
        ensures view { result.1 ≡ self.view }
    {
        let Actor {
            number: _,
            share,
            made: _,
            view,
        } = self;
        (share, view)
    }
}
