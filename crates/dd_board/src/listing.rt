//! The list at the end, beside what the seats made.

ghost use Rattle.std.specs.Prelude.{◌≡◌, ◌≤◌, length, IfOk};
ghost use Rattle.dd_log.specs.History.{before_end};
ghost use Rattle.dd_board.specs.Lists.{listed};
ghost use Rattle.dd_board.specs.Listing.{actor_in, made_by, EachBegins};
ghost use Rattle.dd_board.specs.Copied.{IsCopied};

use crate::board::Seat;
use crate::named::Named;
use crate::painter::{Painter, PainterOf};
use crate::told::Told;
use dd_log::Log;
use std::sync::ledger::Share;

/// A copy of a list of the board, and the list as it is told.
#[derive(Drop)]
pub struct FullList<L: Named> {
    pub log: Log,
    pub told: Told<L>,
}

/// How the copying of the locked list went.
#[derive(Drop)]
pub(crate) enum Copied<L: Named> {
    Made(FullList<L>),
    /// The list didn't begin with what a seat saw. In truth it always does.
    Unfit,
    NoMemory,
}

/// The share and the view of a seat that is given up.
fn apart<L: Named>(seat: Seat<L>) -> (Share<L>, Told<L>)
    ensures parts { result.0.parts ≡ 1 }
    ensures amount { result.0.amount ≡ (actor_in seat).made }
    ensures view { result.1 ≡ (actor_in seat).view }
{
    match seat {
        Seat::Drawer(actor) => actor.apart(),
        Seat::Client(client) => client.apart(),
    }
}

/// All shares as one, and the longest view.
pub(crate) fn gather<L: Named>(seats: Vec<Seat<L>>) -> (Share<L>, Told<L>)
    requires { 1 ≤ length seats.items }
    ensures parts { result.0.parts ≡ length seats.items }
    ensures amount { result.0.amount ≡ made_by seats.items }
    ensures views { EachBegins seats.items result.1 }
{
    let mut seats = seats;
    let (mut share, mut told) = apart(seats.pop().unwrap());
    while let Some(seat) = seats.pop() {
        let (own, view) = apart(seat);
        share.merge(own);
        told = told.longer(&view);
    }
    (share, told)
}

impl<L: Named> Painter<L> {
    /// A copy of the list, which begins with the longest view of the seats, beside all their
    /// shares.
    pub(crate) fn copied(self, share: &mut Share<L>, longest: &Told<L>) -> (Painter<L>, Copied<L>)
        requires { share.old.parts ≡ L.parts }
        ensures parts { share.new.parts ≡ share.old.parts }
        ensures amount { share.new.amount ≡ share.old.amount }
        ensures copied { IsCopied result.1 L.spec longest.now share.old.amount self }
    {
        if !self.told().covers(longest) {
            return (self, Copied::Unfit);
        }
        let Ok(log) = self.log().copy() else {
            return (self, Copied::NoMemory);
        };
        let told = self.told().again();
        let PainterOf { press, mut book } = self;
        book.audit(share);
        (
            PainterOf { press, book },
            Copied::Made(FullList { log, told }),
        )
    }
}
