//! A board: the screen and the seats.

ghost use Rattle.std.specs.Prelude.{◌≡◌, ◌≤◌, [], length, IfOk};
ghost use Rattle.dd_board.specs.Boards.{seat_of as seat_from, seats_from};
ghost use Rattle.dd_board.specs.Seats.{fresh_seat};

use crate::actor::Actor;
use crate::client::Client;
use crate::door::Door;
use crate::named::Named;
use crate::press::Press;
use crate::published::{Op, Published, Sheet};
use crate::screen::ScreenOf;
use crate::told::Told;
use dd_calls::Role;
use left_right::Absorb;
use std::alloc::{AllocError, Global};
use std::sync::Wait;
use std::sync::ledger::Share;

/// The most seats of a board: 16 drawers and 16 clients.
pub const MAX_SEATS: usize = 32;

/// A seat of a board.
#[derive(Drop)]
pub enum Seat<L: Named> {
    Drawer(Actor<L>),
    Client(Client<L>),
}

/// A screen, and its seats in the order of their roles.
pub struct BoardOf<L: Named, T: Absorb<Op<L>, State = ()> + Sheet + Drop> {
    pub screen: ScreenOf<L, T>,
    pub seats: Vec<Seat<L>>,
}

/// A screen, and its seats in the order of their roles.
pub type Board<L> = BoardOf<L, Published<L>>;

/// The seat of a role.
fn seat_of<L: Named, R: Wait>(rt: &R, press: &Press<L>, actor: Actor<L>, role: Role) -> Seat<L>
    requires { actor ≡ fresh_seat actor.number }
    ensures { result ≡ seat_from actor.number role }
{
    match role {
        Role::Drawer => Seat::Drawer(actor),
        Role::Client { app } => Seat::Client(Client::new(actor, app, Door::new(press.reader(rt)))),
    }
}

/// The seats of some roles, of whom each has a part of the share.
pub(crate) fn seats_of<L: Named, R: Wait>(
    rt: &R,
    alloc: Global,
    press: &Press<L>,
    roles: &[Role],
    share: Share<L>,
    told: &Told<L>,
) -> Result<Vec<Seat<L>>, AllocError>
    requires seats { length roles.now ≤ MAX_SEATS }
    requires all { L.parts ≡ length roles.now }
    requires parts { share.parts ≡ length roles.now }
    requires amount { share.amount ≡ 0 }
    requires told { told.now ≡ [] }
    ensures fresh { IfOk result (λ v. v.items ≡ seats_from 0 roles.now) }
    ensures count { IfOk result (λ v. length v.items ≡ length roles.now) }
{
    let mut share = share;
    let mut seats = Vec::with_capacity(alloc, roles.len())?;
    for (number, role) in roles.iter().enumerate() {
        let own = share.split_off(1, 0);
        let actor = Actor::new(number as u32, own, told.again());
        seats.push(seat_of(rt, press, actor, *role))?;
    }
    Ok(seats)
}
