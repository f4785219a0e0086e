//! Looks and drawings by the seats of a board, each in a thread of its own.

ghost use Rattle.std.specs.Prelude.{◌≡◌, ◌<◌, ◌≤◌};

use crate::count::Count;
use crate::plan::Plan;
use crate::setting::{MAX_DRAWINGS, fill, pause, roles, spec};
use dd_board::{Actor, Board, Call, Client, LookAnswer, MAX_SEATS, Named, Screen, Seat, Unnamed};
use std::alloc::{AllocError, Global};
use std::marker::Brand;
use std::sync::Wait;
use std::sync::ledger::Blank;
use std::thread;
use std::thread::Threads;

/// What a seat counted, and the client, where it looked.
#[derive(Drop)]
struct Sat<L: Named> {
    count: Count,
    client: Option<Watcher<L>>,
}

/// A client that looks, and whether it got a frame.
#[derive(Drop)]
struct Watcher<L: Named> {
    client: Client<L>,
    seen: bool,
}

/// Looks for a frame, and releases it where there is one.
fn look_once<L: Named>(watcher: &mut Watcher<L>) {
    let looked = watcher.client.look(Call::Acquire, &mut []);
    if let LookAnswer::Frame(_) = looked.answer {
        watcher.seen = true;
        watcher.client.look(Call::Release, &mut []);
    }
}

/// The looks of a client, behind an opening.
fn look<L: Named, R: Wait>(
    rt: &R,
    alloc: Global,
    screen: &Screen<L>,
    client: Client<L>,
    looks: u32,
) -> Result<Sat<L>, AllocError> {
    let mut watcher = Watcher {
        client,
        seen: false,
    };
    if looks == 0 {
        return Ok(Sat {
            count: Count::NONE,
            client: None,
        });
    }
    watcher.client.duplicate(rt, alloc, screen, 1)?;
    for _ in 0..looks {
        look_once(&mut watcher);
    }
    Ok(Sat {
        count: Count::of_looks(looks),
        client: Some(watcher),
    })
}

/// The drawings of a drawer.
fn draw<L: Named, R: Wait>(
    rt: &R,
    alloc: Global,
    screen: &Screen<L>,
    actor: Actor<L>,
    plan: Plan,
) -> Result<Count, AllocError> {
    let mut actor = actor;
    let mut count = Count::NONE;
    for step in 0..plan.drawings {
        let drawn = screen.draw(rt, &mut actor, step + 1, fill(alloc)?)?;
        count = count.with(Count::of_drawing(drawn.answer.is_err(), drawn.told.front()));
        pause(plan.turns);
    }
    Ok(count)
}

/// What a seat does.
fn sit<L: Named, R: Wait>(
    rt: &R,
    alloc: Global,
    screen: &Screen<L>,
    seat: Seat<L>,
    plan: Plan,
) -> Result<Sat<L>, AllocError> {
    match seat {
        Seat::Drawer(actor) => Ok(Sat {
            count: draw(rt, alloc, screen, actor, plan)?,
            client: None,
        }),
        Seat::Client(client) => look(rt, alloc, screen, client, plan.looks),
    }
}

/// A last look of a client, once all is drawn and it was told of it.
fn look_at_last<L: Named, R: Wait>(rt: &R, screen: &Screen<L>, watcher: Watcher<L>) -> Count {
    let mut watcher = watcher;
    watcher.client.learn(rt, screen.tell(rt, 0));
    look_once(&mut watcher);
    Count {
        looks: 1,
        seen: u64::from(watcher.seen),
        refused: watcher.client.refusals(),
        front: watcher.client.front(),
    }
}

/// What all seats counted, with a last look of each client that looked.
fn all_counted<L: Named, R: Wait>(
    rt: &R,
    screen: &Screen<L>,
    seats: Vec<Result<Sat<L>, AllocError>>,
) -> Result<Count, AllocError> {
    let mut all = Count::NONE;
    for sat in seats {
        let Sat { count, client } = sat?;
        all = all.with(count);
        if let Some(watcher) = client {
            all = all.with(look_at_last(rt, screen, watcher));
        }
    }
    Ok(all)
}

/// All seats of a board do what a plan says, side by side.
fn sit_all<L: Named + Send + Sync, R: Threads + Wait + Sync>(
    rt: &R,
    alloc: Global,
    unnamed: Unnamed,
    plan: Plan,
) -> Result<Count, AllocError>
    requires ledger { unnamed.ledger ≡ L.name }
    requires parts { unnamed.parts ≡ L.parts }
    requires book { unnamed.book ≡ L.book }
    requires spec { unnamed.spec ≡ L.spec }
{
    let Board { screen, seats } = unnamed.named::<R, L>(rt)?;
    let shared = &screen;
    let work = |seat: Seat<L>| sit(rt, alloc, shared, seat, plan);
    let counts = match thread::map_vec(rt, seats, &work) {
        Ok(seats) => all_counted(rt, shared, seats),
        Err(error) => Err(error),
    };
    screen.finish(rt);
    counts
}

/// A drawer and so many clients do what a plan says, on a board of their own.
pub fn run<R: Threads + Wait + Sync>(
    rt: &R,
    alloc: Global,
    plan: Plan,
    clients: u32,
) -> Result<Count, AllocError>
    requires clients { clients < MAX_SEATS }
    requires drawings { plan.drawings ≤ MAX_DRAWINGS }
{
    let roles = roles(alloc, 0, clients)?;
    let blank = Blank::new(roles.len() as u64);
    let spec = spec(alloc, plan.drawings)?;
    let unnamed = Board::<Brand>::start(rt, alloc, blank, spec, roles.as_slice())?;
    sit_all::<Brand, R>(rt, alloc, unnamed, plan)
}
