//! How a board is used: one thread draws on a screen, and two others look at it.
#![tactic(auto)]

ghost use Rattle.std.specs.Prelude.{◌≡◌};

mod drawer;
mod picture;
mod viewer;

use crate::drawer::{Watcher, draw, spec};
use crate::viewer::{Seen, view};
use anyhow::bail;
use crossbeam_channel::bounded;
use dd_board::{Board, Named, Screen, Seat, Unnamed};
use dd_calls::Role;
use std::alloc::Global;
use std::marker::Brand;
use std::sync::Wait;
use std::sync::ledger::Blank;
use std::thread::{Threads, join};

/// Who has a seat: one who draws, and two who look, each for an application of its own.
const ROLES: [Role; 3] = [
    Role::Drawer,
    Role::Client { app: 1 },
    Role::Client { app: 2 },
];

/// One thread draws and two look, until all is drawn: the first client at every step, the second at
/// each fourth.
fn show<L: Named + Send + Sync, R: Threads + Wait + Sync>(
    rt: &R,
    alloc: Global,
    screen: &Screen<L>,
    seats: Vec<Seat<L>>,
) -> anyhow::Result<(Seen, Seen)> {
    let mut seats = seats;
    let (Some(Seat::Client(second)), Some(Seat::Client(first)), Some(Seat::Drawer(drawer))) = (
        seats.pop(),
        seats.pop(),
        seats.pop(),
    ) else {
        bail!("the seats are others than their roles");
    };
    let (tell_first, told_first) = bounded(alloc, 1)?;
    let (tell_second, told_second) = bounded(alloc, 1)?;
    let (first_looked, looked_first) = bounded(alloc, 1)?;
    let (second_looked, looked_second) = bounded(alloc, 1)?;
    let watchers = [
        Watcher {
            every: 1,
            told: tell_first,
            looked: looked_first,
        },
        Watcher {
            every: 4,
            told: tell_second,
            looked: looked_second,
        },
    ];
    let (drawn, (first, second)) = join(
        rt,
        || draw(rt, alloc, screen, drawer, watchers),
        || {
            join(
                rt,
                || view(rt, alloc, screen, first, told_first, first_looked),
                || view(rt, alloc, screen, second, told_second, second_looked),
            )
        },
    );
    drawn?;
    Ok((first?, second?))
}

/// Names a board, runs its seats, and ends its screen.
fn run<L: Named + Send + Sync, R: Threads + Wait + Sync>(
    rt: &R,
    alloc: Global,
    unnamed: Unnamed,
) -> anyhow::Result<(Seen, Seen)>
    requires ledger { unnamed.ledger ≡ L.name }
    requires parts { unnamed.parts ≡ L.parts }
    requires book { unnamed.book ≡ L.book }
    requires spec { unnamed.spec ≡ L.spec }
{
    let Board { screen, seats } = unnamed.named::<R, L>(rt)?;
    let seen = show(rt, alloc, &screen, seats);
    screen.finish(rt);
    seen
}

/// Makes a board, runs it, and prints what each client saw and saved.
fn main(rt: HostRuntime) -> anyhow::Result<()> {
    let alloc = rt.alloc();
    let unnamed = Board::<Brand>::start(&rt, alloc, Blank::new(3), spec(alloc)?, &ROLES)?;
    let (first, second) = run::<Brand, _>(&rt, alloc, unnamed)?;
    println!(rt; "a look at every present: {first}")?;
    println!(rt; "a look at each fourth: {second}")?;
    Ok(())
}
