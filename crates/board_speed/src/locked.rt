//! The same looks at a list under a lock, which readers share.

ghost use Rattle.std.specs.Prelude.{◌≡◌, ◌+◌, ◌-◌, ◌^◌, ◌≤◌, ◌<◌, length, OnOk, OnErr};
ghost use Rattle.dd_calls.specs.Calls.{IsOfClient};

use crate::count::{Count, total};
use crate::plan::Plan;
use crate::setting::{MAX_DRAWINGS, fill, pause, spec};
use dd_board::MAX_SEATS;
use dd_calls::{ClientCall, Step};
use dd_station::Station;
use std::alloc::{AllocError, Global};
use std::sync::{RwLock, Wait};
use std::thread;
use std::thread::Threads;

/// A list with one client, whose duplicator all threads ask.
#[derive(Drop)]
struct Locked {
    station: Station,
    steps: u32,
    ghost one: { length station.clients ≡ 1 },
    ghost counted: { station.steps ≡ steps },
}

/// Does a step of a station, which is counted and leaves its clients.
#[tactic(auto, using(dd_station::proofs::Stepped::stepped_next))]
fn one_step(station: &mut Station, step: &Step) -> Result<(), AllocError>
    requires client { IsOfClient (length station.old.clients) step.now }
    requires count { station.old.steps < 2 ^ 32 - 1 }
    ensures clients { OnOk result (station.new.clients ≡ station.old.clients) }
    ensures steps { OnOk result (station.new.steps ≡ station.old.steps + 1) }
    ensures err { OnErr result (station.new ≡ station.old) }
{
    let _answer = station.step(step)?;
    Ok(())
}

impl Locked {
    /// With room for so many drawings, and the client's duplicator opened.
    fn start(alloc: Global, drawings: u32) -> Result<Locked, AllocError>
        requires { drawings ≤ MAX_DRAWINGS }
    {
        let station = Station::start(alloc, spec(alloc, drawings)?, &[1])?;
        let mut locked = Locked { station, steps: 0 };
        locked.call(ClientCall::Duplicate)?;
        Ok(locked)
    }

    /// Does a step, of fewer than 2^32 - 1.
    fn step(&mut self, step: &Step) -> Result<(), AllocError>
        requires { IsOfClient 1 step.now }
    {
        if self.steps == u32::MAX {
            return Err(AllocError);
        }
        one_step(&mut self.station, step)?;
        self.steps += 1;
        Ok(())
    }

    /// A call of the client.
    fn call(&mut self, call: ClientCall) -> Result<(), AllocError> {
        self.step(&Step::Call { client: 1, call })
    }

    /// A drawing.
    fn draw(&mut self, alloc: Global) -> Result<(), AllocError> {
        self.step(&Step::Draw(fill(alloc)?))
    }

    /// A frame of what is new, which is released at once.
    fn catch_up(&mut self) -> Result<(), AllocError> {
        self.call(ClientCall::Acquire { timeout: 0 })?;
        self.call(ClientCall::Release)
    }

    /// Whether there is anything to acquire.
    fn has_news(&self) -> bool {
        match self.station.dup(1) {
            None => false,
            Some(dup) => dup.has_news(self.station.log()),
        }
    }
}

/// Looks under the lock; where there is a frame, takes the lock once more for it.
fn look_once<R: Wait>(rt: &R, shared: &RwLock<Locked>) -> Result<(), AllocError> {
    if shared.read(rt).has_news() {
        shared.write(rt).catch_up()?;
    }
    Ok(())
}

/// What one thread does: the first draws, the others look.
fn work<R: Wait>(
    rt: &R,
    alloc: Global,
    shared: &RwLock<Locked>,
    plan: Plan,
    number: usize,
) -> Result<Count, AllocError> {
    if number > 0 {
        for _ in 0..plan.looks {
            look_once(rt, shared)?;
        }
        return Ok(Count::of_looks(plan.looks));
    }
    for _ in 0..plan.drawings {
        shared.write(rt).draw(alloc)?;
        pause(plan.turns);
    }
    Ok(Count {
        front: shared.read(rt).station.log().len(),
        ..Count::NONE
    })
}

/// A last look, once all is drawn. Where nothing is new then, the client got a frame.
fn look_at_last<R: Wait>(rt: &R, shared: &RwLock<Locked>) -> Result<Count, AllocError> {
    look_once(rt, shared)?;
    Ok(Count {
        seen: u64::from(!shared.read(rt).has_news()),
        ..Count::of_looks(1)
    })
}

/// A drawer and so many clients do what a plan says, on one list.
pub fn run<R: Threads + Wait + Sync>(
    rt: &R,
    alloc: Global,
    plan: Plan,
    clients: u32,
) -> Result<Count, AllocError>
    requires clients { clients < MAX_SEATS }
    requires drawings { plan.drawings ≤ MAX_DRAWINGS }
{
    let shared = RwLock::new(Locked::start(alloc, plan.drawings)?);
    let threads = clients as usize + 1;
    let counts = thread::map_indices(rt, alloc, threads, &|i| work(rt, alloc, &shared, plan, i))?;
    Ok(total(counts)?.with(look_at_last(rt, &shared)?))
}
