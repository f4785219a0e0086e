//! What is to be done.

ghost use Rattle.std.specs.Prelude.{◌≡◌, ◌<◌, ◌≤◌};
ghost use Rattle.dd_board.specs.declared.board.TheConstants.{MAX_SEATS};

use crate::count::Count;
use crate::setting::MAX_DRAWINGS;
use crate::words::{Kind, Task};
use crate::{locked, seated};
use std::alloc::{AllocError, Global};
use std::sync::Wait;
use std::thread::Threads;

/// What a drawer and the clients beside it do.
#[derive(Clone, Copy, Debug)]
pub struct Plan {
    /// How many looks each client makes. One that makes none opens no duplicator.
    pub looks: u32,
    /// How many drawings the drawer makes.
    pub drawings: u32,
    /// How many turns it waits after each.
    pub turns: u32,
}

/// So many looks go by, about, between two drawings.
const LOOKS_A_DRAWING: u32 = 100_000;

/// So many turns the drawer waits meanwhile.
const TURNS_A_DRAWING: u32 = 20_000;

impl Plan {
    /// Looks beside a few drawings.
    fn of_looks(looks: u32) -> Plan
        ensures { result.drawings ≤ MAX_DRAWINGS }
    {
        Plan {
            looks,
            drawings: looks / LOOKS_A_DRAWING + 1,
            turns: TURNS_A_DRAWING,
        }
    }

    /// As many looks of each client as drawings.
    fn of_both(calls: u32) -> Plan
        ensures { result.drawings ≡ calls }
    {
        Plan {
            looks: calls,
            drawings: calls,
            turns: 0,
        }
    }

    /// Drawings alone.
    fn of_drawings(drawings: u32) -> Plan
        ensures { result.drawings ≡ drawings }
    {
        Plan {
            looks: 0,
            drawings,
            turns: 0,
        }
    }
}

impl Task {
    /// The plan of the task.
    fn plan(self) -> Plan
        requires { self.kind ≡ Kind.Draw → self.calls ≤ MAX_DRAWINGS }
        ensures { result.drawings ≤ MAX_DRAWINGS }
    {
        match self.kind {
            Kind::Look | Kind::Lock => Plan::of_looks(self.calls),
            Kind::Draw => Plan::of_drawings(self.calls),
        }
    }

    /// Does what a plan says.
    fn follow<R: Threads + Wait + Sync>(
        self,
        rt: &R,
        alloc: Global,
        plan: Plan,
    ) -> Result<Count, AllocError>
        requires clients { self.clients < MAX_SEATS }
        requires drawings { plan.drawings ≤ MAX_DRAWINGS }
    {
        match self.kind {
            Kind::Look | Kind::Draw => seated::run(rt, alloc, plan, self.clients),
            Kind::Lock => locked::run(rt, alloc, plan, self.clients),
        }
    }

    /// Does it.
    pub fn run<R: Threads + Wait + Sync>(self, rt: &R, alloc: Global) -> Result<Count, AllocError>
        requires clients { self.clients < MAX_SEATS }
        requires drawings { self.kind ≡ Kind.Draw → self.calls ≤ MAX_DRAWINGS }
    {
        self.follow(rt, alloc, self.plan())
    }

    /// Does it, with as many looks of each client, where they look, as drawings.
    pub fn run_beside<R: Threads + Wait + Sync>(
        self,
        rt: &R,
        alloc: Global,
    ) -> Result<Count, AllocError>
        requires clients { self.clients < MAX_SEATS }
        requires drawings { self.calls ≤ MAX_DRAWINGS }
    {
        let plan = match self.kind {
            Kind::Look | Kind::Lock => Plan::of_both(self.calls),
            Kind::Draw => Plan::of_drawings(self.calls),
        };
        self.follow(rt, alloc, plan)
    }
}
