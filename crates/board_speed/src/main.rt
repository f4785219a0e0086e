//! Looks and draws by threads, to be timed from outside, and the calls of a board, to be compared.
#![tactic(auto)]

ghost use Rattle.std.specs.Prelude.{◌<◌, ◌≤◌};
ghost use Rattle.board_speed.specs.declared.setting.TheConstants.{MAX_DRAWINGS};
ghost use Rattle.dd_board.specs.declared.board.TheConstants.{MAX_SEATS};

mod calls;
mod count;
mod locked;
mod plan;
mod seated;
mod setting;
mod words;

use crate::words::{Kind, Task, check_of, task_of};
use anyhow::Context;
use std::alloc::Global;
use std::env;
use std::sync::Wait;
use std::thread::Threads;

/// The lines of a check: what the calls of a board are answered, and then what threads did.
fn check<R: Threads + Wait + Sync>(
    rt: &R,
    alloc: Global,
    clients: u32,
    calls: u32,
) -> anyhow::Result<Vec<String>>
    requires clients { clients < MAX_SEATS }
    requires calls { calls ≤ MAX_DRAWINGS }
{
    let mut lines = calls::run(rt, alloc)?;
    for kind in [Kind::Look, Kind::Lock, Kind::Draw] {
        let task = Task {
            kind,
            clients,
            calls,
        };
        let count = task.run_beside(rt, alloc)?;
        lines.push(format!(in alloc; "{task}: {count}")?)?;
    }
    Ok(lines)
}

/// Does what the words say, and prints what was done.
fn main(rt: HostRuntime) -> anyhow::Result<()> {
    let words: Vec<String> = env::args(&rt)?.collect(rt.alloc())?;
    if let Some((clients, calls)) = check_of(words.as_slice()) {
        for line in check(&rt, rt.alloc(), clients, calls)? {
            println!(rt; "{line}")?;
        }
        return Ok(());
    }
    let task = task_of(words.as_slice()).context(
        "the words are a kind, a number of clients and how many calls",
    )?;
    let count = task.run(&rt, rt.alloc())?;
    println!(rt; "{task}: {count}")?;
    Ok(())
}
