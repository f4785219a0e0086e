//! The run of a script, its answers written one line after another.

ghost use Rattle.std.specs.Prelude.{◌≡◌, ◌+◌, ◌-◌, ◌^◌, ◌≤◌, ◌<◌, length, IfOk, OnOk};
ghost use Rattle.std.specs.List.{AllByRecursion};
ghost use Rattle.dd_calls.specs.Calls.{IsOfClient};
ghost use Rattle.dd_station.specs.Run.{next, answers, run};
ghost use Rattle.dd_script_read.specs.Script.{IsRunnable};
ghost use Rattle.dd_script_write.specs.Texts.{line, text};
ghost use Rattle.dd_prog.specs.Commands.{replay_work};
ghost use Rattle.dd_prog.specs.Exchange.{side, IfTold};
ghost use Rattle.dd_prog.specs.Keeping.{Adds};
ghost use Rattle.dd_prog.specs.Outcome.{WritesText, Ends, FitsStatus, status_of_run, status_of_input};

use crate::command::Command;
use crate::fault::{InputFault, RunFault};
use crate::keeping::{put_line, stop, write_kept};
use crate::reading::read_script;
use crate::status::Status;
use dd_calls::{Script, Step};
use dd_io::{OutOfMemory, Sink, Source};
use dd_script_write::{Text, answer_text};
use dd_station::Station;
use std::alloc::Global;

/// Does one step, and makes the line of its answer.
fn answered(alloc: Global, station: &mut Station, step: &Step) -> Result<Text, OutOfMemory>
    requires client { IsOfClient (length station.old.clients) step.now }
    requires count { station.old.steps < 2 ^ 32 - 1 }
    ensures line { IfOk result (λ t. t ≡ line (next station.old step.now).0) }
    ensures state { OnOk result (station.new ≡ (next station.old step.now).1) }
{
    let answer = station.step(step)?;
    answer_text(alloc, &answer)
}

/// Does one step, and puts its line behind those that are kept.
fn play<K: Sink>(
    alloc: Global,
    station: &mut Station,
    step: &Step,
    kept: &mut Vec<u8>,
    sink: &mut K,
) -> Result<(), RunFault>
    requires client { IsOfClient (length station.old.clients) step.now }
    requires count { station.old.steps < 2 ^ 32 - 1 }
    ensures adds { Adds (side K.held K.faults sink.old sink.new) kept.old.items kept.new.items
        (line (next station.old step.now).0) result }
    ensures state { OnOk result (station.new ≡ (next station.old step.now).1) }
    ensures later { K.faults sink.old ≤ K.faults sink.new }
{
    match answered(alloc, station, step) {
        Ok(text) => put_line(kept, text.as_bytes(), sink),
        Err(_) => Err(stop(kept, sink)),
    }
}

/// Does the steps in order, and writes their answers, pieces of them as they are made.
fn play_all<K: Sink>(
    alloc: Global,
    station: &mut Station,
    steps: &[Step],
    sink: &mut K,
) -> Result<(), RunFault>
    requires clients { AllByRecursion (IsOfClient (length station.old.clients)) steps.now }
    requires count { station.old.steps + length steps.now < 2 ^ 32 - 1 }
    ensures wrote { WritesText (side K.held K.faults sink.old sink.new) (text (answers station.old steps.now)) result }
    ensures later { K.faults sink.old ≤ K.faults sink.new }
{
    let mut kept = Vec::new(alloc);
    for step in steps {
        play(alloc, station, step, &mut kept, sink)?;
    }
    write_kept(&mut kept, sink)
}

/// Runs a script, and writes its answers.
#[tactic(auto, unfolding(dd_station::specs::Run::run))]
fn run_script<K: Sink>(alloc: Global, script: Script, sink: &mut K) -> Result<(), RunFault>
    requires whole { IsRunnable script }
    requires count { length script.steps < 2 ^ 32 - 1 }
    ensures wrote { WritesText (side K.held K.faults sink.old sink.new) (text (run script)) result }
    ensures later { K.faults sink.old ≤ K.faults sink.new }
{
    let Script {
        spec,
        clients,
        steps,
    } = script;
    let mut station = Station::start(alloc, spec, clients.as_slice())?;
    play_all(alloc, &mut station, steps.as_slice(), sink)
}

/// How a run ended, as a status.
pub(crate) fn status_of_run(ended: Result<(), RunFault>) -> Status
    ensures { result ≡ status_of_run ended }
{
    match ended {
        Ok(()) => Status::Done,
        Err(RunFault::OutOfMemory) => Status::OutOfMemory,
        Err(RunFault::WriteFault) => Status::WriteFault,
    }
}

/// Why no script was read, as a status.
pub(crate) fn status_of_input(fault: InputFault) -> Status
    ensures { result ≡ status_of_input replay_work fault }
{
    match fault {
        InputFault::TooLong => Status::TooLong,
        InputFault::BadInput => Status::BadScript,
        InputFault::Failed => Status::ReadFault,
        InputFault::OutOfMemory => Status::OutOfMemory,
    }
}

/// Reads a script, runs it, and writes its answers.
pub(crate) fn replay<S: Source, K: Sink>(alloc: Global, source: &mut S, sink: &mut K) -> Status
    ensures outcome { Ends replay_work (record {
      source = side S.left S.faults source.old source.new;
      sink = side K.held K.faults sink.old sink.new;
    }) result }
    ensures told { IfTold (side S.left S.faults source.old source.new) (FitsStatus replay_work result) }
    ensures later_read { S.faults source.old ≤ S.faults source.new }
    ensures later_write { K.faults sink.old ≤ K.faults sink.new }
{
    match read_script(alloc, source) {
        Err(fault) => status_of_input(fault),
        Ok(script) => status_of_run(run_script(alloc, script, sink)),
    }
}
