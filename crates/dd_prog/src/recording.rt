//! The run of a script, and the record of one of its clients, written as the steps are done.

ghost use Rattle.std.specs.Prelude.{◌≡◌, ◌+◌, ◌-◌, ◌^◌, ◌≤◌, ◌<◌, length, option_map, IfOk, OnOk};
ghost use Rattle.std.specs.List.{AllByRecursion, flat_map};
ghost use Rattle.dd_record.specs.Writing.{magic, opening_bytes, chunk_bytes, end_bytes};
ghost use Rattle.dd_calls.specs.Calls.{IsOfClient};
ghost use Rattle.dd_station.specs.Run.{next};
ghost use Rattle.dd_trace.specs.Trace.{moment_of, moments};
ghost use Rattle.dd_script_read.specs.Script.{IsRunnable};
ghost use Rattle.dd_prog.specs.Commands.{record_work};
ghost use Rattle.dd_prog.specs.Exchange.{side, IfTold};
ghost use Rattle.dd_prog.specs.Leaving.{shown_bytes, left_by, bytes_left};
ghost use Rattle.dd_prog.specs.Outcome.{WritesText, ReadsInput, FitsRead, Ends, FitsStatus, status_of_input};
ghost use Rattle.dd_prog.specs.Recording.{chunk_at, recorded, record_told, record_of};

use crate::command::Command;
use crate::fault::{InputFault, RunFault};
use crate::reading::read_script;
use crate::replay::{status_of_input, status_of_run};
use crate::status::Status;
use dd_calls::{Answer, Script, Step};
use dd_dup::Dup;
use dd_io::{Sink, Source};
use dd_modes::Mode;
use dd_record::{write_end, write_frame, write_magic, write_opening};
use dd_station::Station;
use std::alloc::Global;

/// Writes what a record begins with.
fn begin<K: Sink>(sink: &mut K) -> Result<(), RunFault>
    ensures wrote { WritesText (side K.held K.faults sink.old sink.new) magic result }
    ensures later { K.faults sink.old ≤ K.faults sink.new }
{
    write_magic(sink)?;
    Ok(())
}

/// Writes a record's end.
fn finish<K: Sink>(sink: &mut K) -> Result<(), RunFault>
    ensures wrote { WritesText (side K.held K.faults sink.old sink.new) end_bytes result }
    ensures later { K.faults sink.old ≤ K.faults sink.new }
{
    write_end(sink)?;
    Ok(())
}

/// Writes the mode of an opening.
fn write_mode<K: Sink>(mode: Mode, sink: &mut K) -> Result<(), RunFault>
    ensures wrote { WritesText (side K.held K.faults sink.old sink.new) (opening_bytes mode) result }
    ensures later { K.faults sink.old ≤ K.faults sink.new }
{
    write_opening(sink, mode)?;
    Ok(())
}

/// Writes the frame that is held, where there is one.
fn write_held<K: Sink>(dup: Option<&Dup>, sink: &mut K) -> Result<(), RunFault>
    ensures wrote { WritesText (side K.held K.faults sink.old sink.new)
        (shown_bytes (option_map (λ d. d.now) dup.entry)) result }
    ensures later { K.faults sink.old ≤ K.faults sink.new }
{
    match dup {
        Some(dup) if dup.info().is_some() => write_frame(sink, dup)?,
        _ => {}
    }
    Ok(())
}

/// Writes what a step of the client left, by its answer, the mode before it and the duplicator after
/// it.
fn leave<K: Sink>(
    answer: &Answer,
    mode: Mode,
    dup: Option<&Dup>,
    sink: &mut K,
) -> Result<(), RunFault>
    ensures wrote { WritesText (side K.held K.faults sink.old sink.new)
        (left_by answer.now mode (option_map (λ d. d.now) dup.entry)) result }
    ensures later { K.faults sink.old ≤ K.faults sink.new }
{
    match answer {
        Answer::Opened { .. } => write_mode(mode, sink),
        Answer::Frame { .. } => write_held(dup, sink),
        _ => Ok(()),
    }
}

/// Does one step, and writes what it leaves in the client's record.
fn record_step<K: Sink>(
    station: &mut Station,
    step: &Step,
    client: u32,
    sink: &mut K,
) -> Result<(), RunFault>
    requires client { IsOfClient (length station.old.clients) step.now }
    requires count { station.old.steps < 2 ^ 32 - 1 }
    ensures wrote { WritesText (side K.held K.faults sink.old sink.new)
        (bytes_left (chunk_at client (moment_of station.old step.now))) result }
    ensures state { OnOk result (station.new ≡ (next station.old step.now).1) }
    ensures later { K.faults sink.old ≤ K.faults sink.new }
{
    let mode = station.log().mode();
    let answer = station.step(step)?;
    match step {
        Step::Call { client: caller, .. } if *caller == client => {
            leave(&answer, mode, station.dup(client), sink)
        }
        _ => Ok(()),
    }
}

/// Does the steps in order, and writes what they leave in the client's record.
fn record_steps<K: Sink>(
    station: &mut Station,
    steps: &[Step],
    client: u32,
    sink: &mut K,
) -> Result<(), RunFault>
    requires clients { AllByRecursion (IsOfClient (length station.old.clients)) steps.now }
    requires count { station.old.steps + length steps.now < 2 ^ 32 - 1 }
    ensures wrote { WritesText (side K.held K.faults sink.old sink.new)
        (flat_map chunk_bytes (recorded client (moments station.old steps.now))) result }
    ensures later { K.faults sink.old ≤ K.faults sink.new }
{
    for step in steps {
        record_step(station, step, client, sink)?;
    }
    Ok(())
}

/// Does the steps in order, and writes the client's record.
#[tactic(auto, unfolding(dd_record::specs::Writing::record_bytes))]
fn record_all<K: Sink>(
    station: &mut Station,
    steps: &[Step],
    client: u32,
    sink: &mut K,
) -> Result<(), RunFault>
    requires clients { AllByRecursion (IsOfClient (length station.old.clients)) steps.now }
    requires count { station.old.steps + length steps.now < 2 ^ 32 - 1 }
    ensures wrote { WritesText (side K.held K.faults sink.old sink.new)
        (record_told client (moments station.old steps.now)) result }
    ensures later { K.faults sink.old ≤ K.faults sink.new }
{
    begin(sink)?;
    record_steps(station, steps, client, sink)?;
    finish(sink)
}

/// Runs a script, and writes the record of one of its clients.
#[tactic(auto, unfolding(dd_trace::specs::Trace::trace))]
fn record_script<K: Sink>(
    alloc: Global,
    script: Script,
    client: u32,
    sink: &mut K,
) -> Result<(), RunFault>
    requires whole { IsRunnable script }
    requires count { length script.steps < 2 ^ 32 - 1 }
    ensures wrote { WritesText (side K.held K.faults sink.old sink.new) (record_of script client) result }
    ensures later { K.faults sink.old ≤ K.faults sink.new }
{
    let Script {
        spec,
        clients,
        steps,
    } = script;
    let mut station = Station::start(alloc, spec, clients.as_slice())?;
    record_all(&mut station, steps.as_slice(), client, sink)
}

/// Reads the input to its end, and the script that it is, which has the client.
fn read_script_of<S: Source>(
    alloc: Global,
    source: &mut S,
    client: u32,
) -> Result<Script, InputFault>
    ensures reads { ReadsInput (record_work client) (side S.left S.faults source.old source.new) result }
    ensures whole { IfOk result (λ s. IsRunnable s) }
    ensures count { IfOk result (λ s. length s.steps < 2 ^ 32 - 1) }
    ensures told { IfTold (side S.left S.faults source.old source.new)
        (FitsRead (record_work client) result) }
    ensures later { S.faults source.old ≤ S.faults source.new }
{
    let script = read_script(alloc, source)?;
    if script.clients.as_slice().len() < client as usize {
        return Err(InputFault::BadInput);
    }
    Ok(script)
}

/// Reads a script, runs it, and writes the record of one of its clients, numbered from 1.
pub(crate) fn record<S: Source, K: Sink>(
    alloc: Global,
    client: u32,
    source: &mut S,
    sink: &mut K,
) -> Status
    ensures outcome { Ends (record_work client) (record {
      source = side S.left S.faults source.old source.new;
      sink = side K.held K.faults sink.old sink.new;
    }) result }
    ensures told { IfTold (side S.left S.faults source.old source.new) (FitsStatus (record_work client) result) }
    ensures later_read { S.faults source.old ≤ S.faults source.new }
    ensures later_write { K.faults sink.old ≤ K.faults sink.new }
{
    match read_script_of(alloc, source, client) {
        Err(fault) => status_of_input(fault),
        Ok(script) => status_of_run(record_script(alloc, script, client, sink)),
    }
}
