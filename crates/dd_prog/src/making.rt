//! What is made of a seed: the text of a script, and the counts of its run.

ghost use Rattle.std.specs.Prelude.{◌≡◌, ◌-◌, ◌^◌, ◌≤◌, ◌<◌, length, IfOk};
ghost use Rattle.dd_gen.specs.Generator.{made};
ghost use Rattle.dd_calls.specs.Counting.{counts_of};
ghost use Rattle.dd_station.specs.Run.{run};
ghost use Rattle.dd_script_read.specs.Script.{IsRunnable};
ghost use Rattle.dd_script_write.specs.Texts.{script_line, counts_line};
ghost use Rattle.dd_prog.specs.Exchange.{side};
ghost use Rattle.dd_prog.specs.Outcome.{Makes};
ghost use Rattle.dd_prog.specs.Whole.{WroteMade};

use crate::output::write_text;
use crate::status::Status;
use dd_calls::{Counts, Script};
use dd_gen::make;
use dd_io::{OutOfMemory, Sink};
use dd_script_write::{Text, counts_text, script_text};
use dd_station::{Station, count_steps};
use std::alloc::Global;

/// The text of the script that is made of a seed.
fn made_text(alloc: Global, seed: u32) -> Result<Text, OutOfMemory>
    ensures { IfOk result (λ t. t ≡ script_line (made seed)) }
{
    let script = make(alloc, seed)?;
    script_text(alloc, &script)
}

/// Runs a script, and counts its answers.
#[tactic(auto, unfolding(dd_station::specs::Run::run))]
fn count_run(alloc: Global, script: Script) -> Result<Counts, OutOfMemory>
    requires whole { IsRunnable script }
    requires count { length script.steps < 2 ^ 32 - 1 }
    ensures { IfOk result (λ c. c ≡ counts_of (run script)) }
{
    let Script {
        spec,
        clients,
        steps,
    } = script;
    let mut station = Station::start(alloc, spec, clients.as_slice())?;
    count_steps(&mut station, steps.as_slice())
}

/// The counts of the run of the script that is made of a seed, as a line.
fn counted_text(alloc: Global, seed: u32) -> Result<Text, OutOfMemory>
    ensures { IfOk result (λ t. t ≡ counts_line (counts_of (run (made seed)))) }
{
    let script = make(alloc, seed)?;
    let counts = count_run(alloc, script)?;
    counts_text(alloc, &counts)
}

/// Writes a text, unless memory was wanting for it.
fn write_made<K: Sink>(text: Result<Text, OutOfMemory>, sink: &mut K) -> Status
    ensures made { WroteMade (side K.held K.faults sink.old sink.new) text result }
    ensures later { K.faults sink.old ≤ K.faults sink.new }
{
    match text {
        Ok(text) => write_text(text.as_bytes(), sink),
        Err(_) => Status::OutOfMemory,
    }
}

/// Writes the script that is made of a seed.
pub(crate) fn write_script<K: Sink>(alloc: Global, seed: u32, sink: &mut K) -> Status
    ensures made { Makes (script_line (made seed)) (side K.held K.faults sink.old sink.new) result }
    ensures later { K.faults sink.old ≤ K.faults sink.new }
{
    write_made(made_text(alloc, seed), sink)
}

/// Makes the script of a seed, does its steps, and writes the counts of the answers.
pub(crate) fn write_counts<K: Sink>(alloc: Global, seed: u32, sink: &mut K) -> Status
    ensures made { Makes (counts_line (counts_of (run (made seed)))) (side K.held K.faults sink.old sink.new) result }
    ensures later { K.faults sink.old ≤ K.faults sink.new }
{
    write_made(counted_text(alloc, seed), sink)
}
