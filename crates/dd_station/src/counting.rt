//! What the answers of a run count up to.

ghost use Rattle.std.specs.Prelude.{◌≡◌, ◌+◌, ◌-◌, ◌^◌, ◌<◌, length, IfOk, OnOk};
ghost use Rattle.std.specs.List.{AllByRecursion};
ghost use Rattle.dd_calls.specs.Calls.{IsOfClient};
ghost use Rattle.dd_calls.specs.Counting.{counts_of};
ghost use Rattle.dd_station.specs.Run.{answers as answers_to, after};

use crate::station::Station;
use dd_calls::{Counts, Step};
use std::alloc::AllocError;

/// Does the steps in order, and counts their answers.
pub fn count_steps(station: &mut Station, steps: &[Step]) -> Result<Counts, AllocError>
    requires clients { AllByRecursion (IsOfClient (length station.old.clients)) steps.now }
    requires count { station.old.steps + length steps.now < 2 ^ 32 - 1 }
    ensures counts { IfOk result (λ c. c ≡ counts_of (answers_to station.old steps.now)) }
    ensures state { OnOk result (station.new ≡ after station.old steps.now) }
{
    let mut counts = Counts::new();
    for step in steps {
        let answer = station.step(step)?;
        counts.count(&answer);
    }
    Ok(counts)
}
