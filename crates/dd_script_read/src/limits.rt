//! The tests on a script that was read.

ghost use Rattle.std.specs.Prelude.{◌≡◌};
ghost use Rattle.std.specs.List.{list_all};
ghost use Rattle.dd_script_read.specs.Script.{has_client, keeps_limits};

use dd_calls::{MAX_CLIENTS, Script, Step};
use dd_log::{MAX_CAPACITY, MAX_PRIVILEGED};

/// Whether a call is of one of n clients, numbered from 1.
fn has_client(step: &Step, n: usize) -> bool
    ensures { result ≡ has_client n step.now }
{
    match step {
        Step::Draw(_) => true,
        Step::Call { client, .. } => 1 <= *client && *client as usize <= n,
    }
}

/// Whether each call is of one of n clients.
fn have_clients(steps: &[Step], n: usize) -> bool
    ensures { result ≡ list_all (has_client n) steps.now }
{
    steps.iter().all(|step| has_client(step, n))
}

/// Whether the capacity, the counts and the clients' numbers are in their ranges.
#[tactic(auto, unfolding(crate::specs::Script::keeps_limits))]
pub(crate) fn keeps_limits(script: &Script) -> bool
    ensures { result ≡ keeps_limits script.now }
{
    let capacity = script.spec.capacity;
    let clients = script.clients.as_slice().len();
    1 <= capacity
        && capacity <= MAX_CAPACITY
        && script.spec.privileged.as_slice().len() <= MAX_PRIVILEGED
        && 1 <= clients
        && clients <= MAX_CLIENTS
        && have_clients(script.steps.as_slice(), clients)
}
