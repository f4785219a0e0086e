//! The whole script.

ghost use Rattle.std.specs.Prelude.{◌≡◌, ◌++◌, ◌∷◌, [], IfOk, OnOk};
ghost use Rattle.dd_gen.specs.Generator.{each_calls, made_steps, screen, made};

use crate::drawing::{HEIGHT, WIDTH};
use crate::generator::Generator;
use crate::rounds::add_rounds;
use dd_calls::{ClientCall, Script, Step, Steps};
use dd_log::{Apps, Spec};
use dd_modes::{Mode, Modes, Rotation};
use std::alloc::{AllocError, Global};

/// How many rounds there are.
const ROUNDS: u32 = 300;

/// How many entries the list may have.
const CAPACITY: u32 = 4096;

/// A list of the one mode of the screen.
fn modes(alloc: Global) -> Result<Modes, AllocError>
    ensures { IfOk result (λ modes. modes ≡ screen ∷ []) }
{
    let mode = Mode {
        width: WIDTH,
        height: HEIGHT,
        rotation: Rotation::Identity,
    };
    Modes::from_vec(vec![in alloc; mode]?).ok_or(AllocError)
}

/// Each of the three clients calls this, in order.
fn each_calls(steps: &mut Vec<Step>, call: ClientCall) -> Result<(), AllocError>
    ensures { OnOk result (steps.new.items ≡ steps.old.items ++ each_calls call) }
{
    steps.push(Step::Call { client: 1, call })?;
    steps.push(Step::Call { client: 2, call })?;
    steps.push(Step::Call { client: 3, call })?;
    Ok(())
}

/// The steps that are made from a seed.
#[tactic(auto, unfolding(crate::specs::Generator::made_steps))]
fn steps_from(alloc: Global, seed: u32) -> Result<Steps, AllocError>
    ensures { IfOk result (λ steps. steps ≡ made_steps seed) }
{
    let mut steps = Vec::new(alloc);
    let mut numbers = Generator::new(seed);
    each_calls(&mut steps, ClientCall::Duplicate)?;
    add_rounds(alloc, &mut steps, &mut numbers, ROUNDS)?;
    each_calls(&mut steps, ClientCall::Close)?;
    Ok(Steps::from_vec(steps))
}

/// Makes the script of a seed: a screen of 1920 by 1080 pixels, a list of at most 4,096 entries,
/// three clients and 1,180 steps, told by the seed alone. An error is want of memory.
#[tactic(auto, unfolding(crate::specs::Generator::made))]
pub fn make(alloc: Global, seed: u32) -> Result<Script, AllocError>
    ensures { IfOk result (λ s. s ≡ made seed) }
{
    let spec = Spec {
        modes: modes(alloc)?,
        capacity: CAPACITY,
        privileged: Apps::from_vec(Vec::new(alloc)),
    };
    let clients = Apps::from_vec(vec![in alloc; 1, 2, 3]?);
    let steps = steps_from(alloc, seed)?;
    Ok(Script {
        spec,
        clients,
        steps,
    })
}
