//! The steps of the rounds: drawing, and clients that look at it.

ghost use Rattle.std.specs.Prelude.{◌≡◌, ◌≤◌, ◌++◌, OnOk};
ghost use Rattle.dd_gen.specs.Generator.{point, pointer, look, looks_of, looks, round, rounds};

use crate::drawing::{HEIGHT, WIDTH, operations};
use crate::generator::Generator;
use dd_calls::{ClientCall, Step};
use dd_geom::Point;
use dd_log::Draw;
use std::alloc::{AllocError, Global};

/// A point of the screen.
#[tactic(auto, unfolding(crate::specs::Generator::point))]
fn point(numbers: &mut Generator) -> Point
    ensures value { result ≡ (point numbers.old).value }
    ensures state { numbers.new ≡ (point numbers.old).state }
{
    let x = numbers.draw(WIDTH) as i32;
    let y = numbers.draw(HEIGHT) as i32;
    Point { x, y }
}

/// The pointer of a round: in each third round at a point of the screen, seen.
#[tactic(auto, unfolding(crate::specs::Generator::pointer))]
fn add_pointer(steps: &mut Vec<Step>, numbers: &mut Generator, round: u32) -> Result<(), AllocError>
    ensures steps { OnOk result (steps.new.items
        ≡ steps.old.items ++ (pointer round numbers.old).value) }
    ensures state { OnOk result (numbers.new ≡ (pointer round numbers.old).state) }
{
    if round % 3 == 0 {
        let position = point(numbers);
        let visible = true;
        steps.push(Step::Draw(Draw::Pointer { position, visible }))?;
    }
    Ok(())
}

/// A client acquires a frame and releases it.
fn add_look(steps: &mut Vec<Step>, client: u32) -> Result<(), AllocError>
    ensures { OnOk result (steps.new.items ≡ steps.old.items ++ look client) }
{
    let call = ClientCall::Acquire { timeout: 0 };
    steps.push(Step::Call { client, call })?;
    let call = ClientCall::Release;
    steps.push(Step::Call { client, call })?;
    Ok(())
}

/// The same in each round whose number is a multiple of `every`, which is at least 1.
fn add_looks_of(
    steps: &mut Vec<Step>,
    client: u32,
    every: u32,
    round: u32,
) -> Result<(), AllocError>
    requires { 1 ≤ every }
    ensures { OnOk result (steps.new.items ≡ steps.old.items ++ looks_of client every round) }
{
    if round % every == 0 {
        add_look(steps, client)
    } else {
        Ok(())
    }
}

/// Client 1 looks in each round, client 2 in each fourth and client 3 in each 25th.
#[tactic(auto, unfolding(crate::specs::Generator::looks))]
fn add_looks(steps: &mut Vec<Step>, round: u32) -> Result<(), AllocError>
    ensures { OnOk result (steps.new.items ≡ steps.old.items ++ looks round) }
{
    add_look(steps, 1)?;
    add_looks_of(steps, 2, 4, round)?;
    add_looks_of(steps, 3, 25, round)
}

/// The steps of a round, which has a number from 1.
#[tactic(auto, unfolding(crate::specs::Generator::round))]
fn add_round(
    alloc: Global,
    steps: &mut Vec<Step>,
    numbers: &mut Generator,
    number: u32,
) -> Result<(), AllocError>
    ensures steps { OnOk result (steps.new.items
        ≡ steps.old.items ++ (round number numbers.old).value) }
    ensures state { OnOk result (numbers.new ≡ (round number numbers.old).state) }
{
    let ops = operations(alloc, numbers, number)?;
    steps.push(Step::Draw(Draw::Present(ops)))?;
    add_pointer(steps, numbers, number)?;
    add_looks(steps, number)
}

/// The steps of so many rounds, from round 1 on.
#[tactic(auto, unfolding(crate::specs::Generator::rounds))]
pub(crate) fn add_rounds(
    alloc: Global,
    steps: &mut Vec<Step>,
    numbers: &mut Generator,
    count: u32,
) -> Result<(), AllocError>
    ensures steps { OnOk result (steps.new.items
        ≡ steps.old.items ++ (rounds count numbers.old).value) }
    ensures state { OnOk result (numbers.new ≡ (rounds count numbers.old).state) }
{
    for before in 0..count {
        add_round(alloc, steps, numbers, before + 1)?;
    }
    Ok(())
}
