//! A long list, of which each acquire costs what is new, so that all of them end in time.

ghost use Rattle.std.specs.Prelude.{◌≡◌, ◌+◌, ◌<◌, ◌≤◌, length, IfOk, OnOk};
ghost use Rattle.dd_log.specs.declared.events.TheConstants.{MAX_CAPACITY};
ghost use Rattle.dd_calls.specs.Calls.{IsOfClient};

use crate::station::answer_to;
use dd_calls::{Answer, ClientCall, Step};
use dd_geom::Rect;
use dd_log::{Apps, Draw, Spec};
use dd_modes::{Mode, Modes, Rotation};
use dd_ops::{Op, Ops};
use dd_station::Station;
use std::alloc::Global;
use std::test::Fail;

/// The least output.
const MODE: Mode = Mode {
    width: 1,
    height: 1,
    rotation: Rotation::Identity,
};

/// Its point.
const POINT: Rect = Rect {
    left: 0,
    top: 0,
    right: 1,
    bottom: 1,
};

const PRESENTS: u32 = 200_000;

/// A step of the one client.
fn step_of(call: ClientCall) -> Step
    ensures { IsOfClient 1 result }
{
    Step::Call { client: 1, call }
}

/// The least output with one client, whose duplicator is open.
fn opened(alloc: Global, capacity: u32) -> Result<Station, Fail>
    requires some { 1 ≤ capacity }
    requires few { capacity ≤ MAX_CAPACITY }
    ensures clients { IfOk result (λ s. length s.clients ≡ 1) }
    ensures steps { IfOk result (λ s. s.steps ≡ 1) }
{
    let modes = [MODE].to_vec(alloc)?;
    let spec = Spec {
        modes: Modes::from_vec(modes).ok_or("one mode")?,
        capacity,
        privileged: Apps::from_vec(Vec::new(alloc)),
    };
    let mut station = Station::start(alloc, spec, &[7])?;
    let _opened = answer_to(&mut station, &step_of(ClientCall::Duplicate))?;
    Ok(station)
}

/// A present of one fill.
fn fill(alloc: Global) -> Result<Draw, Fail> {
    let mut ops = Ops::new(alloc);
    ops.push(Op::Fill {
        rect: POINT,
        colour: 0xff_0000,
    })?;
    Ok(Draw::Present(ops))
}

/// How many presents an acquired frame tells of.
fn presents_of(answer: &Answer) -> u32 {
    match answer {
        Answer::Frame { info, .. } => info.accumulated,
        Answer::Entered { .. }
        | Answer::NotDrawn(_)
        | Answer::Opened { .. }
        | Answer::NotOpened(_)
        | Answer::Closed { .. }
        | Answer::NotClosed(_)
        | Answer::Released
        | Answer::Surface(_)
        | Answer::Desc(_)
        | Answer::Buffer { .. }
        | Answer::ShapeBuffer { .. }
        | Answer::Refused { .. }
        | Answer::NoDuplicator => 0,
    }
}

/// A present of one fill, and the frame of it, which is let go: how many presents it tells of.
fn presented(alloc: Global, station: &mut Station) -> Result<u32, Fail>
    requires clients { length station.old.clients ≡ 1 }
    requires steps { station.old.steps < 2_000_000 }
    ensures clients { OnOk result (length station.new.clients ≡ 1) }
    ensures steps { OnOk result (station.new.steps ≡ station.old.steps + 3) }
{
    let _entered = answer_to(station, &Step::Draw(fill(alloc)?))?;
    let frame = answer_to(station, &step_of(ClientCall::Acquire { timeout: 0 }))?;
    let _released = answer_to(station, &step_of(ClientCall::Release))?;
    Ok(presents_of(&frame))
}

#[test]
fn long_list(rt: HostRuntime) -> Result<(), Fail> {
    let mut station = opened(rt.alloc(), PRESENTS + 2)?;
    for made in 0..PRESENTS {
        let presents = presented(rt.alloc(), &mut station)?;
        assert_eq!(rt; presents, 1, "present {made}");
    }
    let folded = station.dup(1).map(|dup| dup.folded());
    assert_eq!(rt; folded, Some(200_001));
    Ok(())
}
