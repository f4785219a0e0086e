//! Steps of two clients beside a drawing actor, whose answers are worked out by hand. Each case is a
//! row of a table; what frames, buffers and surfaces tell is in examples/.

ghost use Rattle.std.specs.Prelude.{◌≡◌, ◌+◌, ◌-◌, ◌^◌, ◌<◌, length, IfOk, OnOk};
ghost use Rattle.dd_calls.specs.Calls.{IsOfClient};

use dd_calls::{Answer, ClientCall, CloseRefusal, DupRefusal, OpenRefusal, Step};
use dd_geom::Rect;
use dd_log::{Apps, Draw, LogRefusal, Spec};
use dd_modes::{Mode, Modes, Rotation};
use dd_ops::{Op, Ops};
use dd_station::Station;
use std::alloc::Global;
use std::process::Abort;
use std::test::Fail;

const MODE: Mode = Mode {
    width: 4,
    height: 3,
    rotation: Rotation::Identity,
};

const INSIDE: Rect = Rect {
    left: 1,
    top: 1,
    right: 3,
    bottom: 2,
};

const PAST_THE_SIDE: Rect = Rect {
    left: 3,
    top: 0,
    right: 5,
    bottom: 1,
};

/// A step.
#[derive(Clone, Copy)]
enum Act {
    /// A present of one fill.
    Fill(Rect),
    Mode(u32),
    Switch(bool),
    Disconnect,
    Reconnect,
    /// A call of the first client.
    First(ClientCall),
    /// A call of the second client.
    Second(ClientCall),
}

/// What an answer tells in short.
#[derive(Clone, Copy, Debug, PartialEq, Eq)]
enum Told {
    Entered(u64),
    NotDrawn(LogRefusal),
    Opened { entry: u64, slot: u32 },
    NotOpened(OpenRefusal),
    Closed(u64),
    NotClosed(CloseRefusal),
    Refused(DupRefusal),
    NoDuplicator,
    /// A frame, or what a frame lends.
    Given,
}

/// One case. It ends with so many entries.
#[derive(Clone, Copy)]
struct Case {
    name: &'static str,
    capacity: u32,
    apps: [u32; 2],
    steps: &'static [(Act, Told)],
    entries: u64,
}

const DUPLICATE: ClientCall = ClientCall::Duplicate;

const ACQUIRE: ClientCall = ClientCall::Acquire { timeout: 0 };

const CLOSE: ClientCall = ClientCall::Close;

/// The first client opens the first slot.
const OPEN: (Act, Told) = (Act::First(DUPLICATE), Told::Opened { entry: 1, slot: 0 });

const LOST: Told = Told::Refused(DupRefusal::AccessLost);

const CASES: &[Case] = &[
    Case {
        name: "one application has one duplicator",
        capacity: 5,
        apps: [1, 1],
        steps: &[
            OPEN,
            (
                Act::Second(DUPLICATE),
                Told::NotOpened(OpenRefusal::AlreadyDuplicating),
            ),
            (Act::Second(ACQUIRE), Told::NoDuplicator),
        ],
        entries: 1,
    },
    Case {
        name: "a list fills up",
        capacity: 5,
        apps: [1, 2],
        steps: &[
            OPEN,
            (Act::Fill(INSIDE), Told::Entered(2)),
            (
                Act::Fill(PAST_THE_SIDE),
                Told::NotDrawn(LogRefusal::BadRect { op: 0 }),
            ),
            (Act::Fill(INSIDE), Told::Entered(3)),
            (Act::Fill(INSIDE), Told::Entered(4)),
            (Act::Fill(INSIDE), Told::NotDrawn(LogRefusal::Full)),
            (Act::First(ACQUIRE), Told::Given),
            (Act::Second(DUPLICATE), Told::NotOpened(OpenRefusal::Full)),
        ],
        entries: 4,
    },
    Case {
        name: "a lost duplicator keeps its slot until it is closed",
        capacity: 9,
        apps: [1, 2],
        steps: &[
            OPEN,
            (Act::Fill(INSIDE), Told::Entered(2)),
            (Act::First(ACQUIRE), Told::Given),
            (Act::Mode(0), Told::Entered(3)),
            (Act::Mode(1), Told::NotDrawn(LogRefusal::BadMode)),
            (Act::First(ClientCall::Surface), Told::Given),
            (Act::First(ClientCall::Release), LOST),
            (Act::First(ACQUIRE), LOST),
            (
                Act::First(DUPLICATE),
                Told::NotOpened(OpenRefusal::AlreadyDuplicating),
            ),
            (Act::Second(DUPLICATE), Told::Opened { entry: 4, slot: 1 }),
            (Act::First(CLOSE), Told::Closed(5)),
            (Act::First(DUPLICATE), Told::Opened { entry: 6, slot: 0 }),
            (Act::First(ACQUIRE), Told::Refused(DupRefusal::WaitTimeout)),
        ],
        entries: 6,
    },
    Case {
        name: "a secure desktop is for the privileged, and a disconnected session for nobody",
        capacity: 9,
        apps: [1, 9],
        steps: &[
            (Act::Switch(true), Told::Entered(1)),
            (
                Act::First(DUPLICATE),
                Told::NotOpened(OpenRefusal::AccessDenied),
            ),
            (Act::Second(DUPLICATE), Told::Opened { entry: 2, slot: 0 }),
            (Act::Disconnect, Told::Entered(3)),
            (
                Act::First(DUPLICATE),
                Told::NotOpened(OpenRefusal::SessionDisconnected),
            ),
            (Act::Reconnect, Told::Entered(4)),
            (Act::Second(ACQUIRE), LOST),
            (Act::Switch(false), Told::Entered(5)),
            (Act::First(DUPLICATE), Told::Opened { entry: 6, slot: 1 }),
        ],
        entries: 6,
    },
    Case {
        name: "a client closes its own duplicator alone, where the list has room",
        capacity: 4,
        apps: [1, 1],
        steps: &[
            OPEN,
            (
                Act::Second(CLOSE),
                Told::NotClosed(CloseRefusal::NoDuplicator),
            ),
            (Act::First(CLOSE), Told::Closed(2)),
            (Act::First(ACQUIRE), Told::NoDuplicator),
            (Act::Second(DUPLICATE), Told::Opened { entry: 3, slot: 0 }),
            (Act::Second(CLOSE), Told::NotClosed(CloseRefusal::Full)),
            (
                Act::First(CLOSE),
                Told::NotClosed(CloseRefusal::NoDuplicator),
            ),
        ],
        entries: 3,
    },
];

fn in_short(answer: &Answer) -> Told {
    match answer {
        Answer::Entered { entry } => Told::Entered(*entry),
        Answer::NotDrawn(cause) => Told::NotDrawn(*cause),
        Answer::Opened { entry, slot } => Told::Opened {
            entry: *entry,
            slot: *slot,
        },
        Answer::NotOpened(cause) => Told::NotOpened(*cause),
        Answer::Closed { entry } => Told::Closed(*entry),
        Answer::NotClosed(cause) => Told::NotClosed(*cause),
        Answer::Refused { refusal, .. } => Told::Refused(*refusal),
        Answer::NoDuplicator => Told::NoDuplicator,
        Answer::Frame { .. }
        | Answer::Released
        | Answer::Surface(_)
        | Answer::Desc(_)
        | Answer::Buffer { .. }
        | Answer::ShapeBuffer { .. } => Told::Given,
    }
}

/// A present of one fill.
fn fill(alloc: Global, rect: Rect) -> Result<Draw, Fail> {
    let mut ops = Ops::new(alloc);
    ops.push(Op::Fill {
        rect,
        colour: 0xff_0000,
    })?;
    Ok(Draw::Present(ops))
}

/// The step of a row, which is a drawing or a call of one of two clients.
fn step_of(alloc: Global, act: Act) -> Result<Step, Fail>
    ensures { IfOk result (λ step. IsOfClient 2 step) }
{
    match act {
        Act::Fill(rect) => Ok(Step::Draw(fill(alloc, rect)?)),
        Act::Mode(index) => Ok(Step::Draw(Draw::Mode { index })),
        Act::Switch(secure) => Ok(Step::Draw(Draw::Switch { secure })),
        Act::Disconnect => Ok(Step::Draw(Draw::Disconnect)),
        Act::Reconnect => Ok(Step::Draw(Draw::Reconnect)),
        Act::First(call) => Ok(Step::Call { client: 1, call }),
        Act::Second(call) => Ok(Step::Call { client: 2, call }),
    }
}

/// The answer to a step, of fewer than 2^32 - 1, which is counted and leaves the clients.
#[tactic(auto, using(dd_station::proofs::Stepped::stepped_next))]
pub(crate) fn answer_to(station: &mut Station, step: &Step) -> Result<Answer, Fail>
    requires client { IsOfClient (length station.old.clients) step.now }
    requires count { station.old.steps < 2 ^ 32 - 1 }
    ensures clients { OnOk result (station.new.clients ≡ station.old.clients) }
    ensures steps { OnOk result (station.new.steps ≡ station.old.steps + 1) }
{
    Ok(station.step(step)?)
}

/// What one of the first hundred steps is answered.
fn answered(alloc: Global, station: &mut Station, act: Act) -> Result<Told, Fail>
    requires clients { length station.old.clients ≡ 2 }
    requires steps { station.old.steps < 100 }
    ensures clients { OnOk result (length station.new.clients ≡ 2) }
    ensures steps { OnOk result (station.new.steps ≡ station.old.steps + 1) }
{
    let step = step_of(alloc, act)?;
    let answer = answer_to(station, &step)?;
    Ok(in_short(&answer))
}

/// A station with two clients; application 9 is privileged.
fn station(rt: &impl Abort, alloc: Global, case: &Case) -> Result<Station, Fail>
    ensures clients { IfOk result (λ s. length s.clients ≡ 2) }
    ensures steps { IfOk result (λ s. s.steps ≡ 0) }
{
    let modes = [MODE].to_vec(alloc)?;
    assert!(rt; 1 <= case.capacity && case.capacity <= 100);
    let spec = Spec {
        modes: Modes::from_vec(modes).ok_or("one mode")?,
        capacity: case.capacity,
        privileged: Apps::from_vec([9].to_vec(alloc)?),
    };
    Ok(Station::start(alloc, spec, &case.apps)?)
}

fn holds(rt: &impl Abort, alloc: Global, case: &Case) -> Result<(), Fail> {
    let mut station = station(rt, alloc, case)?;
    let steps = case.steps;
    assert!(rt; steps.len() <= 100);
    for (act, want) in steps {
        let told = answered(alloc, &mut station, *act)?;
        assert_eq!(rt; told, *want, "{}", case.name);
    }
    assert_eq!(rt; station.log().len(), case.entries, "{}", case.name);
    Ok(())
}

#[test]
fn the_cases_hold(rt: HostRuntime) -> Result<(), Fail> {
    for case in CASES {
        holds(&rt, rt.alloc(), case)?;
    }
    Ok(())
}
