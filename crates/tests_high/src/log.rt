//! The calls of a list that no program makes: a beginning is kept, an entry is looked up, a list is
//! copied, and an ended one is ended again.

ghost use Rattle.std.specs.Prelude.{◌<◌, IfOk};
ghost use Rattle.dd_log.specs.History.{last_step};

use dd_log::{Apps, Draw, Entry, Event, Log, Spec};
use dd_modes::{Mode, Modes, Rotation};
use std::alloc::Global;
use std::test::Fail;

const MODE: Mode = Mode {
    width: 4,
    height: 3,
    rotation: Rotation::Identity,
};

/// The next step of an actor.
fn next(log: &Log, actor: u32) -> Result<u32, Fail>
    ensures { IfOk result (λ step. last_step log.now.entries actor < step) }
{
    Ok(log.last_step(actor).checked_add(1).ok_or("no step")?)
}

/// Draws, as actor 2.
fn draw(log: &mut Log, drawing: Draw) -> Result<(), Fail> {
    let step = next(log, 2)?;
    log.append(Entry {
        actor: 2,
        step,
        event: Event::Draw(drawing),
    })?;
    Ok(())
}

/// Ends the list, as actor 3.
fn end(log: &mut Log) -> Result<(), Fail> {
    let step = next(log, 3)?;
    log.end(3, step);
    Ok(())
}

/// A list of one mode after a disconnect and a switch to the secure desktop.
fn drawn(alloc: Global) -> Result<Log, Fail> {
    let modes = Modes::from_vec([MODE].to_vec(alloc)?).ok_or("no modes")?;
    let spec = Spec {
        modes,
        capacity: 9,
        privileged: Apps::from_vec([7].to_vec(alloc)?),
    };
    let mut log = Log::start(alloc, spec)?;
    draw(&mut log, Draw::Disconnect)?;
    draw(&mut log, Draw::Switch { secure: true })?;
    Ok(log)
}

#[test]
fn a_beginning_is_kept(rt: HostRuntime) -> Result<(), Fail> {
    let mut log = drawn(rt.alloc())?;
    log.cut(9);
    assert_eq!(rt; log.len(), 2);
    assert!(rt; log.secure());
    log.cut(1);
    assert_eq!(rt; log.len(), 1);
    assert!(rt; !log.secure());
    assert!(rt; !log.connected());
    log.cut(0);
    assert!(rt; log.is_empty());
    assert!(rt; log.connected());
    Ok(())
}

#[test]
fn a_copy_ends_by_itself(rt: HostRuntime) -> Result<(), Fail> {
    let log = drawn(rt.alloc())?;
    let mut copy = log.copy()?;
    end(&mut copy)?;
    end(&mut copy)?;
    assert_eq!(rt; copy.len(), 3);
    assert!(rt; copy.ended());
    assert_eq!(rt; log.len(), 2);
    assert!(rt; !log.ended());
    Ok(())
}

#[test]
fn an_entry_is_looked_up(rt: HostRuntime) -> Result<(), Fail> {
    let log = drawn(rt.alloc())?;
    assert_eq!(rt; log.get(1).map(|entry| entry.step), Some(2));
    assert!(rt; log.get(2).is_none());
    Ok(())
}
