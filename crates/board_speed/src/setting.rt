//! The screen, and what is drawn on it.

ghost use Rattle.std.specs.Prelude.{◌≡◌, ◌+◌, ◌<◌, ◌≤◌, ◌^◌, IfOk, vec_len};
ghost use Rattle.dd_log.specs.declared.events.TheConstants.{MAX_CAPACITY};

use dd_calls::Role;
use dd_geom::Rect;
use dd_log::{Apps, Draw, Spec};
use dd_modes::{Mode, Modes, Rotation};
use dd_ops::{Op, Ops};
use std::alloc::{AllocError, Global};
use std::hint;

/// The most drawings of a run.
pub const MAX_DRAWINGS: u32 = 1_000_000;

/// How many entries a list has room for beside the drawings.
const OTHERS: u32 = 64;

/// One screen of 64 by 64 points, room for so many entries, and the applications that may duplicate
/// it while the desktop is secure.
pub fn spec_of(alloc: Global, capacity: u32, privileged: &[u32]) -> Result<Spec, AllocError>
    ensures { IfOk result (λ spec. spec.capacity ≡ capacity) }
{
    let mode = Mode {
        width: 64,
        height: 64,
        rotation: Rotation::Identity,
    };
    Ok(Spec {
        modes: Modes::from_vec([mode].to_vec(alloc)?).ok_or(AllocError)?,
        capacity,
        privileged: Apps::from_vec(privileged.to_vec(alloc)?),
    })
}

/// That screen, with room for so many drawings.
pub fn spec(alloc: Global, drawings: u32) -> Result<Spec, AllocError>
    requires { drawings ≤ MAX_DRAWINGS }
    ensures some { IfOk result (λ spec. 1 ≤ spec.capacity) }
    ensures few { IfOk result (λ spec. spec.capacity ≤ MAX_CAPACITY) }
{
    spec_of(alloc, drawings + OTHERS, &[])
}

/// A rectangle of 16 rows, from column 8 to this one.
fn rect_to(right: i32) -> Rect {
    Rect {
        left: 8,
        top: 8,
        right,
        bottom: 24,
    }
}

/// A present of fills up to these right edges.
fn fills(alloc: Global, rights: &[i32]) -> Result<Draw, AllocError> {
    let mut ops = Ops::new(alloc);
    for right in rights {
        let op = Op::Fill {
            rect: rect_to(*right),
            colour: 0x33_66_99,
        };
        if ops.push(op).is_err() {
            return Err(AllocError);
        }
    }
    Ok(Draw::Present(ops))
}

/// A present of one fill of 16 by 16 points.
pub fn fill(alloc: Global) -> Result<Draw, AllocError> {
    fills(alloc, &[24])
}

/// A present of two fills, of which the second, number 1, leaves the screen.
pub fn too_wide(alloc: Global) -> Result<Draw, AllocError> {
    fills(alloc, &[24, 65])
}

/// One drawer, and so many clients, each with an application of its own, numbered from this one on.
pub fn roles(alloc: Global, first: u32, clients: u32) -> Result<Vec<Role>, AllocError>
    requires { first + clients < 2 ^ 32 }
    ensures { IfOk result (λ roles. vec_len roles ≡ clients + 1) }
{
    let mut roles = [Role::Drawer].to_vec(alloc)?;
    for number in 0..clients {
        roles.push(Role::Client {
            app: first + number,
        })?;
    }
    Ok(roles)
}

/// Waits for some turns, without giving up the processor.
pub fn pause(turns: u32) {
    for _ in 0..turns {
        hint::spin_loop();
    }
}
