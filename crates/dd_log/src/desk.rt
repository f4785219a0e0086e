//! The desk beside its picture.

ghost use Rattle.std.specs.Prelude.{◌≡◌, ◌<◌, IsTrue, IfSome, is_none, is_some, slice_get, slice_index_or, unwrap_or, length, position};
ghost use Rattle.dd_geom.specs.Rect.{IsSize};
ghost use Rattle.dd_log.specs.Desk.{first_desk, desk_after, mode_drawn, mode_after as mode_then, secure_drawn, secure_after as secure_then, connected_drawn, connected_after as connected_then, pointer_after as pointer_then, slots_after, place_after as place_then, finds_slot, is_app};
ghost use Rattle.dd_log.specs.declared.desk.TheConstants.{MAX_DUPLICATORS};
ghost use Rattle.dd_log.specs.declared.events.TheConstants.{MAX_ACTORS, MAX_CAPACITY};

use crate::events::{Draw, Entry, Event, MAX_ACTORS};
use crate::pointer::Pointer;
use dd_geom::Point;
use dd_modes::{Mode, Modes};

/// How many duplicators of one output may be open at once.
pub const MAX_DUPLICATORS: usize = 4;

/// What the desk is beside its picture. A place is a number of entries, and "the place after" an
/// entry the number of those up to it.
#[derive(Clone, Copy, Debug)]
pub struct Desk {
    /// The number of entries so far.
    pub len: u64,
    pub mode: Mode,
    /// Whether the desktop is secure.
    pub secure: bool,
    /// Whether the session is connected.
    pub connected: bool,
    /// Whether the list has ended.
    pub ended: bool,
    /// The place after the last entry that begins a picture, else 0.
    pub picture_start: u64,
    /// The place after the last entry that loses duplicators, else 0.
    pub cut_off: u64,
    /// The place after the last present, else 0.
    pub presented: u64,
    /// The place after the last entry that sets the pointer or its shape, else 0.
    pub pointed: u64,
    /// The place after the last entry that gives the pointer a shape, else 0.
    pub shaped: u64,
    pub pointer: Pointer,
    /// The application of each open slot.
    pub slots: [Option<u32>; MAX_DUPLICATORS],
    /// The last step of each actor, 0 where it has none.
    pub steps: [u32; MAX_ACTORS as usize],
}

/// Whether a slot is open for the application.
fn holds(slot: &Option<u32>, app: u32) -> bool
    ensures { result ≡ is_app app slot.now }
{
    match slot {
        None => false,
        Some(other) => *other == app,
    }
}

/// The least slot that is open for the application.
fn slot_with(slots: &[Option<u32>], app: u32) -> Option<usize>
    ensures value { result ≡ position (is_app app) slots.now }
    ensures within { IfSome result (λ k. k < length slots.now) }
{
    slots.iter().position(|slot| holds(slot, app))
}

/// The least slot that is free.
fn slot_without(slots: &[Option<u32>]) -> Option<usize>
    ensures value { result ≡ position is_none slots.now }
    ensures within { IfSome result (λ k. k < length slots.now) }
{
    slots.iter().position(|slot| slot.is_none())
}

/// The mode after a drawing.
fn mode_of(modes: &Modes, old: Mode, draw: &Draw) -> Mode
    requires { IsSize old.width old.height }
    ensures value { result ≡ mode_drawn modes.now old draw.now }
    ensures size { IsSize result.width result.height }
{
    match draw {
        Draw::Mode { index } => modes.get(*index).unwrap_or(old),
        Draw::Present(_)
        | Draw::Pointer { .. }
        | Draw::Shape(_)
        | Draw::Switch { .. }
        | Draw::Disconnect
        | Draw::Reconnect => old,
    }
}

/// The mode after an event.
fn mode_after(modes: &Modes, old: Mode, event: &Event) -> Mode
    requires { IsSize old.width old.height }
    ensures value { result ≡ mode_then modes.now old event.now }
    ensures size { IsSize result.width result.height }
{
    match event {
        Event::Draw(draw) => mode_of(modes, old, draw),
        Event::Opened { .. } | Event::Closed { .. } | Event::End => old,
    }
}

/// Whether the desktop is secure after a drawing.
fn secure_of(old: bool, draw: &Draw) -> bool
    ensures { result ≡ secure_drawn old draw.now }
{
    match draw {
        Draw::Switch { secure } => *secure,
        Draw::Present(_)
        | Draw::Pointer { .. }
        | Draw::Shape(_)
        | Draw::Mode { .. }
        | Draw::Disconnect
        | Draw::Reconnect => old,
    }
}

/// Whether the desktop is secure after an event.
fn secure_after(old: bool, event: &Event) -> bool
    ensures { result ≡ secure_then old event.now }
{
    match event {
        Event::Draw(draw) => secure_of(old, draw),
        Event::Opened { .. } | Event::Closed { .. } | Event::End => old,
    }
}

/// Whether the session is connected after a drawing.
fn connected_of(old: bool, draw: &Draw) -> bool
    ensures { result ≡ connected_drawn old draw.now }
{
    match draw {
        Draw::Disconnect => false,
        Draw::Reconnect => true,
        Draw::Present(_)
        | Draw::Pointer { .. }
        | Draw::Shape(_)
        | Draw::Mode { .. }
        | Draw::Switch { .. } => old,
    }
}

/// Whether the session is connected after an event.
fn connected_after(old: bool, event: &Event) -> bool
    ensures { result ≡ connected_then old event.now }
{
    match event {
        Event::Draw(draw) => connected_of(old, draw),
        Event::Opened { .. } | Event::Closed { .. } | Event::End => old,
    }
}

/// The pointer after an event.
fn pointer_after(old: Pointer, event: &Event) -> Pointer
    ensures { result ≡ pointer_then old event.now }
{
    event.pointer().unwrap_or(old)
}

/// The place after the last entry of a kind, where the next one, after `len` others, is of that
/// kind or isn't.
fn place_after(here: bool, len: u64, old: u64) -> u64
    requires { len < MAX_CAPACITY }
    ensures { result ≡ place_then here len old }
{
    if here { len + 1 } else { old }
}

/// Takes a slot for its application, or frees it.
fn change_slot(slots: &mut [Option<u32>; MAX_DUPLICATORS], event: &Event)
    requires { IsTrue (finds_slot slots.old event.now) }
    ensures { slots.new ≡ slots_after slots.old event.now }
{
    match event {
        Event::Opened { slot, app } => slots[*slot as usize] = Some(*app),
        Event::Closed { slot } => slots[*slot as usize] = None,
        Event::Draw(_) | Event::End => {}
    }
}

impl Desk {
    /// The desk of an empty list.
    #[tactic(auto, unfolding(crate::specs::Desk::first_desk))]
    pub(crate) fn first(modes: &Modes) -> Desk
        ensures value { result ≡ first_desk modes.now }
        ensures size { IsSize result.mode.width result.mode.height }
    {
        Desk {
            len: 0,
            mode: modes.first(),
            secure: false,
            connected: true,
            ended: false,
            picture_start: 0,
            cut_off: 0,
            presented: 0,
            pointed: 0,
            shaped: 0,
            pointer: Pointer {
                position: Point { x: 0, y: 0 },
                visible: false,
            },
            slots: [None; MAX_DUPLICATORS],
            steps: [0; MAX_ACTORS as usize],
        }
    }

    /// Goes on by one entry.
    #[tactic(auto, unfolding(crate::specs::Desk::desk_after))]
    pub(crate) fn follow(&mut self, modes: &Modes, entry: &Entry)
        requires few { self.old.len < MAX_CAPACITY }
        requires actor { entry.now.actor < MAX_ACTORS }
        requires slot { IsTrue (finds_slot self.old.slots entry.now.event) }
        requires size { IsSize self.old.mode.width self.old.mode.height }
        ensures value { self.new ≡ desk_after modes.now self.old entry.now }
        ensures size { IsSize self.new.mode.width self.new.mode.height }
    {
        let event = &entry.event;
        self.mode = mode_after(modes, self.mode, event);
        self.secure = secure_after(self.secure, event);
        self.connected = connected_after(self.connected, event);
        self.ended = self.ended | event.is_end();
        self.picture_start = place_after(event.begins_picture(), self.len, self.picture_start);
        self.cut_off = place_after(event.cuts_off(), self.len, self.cut_off);
        self.presented = place_after(event.present().is_some(), self.len, self.presented);
        self.pointed = place_after(event.is_pointing(), self.len, self.pointed);
        self.shaped = place_after(event.shape().is_some(), self.len, self.shaped);
        self.pointer = pointer_after(self.pointer, event);
        change_slot(&mut self.slots, event);
        self.steps[entry.actor as usize] = entry.step;
        self.len += 1;
    }

    /// The least slot that is open for an application.
    pub(crate) fn slot_of(&self, app: u32) -> Option<u32>
        ensures { result ≡ position (is_app app) self.now.slots }
    {
        match slot_with(&self.slots, app) {
            None => None,
            Some(slot) => Some(slot as u32),
        }
    }

    /// The least slot that is free.
    pub(crate) fn free_slot(&self) -> Option<u32>
        ensures { result ≡ position is_none self.now.slots }
    {
        match slot_without(&self.slots) {
            None => None,
            Some(slot) => Some(slot as u32),
        }
    }

    /// The application that a slot is open for.
    pub(crate) fn app_of(&self, slot: u32) -> Option<u32>
        ensures { result ≡ unwrap_or (slice_get self.now.slots slot) None }
    {
        self.slots.get(slot as usize).copied().unwrap_or(None)
    }

    /// The last step of an actor, 0 where it has none.
    pub(crate) fn step_of(&self, actor: u32) -> u32
        ensures { result ≡ slice_index_or self.now.steps actor 0 }
    {
        self.steps.get(actor as usize).copied().unwrap_or(0)
    }
}
