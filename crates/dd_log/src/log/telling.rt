//! What the desk of a list tells, and what it tells of the entries from a place on.

ghost use Rattle.std.specs.Prelude.{◌≡◌, ◌==◌, ◌≤◌, length, drop, None, is_none, slice_get, option_map, unwrap_or, position, nat_lt, if◌then◌else◌};
ghost use Rattle.std.specs.List.{list_any};
ghost use Rattle.dd_geom.specs.Rect.{IsSize};
ghost use Rattle.dd_log.specs.Events.{shape_at};

use super::Log;
use crate::events::Entry;
use crate::pointer::Pointer;
use dd_modes::Mode;
use dd_pointer::Shape;

/// The place after an entry, which is its event number, where it stands from another place on; else 0.
fn since(place: u64, after: u64) -> u64
    ensures { result ≡ (if nat_lt place after then after else 0) }
{
    if place < after { after } else { 0 }
}

/// The shape that an entry gives the pointer, where there is one.
fn shape_of(entry: Option<&Entry>) -> Option<&Shape>
    ensures { option_map (λ shape. shape.now) result ≡ shape_at (option_map (λ e. e.now) entry.entry) }
{
    match entry {
        None => None,
        Some(entry) => entry.event.shape(),
    }
}

impl Log {
    ghost use Rattle.dd_log.specs.Desk.{is_app};
    ghost use Rattle.dd_log.specs.History.{desk, desk_mode, last_step, any_cuts_off, any_presents, any_points, any_ends, last_present, last_pointed, last_shape};

    /// Whether an entry from a place on loses the duplicators that were opened before it.
    pub fn cut_off_since(&self, place: u64) -> bool
        ensures { result ≡ any_cuts_off (drop place self.now.entries) }
    {
        place < self.desk.cut_off
    }

    /// Whether there is a present from a place on.
    pub fn presented_since(&self, place: u64) -> bool
        ensures { result ≡ any_presents (drop place self.now.entries) }
    {
        place < self.desk.presented
    }

    /// The event number, from 1, of the last present from a place on; 0 where there is none.
    pub fn last_present(&self, place: u64) -> u64
        ensures { result ≡ last_present place (drop place self.now.entries) }
    {
        since(place, self.desk.presented)
    }

    /// Whether the pointer or its shape is set from a place on.
    pub fn pointed_since(&self, place: u64) -> bool
        ensures { result ≡ any_points (drop place self.now.entries) }
    {
        place < self.desk.pointed
    }

    /// The event number, from 1, of the last entry from a place on that sets the pointer or its
    /// shape; 0 where there is none.
    pub fn last_pointed(&self, place: u64) -> u64
        ensures { result ≡ last_pointed place (drop place self.now.entries) }
    {
        since(place, self.desk.pointed)
    }

    /// The last shape that the pointer gets from a place on, if it gets one.
    pub fn shape_since(&self, place: u64) -> Option<&Shape>
        ensures { option_map (λ shape. shape.now) result ≡ last_shape (drop place self.now.entries) }
    {
        if place < self.desk.shaped {
            shape_of(self.get(self.desk.shaped - 1))
        } else {
            None
        }
    }

    /// The pointer of the desk.
    pub fn pointer(&self) -> Pointer
        ensures { result ≡ (desk self.now).pointer }
    {
        self.desk.pointer
    }

    /// The last step of an actor, 0 where it has none.
    pub fn last_step(&self, actor: u32) -> u32
        ensures { result ≡ last_step self.now.entries actor }
    {
        self.desk.step_of(actor)
    }

    /// The mode of the desk.
    pub fn mode(&self) -> Mode
        ensures value { result ≡ desk_mode self.now }
        ensures size { IsSize result.width result.height }
    {
        self.desk.mode
    }

    /// Whether the desktop is secure.
    pub fn secure(&self) -> bool
        ensures { result ≡ (desk self.now).secure }
    {
        self.desk.secure
    }

    /// Whether the session is connected.
    pub fn connected(&self) -> bool
        ensures { result ≡ (desk self.now).connected }
    {
        self.desk.connected
    }

    /// Whether the list has ended.
    pub fn ended(&self) -> bool
        ensures value { result ≡ (desk self.now).ended }
        ensures plain { result ≡ any_ends self.now.entries }
    {
        self.desk.ended
    }

    /// The place after the last entry that begins a picture, else 0.
    pub fn picture_start(&self) -> u64
        ensures value { result ≡ (desk self.now).picture_start }
        ensures within { result ≤ length self.now.entries }
    {
        self.desk.picture_start
    }

    /// The slot, 0 to 3, that is open for an application.
    pub fn slot_of(&self, app: u32) -> Option<u32>
        ensures { result ≡ position (is_app app) (desk self.now).slots }
    {
        self.desk.slot_of(app)
    }

    /// The least slot that is free.
    pub fn free_slot(&self) -> Option<u32>
        ensures { result ≡ position is_none (desk self.now).slots }
    {
        self.desk.free_slot()
    }

    /// The application that a slot is open for; none where it is free, or no slot.
    pub fn app_of(&self, slot: u32) -> Option<u32>
        ensures { result ≡ unwrap_or (slice_get (desk self.now).slots slot) None }
    {
        self.desk.app_of(slot)
    }

    /// Whether an application may duplicate a secure desktop.
    pub fn privileged(&self, app: u32) -> bool
        ensures { result ≡ list_any (λ other. other == app) self.now.spec.privileged }
    {
        self.spec.privileged.contains(app)
    }
}
