//! The list of an output's events, kept whole for the output's life.

ghost use Rattle.std.specs.Prelude.{◌≡◌, ◌==◌, ◌≤◌, ◌<◌, length, drop, false, IsTrue, IfOk, OnOk, OnErr, slice_get, option_map, vec_capacity};
ghost use Rattle.dd_geom.specs.Rect.{IsSize};
ghost use Rattle.dd_log.specs.declared.events.TheConstants.{MAX_ACTORS, MAX_CAPACITY};
ghost use Rattle.dd_log.specs.Desk.{desk_of};
ghost use Rattle.dd_log.specs.History.{legal};

mod telling;

use crate::causes::check_event;
use crate::desk::Desk;
use crate::events::{Entry, Event, MAX_CAPACITY, Spec};
use crate::refusal::LogRefusal;
use std::alloc::{AllocError, Global};
use std::marker::Model;

/// The one list of an output's events: legal, with memory taken for all of its entries.
#[derive(Debug, Drop)]
pub struct Log {
    spec: Spec,
    entries: Vec<Entry>,
    desk: Desk,
}

impl Model for Log {
    ghost use Rattle.dd_log.specs.History.{History};

    ghost Value = { History };

    ghost use Rattle.dd_log.specs.Log.{history, IsKept};

    ghost view = { history };

    ghost invariant = { IsKept };
}

/// Equal entries, with memory for as many as `room`.
fn copies(alloc: Global, entries: &[Entry], room: usize) -> Result<Vec<Entry>, AllocError>
    requires { length entries.now ≤ room }
    ensures { IfOk result (λ v. (v.items ≡ entries.now) × (room ≤ vec_capacity v)) }
{
    let mut items = Vec::with_capacity(alloc, room)?;
    for entry in entries {
        items.push_reserved(entry.copy()?);
    }
    Ok(items)
}

/// The desk that the entries of a legal list make.
fn desk_after(spec: &Spec, entries: &[Entry]) -> Desk
    requires legal { IsTrue (legal (record { spec = spec.now; entries = entries.now })) }
    requires some { 1 ≤ spec.now.capacity }
    requires few { spec.now.capacity ≤ MAX_CAPACITY }
    ensures value { result ≡ desk_of spec.now.modes entries.now }
    ensures size { IsSize result.mode.width result.mode.height }
{
    let mut desk = Desk::first(&spec.modes);
    for entry in entries {
        desk.follow(&spec.modes, entry);
    }
    desk
}

impl Log {
    ghost use Rattle.dd_log.specs.Desk.{finds_slot};
    ghost use Rattle.dd_log.specs.History.{begun, first_entries, with_entry, ended_by, desk, desk_mode, may_add, refusal, verdict, is_end, is_full, last_step, entries_fit, any_begins};

    /// An empty list, with memory for all entries that it may ever have.
    pub fn start(alloc: Global, spec: Spec) -> Result<Log, AllocError>
        requires some { 1 ≤ spec.capacity }
        requires few { spec.capacity ≤ MAX_CAPACITY }
        ensures { IfOk result (λ log. log ≡ begun spec) }
    {
        let entries = Vec::with_capacity(alloc, spec.capacity as usize)?;
        let desk = Desk::first(&spec.modes);
        Ok(Log {
            spec,
            entries,
            desk,
        })
    }

    /// An equal list, with memory of its own for all entries that it may ever have.
    pub fn copy(&self) -> Result<Log, AllocError>
        ensures { IfOk result (λ log. log ≡ self.now) }
    {
        let spec = self.spec.copy()?;
        let room = self.spec.capacity as usize;
        let entries = copies(*self.entries.allocator(), self.entries.as_slice(), room)?;
        Ok(Log {
            spec,
            entries,
            desk: self.desk,
        })
    }

    /// Adds an entry that the list may have, on the memory that is there.
    pub fn add(&mut self, entry: Entry)
        requires { IsTrue (may_add self.old entry) }
        ensures { self.new ≡ with_entry self.old entry }
    {
        self.desk.follow(&self.spec.modes, &entry);
        self.entries.push_reserved(entry);
    }

    /// The first cause why an event wouldn't be appended. It takes no memory.
    pub fn allows(&self, event: &Event) -> Result<(), LogRefusal>
        ensures { result ≡ verdict (refusal self.now event.now) }
    {
        if self.desk.ended {
            return Err(LogRefusal::Ended);
        }
        if self.full() && !event.is_end() {
            return Err(LogRefusal::Full);
        }
        check_event(&self.spec.modes, self.desk.mode, event)
    }

    /// Appends a drawing, an opening or a closing, or says the first cause why not. It takes no
    /// memory.
    pub fn append(&mut self, entry: Entry) -> Result<(), LogRefusal>
        requires kind { is_end entry.event ≡ false }
        requires actor { entry.actor < MAX_ACTORS }
        requires step { last_step self.old.entries entry.actor < entry.step }
        requires slot { IsTrue (finds_slot (desk self.old).slots entry.event) }
        ensures answer { result ≡ verdict (refusal self.old entry.event) }
        ensures ok { OnOk result (self.new ≡ with_entry self.old entry) }
        ensures err { OnErr result (self.new ≡ self.old) }
    {
        self.allows(&entry.event)?;
        self.add(entry);
        Ok(())
    }

    /// Ends the list, in the place that is kept for it; an ended list stays as it is. It takes no
    /// memory.
    pub fn end(&mut self, actor: u32, step: u32)
        requires actor { actor < MAX_ACTORS }
        requires step { (desk self.old).ended ≡ false → last_step self.old.entries actor < step }
        ensures { self.new ≡ ended_by self.old actor step }
    {
        if !self.desk.ended {
            self.add(Entry {
                actor,
                step,
                event: Event::End,
            });
        }
    }

    /// Keeps the first `place` entries, or all where there are no more. It takes no memory.
    pub fn cut(&mut self, place: u64)
        ensures { self.new ≡ first_entries place self.old }
    {
        self.entries.truncate(place as usize);
        self.desk = desk_after(&self.spec, self.entries.as_slice());
    }

    /// The number of entries.
    pub fn len(&self) -> u64
        ensures len { result ≡ length self.now.entries }
        ensures legal { IsTrue (legal self.now) }
        ensures within { length self.now.entries ≤ self.now.spec.capacity }
        ensures capacity { self.now.spec.capacity ≤ MAX_CAPACITY }
        ensures few { length self.now.entries ≤ MAX_CAPACITY }
    {
        self.entries.len() as u64
    }

    pub fn is_empty(&self) -> bool
        ensures { result ≡ (length self.now.entries == 0) }
    {
        self.entries.is_empty()
    }

    /// Whether no place is left but the one kept for the list's end.
    pub fn full(&self) -> bool
        ensures { result ≡ is_full self.now }
    {
        self.spec.capacity as usize <= self.entries.len() + 1
    }

    /// The entry with so many entries before it.
    pub fn get(&self, place: u64) -> Option<&Entry>
        ensures { option_map (λ e. e.now) result ≡ slice_get self.now.entries place }
    {
        self.entries.get(place as usize)
    }

    /// The entries from a place on.
    pub fn after(&self, place: u64) -> &[Entry]
        requires { place ≤ length self.now.entries }
        ensures value { result.now ≡ drop place self.now.entries }
        ensures fit { any_begins result.now ≡ false
            → IsTrue (entries_fit (desk_mode self.now).width (desk_mode self.now).height result.now) }
        ensures legal { IsTrue (legal self.now) }
        ensures few { length self.now.entries ≤ MAX_CAPACITY }
    {
        let (_, after) = self.entries.as_slice().split_at(place as usize);
        after
    }
}
