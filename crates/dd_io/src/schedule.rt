//! Which calls of a device in memory fail.
ghost use Rattle.std.specs.Prelude.{◌≡◌, ◌↔◌, ◌≤◌, Contains, IsTrue};
ghost use Rattle.dd_io.specs.Causes.{risen};

use crate::Numbers;

// The numbers of the calls that fail, counted from 1, and how many calls and faults there were.
#[derive(Debug, Drop)]
pub(crate) struct Schedule {
    fails: Numbers,
    calls: u64,
    faults: u64,
}

impl Schedule {
    pub(crate) fn new(fails: Numbers) -> Self
        ensures { result ≡ record { fails = fails; calls = 0; faults = 0 } }
    {
        Schedule {
            fails,
            calls: 0,
            faults: 0,
        }
    }

    // Counts a call, and says whether it fails by the list.
    pub(crate) fn next_fails(&mut self) -> bool
        ensures counts { self.new ≡ record self.old { calls = risen self.old.calls } }
        ensures listed { IsTrue result ↔ Contains self.old.fails (risen self.old.calls) }
    {
        self.calls = self.calls.saturating_add(1);
        self.fails.as_slice().contains(&self.calls)
    }

    // Counts a fault.
    pub(crate) fn fault(&mut self)
        ensures counts { self.new ≡ record self.old { faults = risen self.old.faults } }
        ensures later { self.old.faults ≤ self.new.faults }
    {
        self.faults = self.faults.saturating_add(1);
    }
}
