//! The one place where a reader enters.

ghost use Rattle.std.specs.Prelude.{◌≡◌, MatchResult};
ghost use mathlib.Core.List.{IsPrefix};
ghost use Rattle.dd_board.specs.Lists.{listed};
ghost use Rattle.dd_board.specs.Looking.{one_refused};

use crate::named::Named;
use crate::published::Published;
use crate::told::Told;
use crossbeam_utils::rule::Unruled;
use dd_log::Log;
use left_right::reader::{Reader, Reading};
use std::marker::Model;

/// A reader of the board, outside, and how often it wasn't let in. Contracts see that count.
#[derive(Drop)]
pub struct Door<L: Named> {
    reader: Reader<Published<L>, (), Unruled>,
    refusals: u64,
}

impl<L: Named> Model for Door<L> {
    ghost use Rattle.std.specs.Prelude.{ℕ};

    ghost Value = { ℕ };

    ghost view = { λ d. d.refusals };
}

/// A reader inside. Contracts see the count, and the list that it found.
pub struct Inside<L: Named> {
    reading: Reading<Published<L>, (), Unruled>,
    refusals: u64,
}

impl<L: Named> Model for Inside<L> {
    ghost use Rattle.std.specs.Prelude.{ℕ, List};
    ghost use Rattle.dd_log.specs.declared.events.Entry.{Entry};

    ghost Value = { ℕ × List Entry };

    ghost view = { λ i. (i.refusals, i.reading.part.value.told) };
}

impl<L: Named> Door<L> {
    pub(crate) fn new(reader: Reader<Published<L>, (), Unruled>) -> Door<L>
        ensures { result ≡ 0 }
    {
        Door {
            reader,
            refusals: 0,
        }
    }

    /// How often it wasn't let in.
    pub(crate) fn refusals(&self) -> u64
        ensures { result ≡ self.now }
    {
        self.refusals
    }

    /// Outside, and not let in once more.
    fn refused(self) -> Door<L>
        ensures { result ≡ one_refused self }
    {
        let Door { reader, refusals } = self;
        Door {
            reader,
            refusals: refusals.saturating_add(1),
        }
    }

    /// Enters, and finds a list that begins with the one that was seen. It waits for nobody.
    ///
    /// It isn't let in where the board is gone, or where its list is shorter than the one that was
    /// seen, which in truth it never is; that is counted.
    pub(crate) fn enter(self, seen: &Told<L>) -> Result<Inside<L>, Door<L>>
        ensures { MatchResult result
            (λ i. (i.0 ≡ self) × IsPrefix seen.now i.1) (λ d. d ≡ one_refused self) }
    {
        let Door { reader, refusals } = self;
        match reader.enter_as::<Unruled>() {
            Err(reader) => Err(Door { reader, refusals }.refused()),
            Ok(reading) => {
                let inside = Inside { reading, refusals };
                if inside.told().covers(seen) {
                    Ok(inside)
                } else {
                    Err(inside.leave().refused())
                }
            }
        }
    }
}

impl<L: Named> Inside<L> {
    /// The list that was found.
    pub(crate) fn told(&self) -> &Told<L>
        ensures { result.now ≡ self.now.1 }
    {
        &self.reading.get().told
    }

    /// The same, as a list of events.
    pub(crate) fn log(&self) -> &Log
        ensures { result.now ≡ listed L.spec self.now.1 }
    {
        &self.reading.get().log
    }

    /// Leaves, so that the writer can go on.
    pub(crate) fn leave(self) -> Door<L>
        ensures { result ≡ self.0 }
    {
        let Inside { reading, refusals } = self;
        Door {
            reader: reading.leave(),
            refusals,
        }
    }
}
