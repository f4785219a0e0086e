//! Where entries are published.

ghost use Rattle.std.specs.Prelude.{◌≡◌, ◌++◌, ◌∷◌, [], IsTrue};
ghost use Rattle.dd_log.specs.History.{may_add};
ghost use Rattle.dd_board.specs.Lists.{listed, is_seated};
ghost use Rattle.dd_board.specs.Press.{IsPrinted};

use crate::named::Named;
use crate::published::{Op, Published, Sheet};
use crate::told::{Head, Told};
use crossbeam_utils::rule::Unruled;
use dd_log::{Entry, Log};
use left_right::Absorb;
use left_right::reader::Reader;
use left_right::writer::Writer;
use std::marker::Model;
use std::sync::Wait;

/// The writer of the two copies of the list, and the length of the one list. Contracts see the
/// entries that are published.
pub struct PressOf<L: Named, T: Absorb<Op<L>, State = ()> + Sheet + Drop> {
    pub(crate) writer: Writer<T, Op<L>, (), Unruled>,
    pub(crate) head: Head<L>,
}

impl<L: Named, T: Absorb<Op<L>, State = ()> + Sheet + Drop> Model for PressOf<L, T> {
    ghost use Rattle.std.specs.Prelude.{List};
    ghost use Rattle.dd_log.specs.declared.events.Entry.{Entry};

    ghost Value = { List Entry };

    ghost view = { λ p. T.entries p.writer.desk.shown.value };
}

/// The press of a board.
pub type Press<L> = PressOf<L, Published<L>>;

/// How the publishing of an entry went.
#[derive(Drop)]
pub(crate) enum Printed<L: Named> {
    /// It is the last entry now.
    Made(Told<L>),
    NoMemory,
}

impl<L: Named> Press<L> {
    /// The list so far.
    pub(crate) fn told(&self) -> &Told<L>
        ensures { result.now ≡ self.now }
    {
        &self.writer.published().told
    }

    /// The same, as a list of events.
    pub(crate) fn log(&self) -> &Log
        ensures { result.now ≡ listed L.spec self.now }
    {
        &self.writer.published().log
    }

    /// A reader of what is published. In truth there is one at once.
    pub(crate) fn reader<R: Wait>(&self, rt: &R) -> Reader<Published<L>, (), Unruled> {
        for _ in rt.forever() {
            if let Ok(reader) = self.writer.factory().reader() {
                return reader;
            }
        }
        unreachable!()
    }

    /// Takes the writer apart. It takes no memory.
    pub(crate) fn finish<R: Wait>(self, rt: &R) {
        let PressOf {
            writer,
            head: _head,
        } = self;
        writer.take(rt);
    }

    /// Hands the writer an operation, which in truth it takes at once.
    pub(crate) fn hand<R: Wait>(self, rt: &R, op: Op<L>) -> Press<L>
        ensures { result ≡ self }
    {
        let PressOf { mut writer, head } = self;
        let mut op = op;
        for _ in rt.forever() {
            match writer.append(op) {
                Ok(()) => return PressOf { writer, head },
                Err(back) => op = back,
            }
        }
        unreachable!()
    }

    /// Publishes until this list is the one that readers find, which in truth it is at once.
    pub(crate) fn show<R: Wait>(self, rt: &R, told: &Told<L>) -> Press<L>
        ensures { result ≡ told.now }
    {
        let PressOf { mut writer, head } = self;
        for _ in rt.forever() {
            let (next, _published) = writer.publish_as::<Unruled, R>(rt);
            writer = next;
            if writer.published().told.is(told) {
                return PressOf { writer, head };
            }
        }
        unreachable!()
    }

    /// The list with an entry more, which in truth is had at once: nobody else makes the one list
    /// longer.
    fn lengthened<R: Wait>(&self, rt: &R, entry: &Entry) -> Told<L>
        requires may { IsTrue (may_add (listed L.spec self.now) entry.now) }
        requires seat { IsTrue (is_seated L.parts entry.now) }
        ensures { result ≡ self.now ++ entry.now ∷ [] }
    {
        for _ in rt.forever() {
            if let Some(told) = self.told().extended(&self.head, entry) {
                return told;
            }
        }
        unreachable!()
    }

    /// Publishes an entry. All memory is taken before the list is longer.
    pub(crate) fn print<R: Wait>(self, rt: &R, entry: &Entry) -> (Press<L>, Printed<L>)
        requires may { IsTrue (may_add (listed L.spec self) entry.now) }
        requires seat { IsTrue (is_seated L.parts entry.now) }
        ensures { IsPrinted result.1 self result.0 entry.now }
    {
        let Ok(first) = entry.copy() else {
            return (self, Printed::NoMemory);
        };
        let Ok(second) = entry.copy() else {
            return (self, Printed::NoMemory);
        };
        let told = self.lengthened(rt, entry);
        let press = self.hand(rt, Op::of(first, second, &told));
        (press.show(rt, &told), Printed::Made(told))
    }
}
