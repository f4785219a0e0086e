//! Beginnings of the one list, which nobody can make up.

ghost use Rattle.std.specs.Prelude.{◌≡◌, ◌+◌, ◌==◌, ◌<◌, ◌≤◌, ◌++◌, ◌∷◌, [], length, List, nat_le, IsTrue, IfSome};
ghost use mathlib.Core.List.{IsPrefix};
ghost use Rattle.dd_log.specs.declared.events.Entry.{Entry};
ghost use Rattle.dd_log.specs.declared.events.TheConstants.{MAX_ACTORS, MAX_CAPACITY};
ghost use Rattle.dd_log.specs.History.{legal, may_add};
ghost use Rattle.dd_board.specs.Lists.{listed, is_seated, all_seated, longer};
ghost use Rattle.dd_board.specs.Rules.{head_of};

use crate::named::Named;
use dd_log::Entry;
use logbook::{Gain, Offer, Plain, Play, Rule, Seen, Word};
use std::marker::{Model, PhantomData};

/// The law of the book that keeps the one list.
pub struct Law;

impl Rule<Entry, u64> for Law {
    ghost use Rattle.std.specs.Prelude.{[]};
    ghost use base.Fml.{ftrue};
    ghost use Rattle.dd_board.specs.Rules.{IsKept};

    ghost holds = { λ cells log. IsKept cells log };

    ghost first = { [] };

    ghost hinted = { λ n log. Unit {0} };

    ghost shows = { λ log. [] };

    ghost keeps = { λ names log. ftrue };

    ghost moves = { λ ask before after answer. Unit {0} };
}

/// Callers trade nothing.
struct Nothing;

impl Gain<Entry, u64> for Nothing {
    ghost use base.Fml.{ftrue};

    ghost after = { λ names about answer. ftrue };
}

/// The step that adds an entry.
struct Add;

impl Play<Entry, u64> for Add {
    ghost use Rattle.dd_board.specs.Rules.{Adds};

    ghost then = { Adds };
}

impl Plain<Entry, Entry, u64> for Add {
    ghost use Rattle.std.specs.Prelude.{None};

    ghost ask = { λ entry. entry };

    ghost state = { λ entry. None };
}

/// The length of the one list. Who has it may make the list longer.
#[derive(Drop)]
pub struct Head<L: Named> {
    pub(crate) word: Word<Entry, u64, Law>,
    pub(crate) of: PhantomData<L>,
    ghost word_is: { word ≡ head_of L.book },
}

/// A beginning of the one list, as someone saw it or was told of it. Contracts see its entries.
///
/// It is legal, and each entry names a seat of the board, but the end, which names the number after
/// the last seat. Of two of one board one begins the other.
#[derive(Drop)]
pub struct Told<L: Named> {
    len: u64,
    seen: Seen<Entry, u64, Law>,
    of: PhantomData<L>,
}

impl<L: Named> Model for Told<L> {
    ghost use Rattle.std.specs.Prelude.{◌≡◌, List, length};
    ghost use Rattle.dd_log.specs.declared.events.Entry.{Entry};
    ghost use Rattle.dd_board.specs.Lists.{IsListed};

    ghost Value = { List Entry };

    ghost view = { λ t. t.seen.log };

    ghost invariant = { λ t. (t.len ≡ length t.seen.log) × (t.seen.book ≡ L.book)
        × IsListed L.spec L.parts t.seen.log };
}

impl<L: Named> Told<L> {
    /// How many entries it has.
    pub fn front(&self) -> u64
        ensures length { result ≡ length self.now }
        ensures few { length self.now ≤ MAX_CAPACITY }
        ensures legal { IsTrue (legal (listed L.spec self.now)) }
        ensures seated { IsTrue (all_seated L.parts self.now) }
        ensures seats { L.parts < MAX_ACTORS }
    {
        self.len
    }

    /// The empty list.
    pub(crate) fn first(seen: Seen<Entry, u64, Law>) -> Told<L>
        requires log { seen.log ≡ [] }
        requires book { seen.book ≡ L.book }
        requires some { 1 ≤ L.spec.capacity }
        requires few { L.spec.capacity ≤ MAX_CAPACITY }
        requires seats { L.parts < MAX_ACTORS }
        ensures { result ≡ [] }
    {
        Told {
            len: 0,
            seen,
            of: PhantomData,
        }
    }

    /// An equal one.
    pub fn again(&self) -> Told<L>
        ensures same { result ≡ self.now }
    {
        Told {
            len: self.len,
            seen: self.seen.again(),
            of: PhantomData,
        }
    }

    /// Both begin one list, so the shorter one begins the longer.
    fn meet(&self, other: &Told<L>)
        ensures this { length self.now ≤ length other.now → IsPrefix self.now other.now }
        ensures that { length other.now ≤ length self.now → IsPrefix other.now self.now }
        ensures same { length self.now ≡ length other.now → self.now ≡ other.now }
    {
        let mut both = self.seen.again();
        both.learn(&other.seen);
    }

    /// Whether it is at least as long as another one, which then begins it.
    pub(crate) fn covers(&self, other: &Told<L>) -> bool
        ensures value { result ≡ nat_le (length other.now) (length self.now) }
        ensures begins { IsTrue result → IsPrefix other.now self.now }
    {
        self.meet(other);
        other.len <= self.len
    }

    /// Whether it is as long as another one, and then the same.
    pub(crate) fn is(&self, other: &Told<L>) -> bool
        ensures value { result ≡ (length self.now == length other.now) }
        ensures same { IsTrue result → self.now ≡ other.now }
    {
        self.meet(other);
        self.len == other.len
    }

    /// Whether it has one entry more than another one, which then begins it.
    pub(crate) fn follows(&self, before: &Told<L>) -> bool
        ensures value { result ≡ (length self.now == length before.now + 1) }
        ensures begins { IsTrue result → IsPrefix before.now self.now }
        ensures legal { IsTrue (legal (listed L.spec self.now)) }
    {
        self.meet(before);
        self.len == before.len + 1
    }

    /// The longer of two, which the other begins.
    pub(crate) fn longer(&self, other: &Told<L>) -> Told<L>
        ensures value { result ≡ longer self.now other.now }
        ensures this { IsPrefix self.now result }
        ensures that { IsPrefix other.now result }
    {
        self.meet(other);
        if self.len < other.len {
            other.again()
        } else {
            self.again()
        }
    }

    /// The list with an entry more, which it then has; none where the list is longer already.
    pub(crate) fn extended(&self, head: &Head<L>, entry: &Entry) -> Option<Told<L>>
        requires may { IsTrue (may_add (listed L.spec self.now) entry.now) }
        requires seat { IsTrue (is_seated L.parts entry.now) }
        ensures { IfSome result (λ t. t ≡ self.now ++ entry.now ∷ []) }
    {
        let mut seen = self.seen.again();
        let mut offer: Offer<Entry, u64, Law, Nothing> = seen.plain::<Nothing, Entry, Add>(entry);
        let mut pen = seen.no_pen();
        let len = self.len;
        let found = head
            .word
            .compare_exchange::<Add, Nothing>(len, len + 1, &mut seen, &mut offer, &mut pen);
        if found == len {
            Some(Told {
                len: len + 1,
                seen,
                of: PhantomData,
            })
        } else {
            None
        }
    }
}
