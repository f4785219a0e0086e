//! The making of a board, which has no name at first.

ghost use Rattle.std.specs.Prelude.{◌≡◌, ◌≤◌, length, IfOk};
ghost use Rattle.dd_log.specs.declared.events.TheConstants.{MAX_CAPACITY};
ghost use Rattle.dd_board.specs.Boards.{seats_from};
ghost use Rattle.dd_board.specs.declared.board.TheConstants.{MAX_SEATS};

use crate::board::{Board, BoardOf, seats_of};
use crate::named::Named;
use crate::painter::PainterOf;
use crate::press::PressOf;
use crate::published::{Op, Published};
use crate::screen::ScreenOf;
use crate::told::{Head, Law, Told};
use dd_calls::Role;
use dd_log::{Entry, Log, Spec};
use left_right::writer::Writer;
use logbook::{Seen, Start, Word};
use std::alloc::{AllocError, Global};
use std::marker::{Brand, Model, PhantomData};
use std::sync::Wait;
use std::sync::ledger::Blank;

/// The parts of a board that has no name yet. Contracts see its plan.
#[derive(Drop)]
pub struct Unnamed {
    word: Word<Entry, u64, Law>,
    seen: Seen<Entry, u64, Law>,
    first: Log,
    second: Log,
    roles: Vec<Role>,
    blank: Blank,
}

impl Model for Unnamed {
    ghost use Rattle.dd_board.specs.Unnamed.{Plan, plan, IsBlank};

    ghost Value = { Plan };

    ghost view = { plan };

    ghost invariant = { IsBlank };
}

impl Board<Brand> {
    /// The parts of a board that is begun with a spec, and has a seat for each role. It has no name
    /// yet. The ledger is the one of a blank that has a part for each seat.
    pub fn start<R: Wait>(
        _rt: &R,
        alloc: Global,
        blank: Blank,
        spec: Spec,
        roles: &[Role],
    ) -> Result<Unnamed, AllocError>
        requires some { 1 ≤ spec.capacity }
        requires few { spec.capacity ≤ MAX_CAPACITY }
        requires seat { 1 ≤ length roles.now }
        requires seats { length roles.now ≤ MAX_SEATS }
        requires parts { blank.parts ≡ length roles.now }
        ensures spec { IfOk result (λ u. u.spec ≡ spec) }
        ensures roles { IfOk result (λ u. u.roles ≡ roles.now) }
        ensures ledger { IfOk result (λ u. u.ledger ≡ blank.name) }
        ensures parts { IfOk result (λ u. u.parts ≡ blank.parts) }
    {
        let first = Log::start(alloc, spec)?;
        let second = first.copy()?;
        let roles = Vec::from_slice(alloc, roles)?;
        let (seen, mut pen, _second) = Seen::open(Start::alone(), 0, 0);
        Ok(Unnamed {
            word: Word::tracked(0, &mut pen),
            seen,
            first,
            second,
            roles,
            blank,
        })
    }
}

impl Unnamed {
    /// The board under a name, with fresh seats.
    pub fn named<R: Wait, L: Named>(self, rt: &R) -> Result<Board<L>, AllocError>
        requires ledger { self.ledger ≡ L.name }
        requires parts { self.parts ≡ L.parts }
        requires book { self.book ≡ L.book }
        requires spec { self.spec ≡ L.spec }
        ensures fresh { IfOk result (λ board. board.seats.items ≡ seats_from 0 self.roles) }
        ensures all { IfOk result (λ board. length board.seats.items ≡ L.parts) }
        ensures some { IfOk result (λ board. 1 ≤ length board.seats.items) }
    {
        let Unnamed {
            word,
            seen,
            first,
            second,
            roles,
            blank,
        } = self;
        let alloc = *roles.allocator();
        let (book, share) = blank.open::<L>();
        let told = Told::first(seen);
        let head = Head {
            word,
            of: PhantomData,
        };
        let first = Published {
            log: first,
            told: told.again(),
        };
        let second = Published {
            log: second,
            told: told.again(),
        };
        let writer = Writer::new(alloc, first, second, roles.len())?;
        let press = PressOf { writer, head };
        let press = press.hand(rt, Op::idle()).show(rt, &told);
        let press = press.hand(rt, Op::idle()).show(rt, &told);
        match seats_of(rt, alloc, &press, roles.as_slice(), share, &told) {
            Ok(seats) => Ok(BoardOf {
                screen: ScreenOf::new(PainterOf { press, book }, roles.len() as u32),
                seats,
            }),
            Err(error) => {
                press.finish(rt);
                Err(error)
            }
        }
    }
}
