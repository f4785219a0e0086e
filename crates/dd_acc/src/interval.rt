//! What is accumulated over an interval: its moves, its dirt, whether that was rounded, and how many
//! presents it has.

ghost use Rattle.std.specs.Prelude.{◌≡◌, ◌+◌, ◌-◌, ◌^◌, ◌<◌, ◌++◌, length, IsTrue, IfOk, OnOk};
ghost use Rattle.dd_geom.specs.Rect.{IsSize, is_move_inside};
ghost use Rattle.dd_bits.specs.CanonicalList.{canonical_list};
ghost use Rattle.dd_coal.specs.declared.coalescing.TheConstants.{MAX_RECTS};
ghost use Rattle.dd_ops.specs.Operations.{fits, all_fit};
ghost use Rattle.dd_acc.specs.Effects.{scroll_effect, effect, effects, move_in, moves_in, dirtied, with_effect, IsWhole};
ghost use Rattle.dd_acc.specs.Interval.{nothing, with_present};

use crate::lists::{FrameMoves, FrameRects};
use dd_bits::Area;
use dd_coal::{Coalesced, coalesce};
use dd_geom::{Move, Rect};
use dd_ops::{Op, Ops};
use std::alloc::{AllocError, Global};
use std::marker::Model;

/// The most moves of a frame: the first scrolls of an interval are told as moves, and each later
/// one counts as a draw of its destination.
pub const MAX_MOVES: usize = 16;

/// What is accumulated over an interval. Contracts see the set of its dirty points, its moves,
/// whether a present had to be rounded, and the number of presents.
///
/// The dirty rectangles are always the canonical list of the set, and the set says of each point of
/// its surface whether it is dirty.
#[derive(Drop)]
pub struct Acc<A: Area> {
    area: A,
    dirt: FrameRects,
    moves: FrameMoves,
    coalesced: bool,
    frames: u32,
}

impl<A: Area> Model for Acc<A> {
    ghost use Rattle.std.specs.Prelude.{◌≡◌};
    ghost use Rattle.dd_bits.specs.CanonicalList.{canonical_list};
    ghost use Rattle.dd_acc.specs.Effects.{IsWhole};
    ghost use Rattle.dd_acc.specs.Interval.{Interval};

    ghost Value = { Interval };

    ghost view = { λ a.
        record { area = A.points a.area; moves = a.moves; coalesced = a.coalesced; frames = a.frames } };

    ghost invariant = { λ a. (a.dirt ≡ canonical_list (A.points a.area)) × IsWhole (A.points a.area) };
}

/// Adds a scroll: a move, or a draw of its destination.
fn add_scroll<A: Area>(area: &mut A, moves: &mut FrameMoves, mv: Move) -> Result<(), AllocError>
    requires { IsTrue (is_move_inside mv (A.points area.old).width (A.points area.old).height) }
    ensures area { OnOk result
        (A.points area.new ≡ with_effect (A.points area.old) (scroll_effect (length moves.old) mv)) }
    ensures moves { OnOk result (moves.new ≡ moves.old ++ move_in (scroll_effect (length moves.old) mv)) }
{
    if moves.as_slice().len() < MAX_MOVES {
        moves.push(mv);
        area.move_over(mv)
    } else {
        area.add(mv.dest)
    }
}

/// Adds what one operation does.
fn add_effect<A: Area>(area: &mut A, moves: &mut FrameMoves, op: &Op) -> Result<(), AllocError>
    requires { IsTrue (fits (A.points area.old).width (A.points area.old).height op.now) }
    ensures area { OnOk result
        (A.points area.new ≡ with_effect (A.points area.old) (effect (length moves.old) op.now)) }
    ensures moves { OnOk result (moves.new ≡ moves.old ++ move_in (effect (length moves.old) op.now)) }
{
    match op {
        Op::Fill { rect, .. } => area.add(*rect),
        Op::Blit { rect, .. } => area.add(*rect),
        Op::Cover { rect, .. } => area.add(*rect),
        Op::Scroll { mv } => add_scroll(area, moves, *mv),
    }
}

/// Adds what the operations do.
fn add_effects<A: Area>(area: &mut A, moves: &mut FrameMoves, ops: &[Op]) -> Result<(), AllocError>
    requires fit { IsTrue (all_fit (A.points area.old).width (A.points area.old).height ops.now) }
    requires whole { IsWhole (A.points area.old) }
    ensures area { OnOk result (A.points area.new ≡ dirtied (A.points area.old) (effects (length moves.old) ops.now)) }
    ensures moves { OnOk result (moves.new ≡ moves.old ++ moves_in (effects (length moves.old) ops.now)) }
{
    for op in ops {
        add_effect(area, moves, op)?;
    }
    Ok(())
}

impl<A: Area> Acc<A> {
    /// Nothing yet, of a surface of `w` by `h` points.
    pub fn start(alloc: Global, w: u32, h: u32) -> Result<Acc<A>, AllocError>
        requires { IsSize w h }
        ensures { IfOk result (λ acc. acc ≡ nothing w h) }
    {
        let area = A::empty(alloc, w, h)?;
        Ok(Acc {
            area,
            dirt: FrameRects::new(),
            moves: FrameMoves::new(),
            coalesced: false,
            frames: 0,
        })
    }

    /// Adds one present. What was accumulated is given up where memory is wanting.
    pub fn add(self, ops: &Ops) -> Result<Acc<A>, AllocError>
        requires fit { IsTrue (all_fit self.area.width self.area.height ops.now) }
        requires few { self.frames < 2 ^ 32 - 1 }
        ensures { IfOk result (λ acc. acc ≡ with_present self ops.now) }
    {
        let Acc {
            mut area,
            mut moves,
            coalesced,
            frames,
            ..
        } = self;
        add_effects(&mut area, &mut moves, ops.as_slice())?;
        let Coalesced { area, rects, power } = coalesce(area)?;
        Ok(Acc {
            area,
            dirt: FrameRects::from_slice(rects.as_slice()),
            moves,
            coalesced: coalesced || power > 0,
            frames: frames + 1,
        })
    }

    /// The moves: the first scrolls of the interval, at most 16.
    pub fn moves(&self) -> &[Move]
        ensures { result.now ≡ self.now.moves }
    {
        self.moves.as_slice()
    }

    /// The dirty rectangles, at most 64: the canonical list of the dirty points.
    pub fn dirt(&self) -> &[Rect]
        ensures { result.now ≡ canonical_list self.now.area }
    {
        self.dirt.as_slice()
    }

    /// The moves and the dirty rectangles, and no more than they.
    pub fn into_lists(self) -> (FrameMoves, FrameRects)
        ensures moves { result.0 ≡ self.moves }
        ensures dirt { result.1 ≡ canonical_list self.area }
    {
        let Acc { moves, dirt, .. } = self;
        (moves, dirt)
    }

    /// Whether the dirty points of some present had to be rounded.
    pub fn coalesced(&self) -> bool
        ensures { result ≡ self.now.coalesced }
    {
        self.coalesced
    }

    /// The number of presents.
    pub fn frames(&self) -> u32
        ensures { result ≡ self.now.frames }
    {
        self.frames
    }
}
