//! The moves and the dirty rectangles of a frame.

ghost use Rattle.std.specs.Prelude.{◌≡◌, ◌≤◌, ◌^◌, IfOk, IsTrue};
ghost use Rattle.dd_geom.specs.Rect.{IsSize};
ghost use Rattle.dd_record.specs.Answers.{Gives};
ghost use Rattle.dd_record.specs.Dirt.{are_inside, covered_by, is_canonical, pixel_count};
ghost use Rattle.dd_record.specs.Grammar.{move_at, moves_of, rect_at, rects_of, dirt_of};

use crate::fault::Stop;
use crate::fields::{come, kept};
use dd_bits::Area;
use dd_geom::{
    MOVE_BYTES, Move, Moves, RECT_BYTES, Rect, Rects, move_inside, move_of, point_count,
    rect_inside, rect_of,
};
use dd_modes::Mode;
use dd_region::Bands;
use std::alloc::{AllocError, Global};

/// The move at a place.
#[tactic(auto, unfolding(crate::specs::Grammar::move_at))]
fn move_at(mode: Mode, bytes: &[u8], at: usize) -> Result<Move, Stop>
    ensures { Gives result (move_at mode bytes.now at) }
{
    let field: [u8; 24] = come(bytes, at)?;
    let mv = move_of(&field);
    kept(at, move_inside(mv, mode.width, mode.height), mv)
}

/// The rectangle at a place.
#[tactic(auto, unfolding(crate::specs::Grammar::rect_at))]
fn rect_at(mode: Mode, bytes: &[u8], at: usize) -> Result<Rect, Stop>
    ensures { Gives result (rect_at mode bytes.now at) }
{
    let field: [u8; 16] = come(bytes, at)?;
    let rect = rect_of(&field);
    kept(at, rect_inside(rect, mode.width, mode.height), rect)
}

/// So many moves from a place on.
#[tactic(auto, using(crate::proofs::OneByOne::one_by_one))]
pub(crate) fn moves_of(
    alloc: Global,
    mode: Mode,
    count: u8,
    bytes: &[u8],
    at: usize,
) -> Result<Moves, Stop>
    requires { at ≤ 2 ^ 40 }
    ensures { Gives result (moves_of mode count bytes.now at) }
{
    let count = usize::from(count);
    let mut moves = Vec::with_capacity(alloc, count)?;
    for i in 0..count {
        let mv = move_at(mode, bytes, at + MOVE_BYTES as usize * i)?;
        moves.push(mv)?;
    }
    Ok(Moves::from_vec(moves))
}

/// So many rectangles from a place on.
#[tactic(auto, using(crate::proofs::OneByOne::one_by_one))]
fn rects_of(alloc: Global, mode: Mode, count: u8, bytes: &[u8], at: usize) -> Result<Rects, Stop>
    requires { at ≤ 2 ^ 40 }
    ensures { Gives result (rects_of mode count bytes.now at) }
{
    let count = usize::from(count);
    let mut rects = Vec::with_capacity(alloc, count)?;
    for i in 0..count {
        let rect = rect_at(mode, bytes, at + RECT_BYTES as usize * i)?;
        rects.push(rect)?;
    }
    Ok(Rects::from_vec(rects))
}

/// The points that lie in one of the rectangles.
fn area_of(alloc: Global, mode: Mode, rects: &[Rect]) -> Result<Bands, AllocError>
    requires size { IsSize mode.width mode.height }
    requires inside { IsTrue (are_inside mode rects.now) }
    ensures { IfOk result (λ area. area ≡ covered_by mode.width mode.height rects.now) }
{
    let mut area = Bands::empty(alloc, mode.width, mode.height)?;
    for rect in rects {
        area.add(*rect)?;
    }
    Ok(area)
}

/// Whether the rectangles are the canonical list of their points.
#[tactic(auto, unfolding(crate::specs::Dirt::is_canonical))]
fn is_canonical(alloc: Global, mode: Mode, rects: &[Rect]) -> Result<bool, AllocError>
    requires size { IsSize mode.width mode.height }
    requires inside { IsTrue (are_inside mode rects.now) }
    ensures { IfOk result (λ canonical. canonical ≡ is_canonical mode.width mode.height rects.now) }
{
    let area = area_of(alloc, mode, rects)?;
    let list = area.list()?;
    Ok(rects == list.as_slice())
}

/// So many rectangles from a place on, which are the canonical list of their points.
#[tactic(auto, unfolding(crate::specs::Grammar::dirt_of), using(crate::proofs::Rules::rects_inside))]
pub(crate) fn dirt_of(
    alloc: Global,
    mode: Mode,
    count: u8,
    bytes: &[u8],
    at: usize,
) -> Result<Rects, Stop>
    requires size { IsSize mode.width mode.height }
    requires place { at ≤ 2 ^ 40 }
    ensures { Gives result (dirt_of mode count bytes.now at) }
{
    let rects = rects_of(alloc, mode, count, bytes, at)?;
    let canonical = is_canonical(alloc, mode, rects.as_slice())?;
    kept(at, canonical, rects)
}

/// How many points the rectangles have.
pub(crate) fn pixel_count(rects: &[Rect]) -> usize
    requires { pixel_count rects.now ≤ 2 ^ 32 }
    ensures { result ≡ pixel_count rects.now }
{
    rects.iter().map(|rect| point_count(*rect)).sum()
}
