//! Points, rectangles and moves, in whole pixels from the top left corner of the surface.

ghost use Rattle.std.specs.Prelude.{◌≡◌, ◌+ℤ◌, ◌-ℤ◌, ◌&&◌, int_le, int_lt, IfSome, IfNone, IsSome, ◌↔◌};
ghost use Rattle.dd_geom.specs.Rect.{covers, spans_inside, is_inside, place, sides, shifted, FitsSides, points, source_rect, is_move_inside};
ghost use Rattle.dd_geom.specs.Rect.{HasPoints, CoversBoth, AreApart, HasIsCovers, meet_of};

/// The longest side of a mode, in pixels.
pub const MAX_SIDE: u32 = 8192;

/// The most pixels of a mode.
pub const MAX_PIXELS: u32 = 16_777_216;

/// The bytes of a rectangle among a frame's metadata (the API's RECT).
pub const RECT_BYTES: u32 = 16;

/// The bytes of a move among a frame's metadata (the API's DXGI_OUTDUPL_MOVE_RECT).
pub const MOVE_BYTES: u32 = 24;

/// A point: `x` to the right, `y` downward (the API's POINT).
#[derive(Clone, Copy, Debug, Default, PartialEq, Eq, Hash)]
pub struct Point {
    pub x: i32,
    pub y: i32,
}

/// A rectangle, whose right and bottom sides are exclusive (the API's RECT).
#[derive(Clone, Copy, Debug, Default, PartialEq, Eq, Hash)]
pub struct Rect {
    pub left: i32,
    pub top: i32,
    pub right: i32,
    pub bottom: i32,
}

/// A copy of the rectangle of the same size at `source` to `dest`
/// (the API's DXGI_OUTDUPL_MOVE_RECT).
#[derive(Clone, Copy, Debug, Default, PartialEq, Eq, Hash)]
pub struct Move {
    pub source: Point,
    pub dest: Rect,
}

/// The sides of a rectangle that lies inside a surface, as indices of columns and rows.
#[derive(Clone, Copy, Debug, PartialEq, Eq)]
pub struct Sides {
    pub left: usize,
    pub top: usize,
    pub right: usize,
    pub bottom: usize,
}

/// Whether a span has a place: `from` is the first, and `to` the one after the last.
fn span_has(from: i32, to: i32, at: i32) -> bool
    ensures { result ≡ (int_le from at && int_lt at to) }
{
    from <= at && at < to
}

/// Whether the point is one of the rectangle's.
pub fn contains(r: Rect, p: Point) -> bool
    ensures { result ≡ covers r p.x p.y }
{
    span_has(r.left, r.right, p.x) && span_has(r.top, r.bottom, p.y)
}

/// The later first sides and the earlier last sides of two rectangles.
fn meet(a: Rect, b: Rect) -> Rect
    ensures { result ≡ meet_of a b }
{
    Rect {
        left: a.left.max(b.left),
        top: a.top.max(b.top),
        right: a.right.min(b.right),
        bottom: a.bottom.min(b.bottom),
    }
}

/// Whether the rectangle has at least one point.
fn has_points(r: Rect) -> bool
    ensures { result ≡ (int_lt r.left r.right && int_lt r.top r.bottom) }
{
    r.left < r.right && r.top < r.bottom
}

/// The points that two rectangles share, as a rectangle; `None` where they share none.
pub fn intersect(a: Rect, b: Rect) -> Option<Rect>
    ensures common { IfSome result (λ r. CoversBoth r a b) }
    ensures some { IfSome result HasPoints }
    ensures none { IfNone result (AreApart a b) }
{
    let r = meet(a, b);
    if has_points(r) { Some(r) } else { None }
}

/// Whether a span of `length` places has all of the places `from` to `to - 1`, and at least one.
fn spans(from: i32, to: i32, length: u32) -> bool
    ensures { result ≡ spans_inside from to length }
{
    from >= 0 && from < to && i64::from(to) <= i64::from(length)
}

/// Whether the rectangle lies inside a surface of this size: at least one point, and each of its
/// points on the surface. Every size is good, also one past the limits of a mode.
pub fn rect_inside(r: Rect, w: u32, h: u32) -> bool
    ensures { result ≡ is_inside r w h }
{
    spans(r.left, r.right, w) && spans(r.top, r.bottom, h)
}

/// The rectangle `dx` columns further right and `dy` rows further down; `None` exactly where one of
/// its sides would not be an `i32`.
pub fn shift(r: Rect, dx: i32, dy: i32) -> Option<Rect>
    ensures some { IfSome result (λ s. s ≡ shifted r dx dy) }
    ensures variant { IsSome result ↔ FitsSides (shifted r dx dy) }
{
    Some(Rect {
        left: r.left.checked_add(dx)?,
        top: r.top.checked_add(dy)?,
        right: r.right.checked_add(dx)?,
        bottom: r.bottom.checked_add(dy)?,
    })
}

/// The place after the last of those from `at` on, as many as there are from `from` to `to - 1`.
fn source_end(at: i32, from: i32, to: i32) -> i64
    ensures { result ≡ at +ℤ (to -ℤ from) }
{
    i64::from(at) + (i64::from(to) - i64::from(from))
}

/// Whether the places from `at` on, as many as there are from `from` to `to - 1`, are some, and all
/// among the first `length`.
fn source_spans(at: i32, from: i32, to: i32, length: u32) -> bool
    ensures { result ≡ spans_inside at (at +ℤ (to -ℤ from)) length }
{
    let end = source_end(at, from, to);
    at >= 0 && i64::from(at) < end && end <= i64::from(length)
}

/// Whether the rectangle that a move copies from lies inside a surface of this size.
fn source_inside(m: Move, w: u32, h: u32) -> bool
    ensures { result ≡ is_inside (source_rect m) w h }
{
    source_spans(m.source.x, m.dest.left, m.dest.right, w)
        && source_spans(m.source.y, m.dest.top, m.dest.bottom, h)
}

/// Whether the move lies inside a surface of this size: its destination does, and the rectangle of
/// the same size at its source point too.
pub fn move_inside(m: Move, w: u32, h: u32) -> bool
    ensures { result ≡ is_move_inside m w h }
{
    rect_inside(m.dest, w, h) && source_inside(m, w, h)
}

/// How many points lie between the sides of a rectangle; of one that lies inside a surface, exactly
/// its points.
pub fn point_count(r: Rect) -> usize
    ensures { result ≡ points r }
{
    let sides = sides_of(r);
    sides.right.saturating_sub(sides.left) * sides.bottom.saturating_sub(sides.top)
}

/// The sides of a rectangle, as indices: of one that lies inside, exactly its sides.
pub fn sides_of(r: Rect) -> Sides
    ensures { result ≡ sides r }
{
    Sides {
        left: index_of(r.left),
        top: index_of(r.top),
        right: index_of(r.right),
        bottom: index_of(r.bottom),
    }
}

/// A coordinate as an index, 0 where it is negative.
pub(crate) fn index_of(coordinate: i32) -> usize
    ensures { result ≡ place coordinate }
{
    if coordinate < 0 {
        0
    } else {
        coordinate as usize
    }
}

/// On a surface, the points between the sides of a rectangle are exactly its own.
pub fn has_is_covers()
    ensures { HasIsCovers }
{}
