//! A set of points rounded until its list is short enough.

ghost use Rattle.std.specs.Prelude.{◌≡◌, ◌≤◌, ◌&&◌, length, nat_lt, IfOk, OnOk};
ghost use Rattle.dd_bits.specs.CanonicalList.{canonical_list};
ghost use Rattle.dd_coal.specs.Power.{power, rounded_to};

use dd_bits::Area;
use dd_geom::Rects;
use std::alloc::AllocError;

/// The most rectangles of a list.
pub const MAX_RECTS: usize = 64;

/// The greatest power that is ever needed: tiles of side 8192 cover every surface.
pub const MAX_POWER: u32 = 13;

/// A set rounded to tiles of side 2^power, and its list of at most 64 rectangles.
#[derive(Drop)]
pub struct Coalesced<A: Area> {
    pub area: A,
    pub rects: Rects,
    pub power: u32,
}

/// Whether a greater power has to be tried: there is one, and there are more rectangles than a list
/// may have.
fn must_go_up(power: u32, rects: &Rects) -> bool
    ensures { result ≡ (nat_lt power MAX_POWER && nat_lt MAX_RECTS (length rects.now)) }
{
    power < MAX_POWER && rects.as_slice().len() > MAX_RECTS
}

/// Rounds a set to tiles of side 2^power.
fn round_by<A: Area>(area: &mut A, power: u32) -> Result<(), AllocError>
    requires { power ≤ MAX_POWER }
    ensures { OnOk result (A.points area.new ≡ rounded_to power (A.points area.old)) }
{
    area.tiles(2u32.pow(power))
}

/// Rounds a set by the least power, from 0, at which its list has at most 64 rectangles. The set is
/// given up where memory is wanting.
pub fn coalesce<A: Area>(area: A) -> Result<Coalesced<A>, AllocError>
    ensures power { IfOk result (λ c. c.power ≡ power (A.points area)) }
    ensures area { IfOk result (λ c. A.points c.area ≡ rounded_to (power (A.points area)) (A.points area)) }
    ensures rects { IfOk result (λ c. c.rects ≡ canonical_list (rounded_to (power (A.points area)) (A.points area))) }
    ensures few { IfOk result (λ c. length c.rects ≤ MAX_RECTS) }
{
    let mut area = area;
    let mut power = 0;
    let mut rects = area.list()?;
    while must_go_up(power, &rects) {
        power += 1;
        round_by(&mut area, power)?;
        rects = area.list()?;
    }
    Ok(Coalesced { area, rects, power })
}
