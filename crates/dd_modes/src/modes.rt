//! Modes, and the list of those that an output has.

ghost use Rattle.std.specs.Prelude.{◌≡◌, ◌↔◌, IsTrue, IfOk, IfSome, slice_get, if◌then◌else◌};
ghost use Rattle.dd_geom.specs.Rect.{IsSize};
ghost use Rattle.std.specs.List.{list_all};
ghost use Rattle.dd_modes.specs.Modes.{is_mode, are_modes};

use dd_geom::{MAX_PIXELS, MAX_SIDE};
use std::alloc::AllocError;
use std::marker::Model;

/// The most modes of an output.
pub const MAX_MODES: usize = 16;

/// How the picture is turned for the viewer (the API's DXGI_MODE_ROTATION, numbers 0 to 4).
#[derive(Clone, Copy, Debug, PartialEq, Eq, Hash)]
pub enum Rotation {
    Unspecified,
    Identity,
    Rotate90,
    Rotate180,
    Rotate270,
}

impl Rotation {
    ghost use Rattle.dd_modes.specs.Numbers.{rotation_number, rotation_numbered};

    /// The API's number of a rotation, 0 to 4.
    pub fn number(self) -> u32
        ensures { result ≡ rotation_number self }
    {
        match self {
            Rotation::Unspecified => 0,
            Rotation::Identity => 1,
            Rotation::Rotate90 => 2,
            Rotation::Rotate180 => 3,
            Rotation::Rotate270 => 4,
        }
    }

    /// The rotation of one of the API's numbers, 0 to 4.
    #[tactic(auto, unfolding(crate::specs::Numbers::rotation_numbered))]
    pub fn numbered(number: u32) -> Option<Rotation>
        ensures { result ≡ rotation_numbered number }
    {
        match number {
            0 => Some(Rotation::Unspecified),
            1 => Some(Rotation::Identity),
            2 => Some(Rotation::Rotate90),
            3 => Some(Rotation::Rotate180),
            4 => Some(Rotation::Rotate270),
            _ => None,
        }
    }
}

/// The size of a surface in pixels, and how its picture is turned.
#[derive(Clone, Copy, Debug, PartialEq, Eq, Hash)]
pub struct Mode {
    pub width: u32,
    pub height: u32,
    pub rotation: Rotation,
}

impl Mode {
    ghost use Rattle.dd_modes.specs.Modes.{is_mode};

    /// Whether the size keeps the limits: sides of 1 to 8,192 and at most 16,777,216 pixels.
    pub fn is_within_limits(&self) -> bool
        ensures mode { result ≡ is_mode self.now }
        ensures size { IsTrue result ↔ IsSize self.now.width self.now.height }
    {
        self.has_sides_and_pixels()
    }

    /// Whether both sides and the number of pixels are among those that a mode may have.
    #[tactic(auto, unfolding(crate::specs::Modes::is_mode))]
    fn has_sides_and_pixels(&self) -> bool
        ensures { result ≡ is_mode self.now }
    {
        let (w, h) = (self.width, self.height);
        1 <= w
            && w <= MAX_SIDE
            && 1 <= h
            && h <= MAX_SIDE
            && u64::from(w) * u64::from(h) <= u64::from(MAX_PIXELS)
    }
}

/// Whether each of the modes keeps the limits.
fn are_within_limits(modes: &[Mode]) -> bool
    ensures { result ≡ list_all is_mode modes.now }
{
    modes.iter().all(|mode| mode.is_within_limits())
}

/// Whether an output may have these modes.
#[tactic(auto, unfolding(crate::specs::Modes::are_modes))]
fn fit_an_output(modes: &[Mode]) -> bool
    ensures { result ≡ are_modes modes.now }
{
    1 <= modes.len() && modes.len() <= MAX_MODES && are_within_limits(modes)
}

/// The mode with so many modes before it.
fn found(modes: &[Mode], index: usize) -> Option<Mode>
    ensures { result ≡ slice_get modes.now index }
{
    modes.get(index).copied()
}

/// The modes of an output: 1 to 16, each within the limits.
#[derive(Debug, Drop)]
pub struct Modes {
    items: Vec<Mode>,
}

impl Model for Modes {
    ghost use Rattle.std.specs.Prelude.{List, IsTrue};
    ghost use Rattle.dd_modes.specs.declared.modes.Mode.{Mode};

    ghost Value = { List Mode };

    ghost use Rattle.dd_modes.specs.Modes.{are_modes};

    ghost view = { λ m. m.items.items };

    ghost invariant = { λ m. IsTrue (are_modes m.items.items) };
}

impl Modes {
    ghost use Rattle.dd_modes.specs.Modes.{are_modes, first_mode};

    /// The modes of a vector, in its order and on its memory; none where there are not 1 to 16,
    /// or one of them is past the limits.
    pub fn from_vec(items: Vec<Mode>) -> Option<Modes>
        ensures { result ≡ (if are_modes items.items then Some items.items else None) }
    {
        if fit_an_output(items.as_slice()) {
            Some(Modes { items })
        } else {
            None
        }
    }

    pub fn as_slice(&self) -> &[Mode]
        ensures value { result.now ≡ self.now }
        ensures modes { IsTrue (are_modes self.now) }
    {
        self.items.as_slice()
    }

    /// An equal list, on memory of its own.
    pub fn copy(&self) -> Result<Modes, AllocError>
        ensures { IfOk result (λ modes. modes ≡ self.now) }
    {
        let items = Vec::from_slice(*self.items.allocator(), self.as_slice())?;
        Ok(Modes { items })
    }

    /// The mode with so many modes before it.
    pub fn get(&self, index: u32) -> Option<Mode>
        ensures value { result ≡ slice_get self.now index }
        ensures size { IfSome result (λ mode. IsSize mode.width mode.height) }
    {
        found(self.items.as_slice(), index as usize)
    }

    /// The mode that an output begins with.
    pub fn first(&self) -> Mode
        ensures value { result ≡ first_mode self.now }
        ensures size { IsSize result.width result.height }
    {
        self.items[0]
    }
}
