//! One cell of a picture in 4 bytes: a colour, and whether it is hidden.

ghost use Rattle.std.specs.Prelude.{◌≡◌, ◌<◌};

use std::marker::Model;

/// One past the greatest colour: red, green and blue take 8 bits each, red uppermost.
pub const COLOURS: u32 = 0x100_0000;

/// The bit above the colours, set where the cell is hidden.
const HIDDEN: u32 = COLOURS;

/// The colour in the low 24 bits, and above them the bit that hides it; no bit above that is set.
#[derive(Clone, Copy, Debug)]
pub(crate) struct Pixel {
    bits: u32,
}

impl Model for Pixel {
    ghost use Rattle.std.specs.Prelude.{◌+◌, ◌*◌, ◌%◌, ◌<◌, nat_le, if◌then◌else◌};
    ghost use Rattle.dd_grid.specs.declared.cell.TheConstants.{COLOURS};
    ghost use Rattle.dd_grid.specs.Cell.{Cell};

    ghost Value = { Cell };

    ghost view = { λ p. record { colour = p.bits % COLOURS; hidden = nat_le COLOURS p.bits } };

    ghost invariant = { λ p. p.bits < 2 * COLOURS };

    ghost inverse = { λ c. record { bits = if c.hidden then c.colour + COLOURS else c.colour } };

    ghost use Rattle.std.proofs.Common.{ap};
    ghost use Rattle.dd_grid.specs.PixelBits.{bits_from_parts};

    ghost inverse_ok = { λ p h. ap (λ n. record { bits = n }) (bits_from_parts p.bits h) };
}

impl Pixel {
    ghost use Rattle.dd_grid.specs.Cell.{cell_of, plain, seen_cell};

    /// A plain cell of a colour.
    pub(crate) fn plain(colour: u32) -> Pixel
        requires { colour < COLOURS }
        ensures { result ≡ plain colour }
    {
        Pixel { bits: colour }
    }

    /// A cell of a colour, plain or hidden.
    pub(crate) fn new(colour: u32, hidden: bool) -> Pixel
        requires { colour < COLOURS }
        ensures { result ≡ cell_of hidden colour }
    {
        let mark = if hidden { HIDDEN } else { 0 };
        Pixel {
            bits: mark + colour,
        }
    }

    /// The colour, shown or not.
    pub(crate) fn colour(self) -> u32
        ensures colour { result ≡ self.colour }
        ensures small { result < COLOURS }
    {
        self.bits % HIDDEN
    }

    pub(crate) fn is_hidden(self) -> bool
        ensures { result ≡ self.hidden }
    {
        self.bits >= HIDDEN
    }

    /// The colour that is shown: black where the cell is hidden.
    pub(crate) fn seen(self) -> u32
        ensures colour { result ≡ seen_cell self }
        ensures small { result < COLOURS }
    {
        if self.is_hidden() { 0 } else { self.colour() }
    }
}
