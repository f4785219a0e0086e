//! The three kinds of shapes, and their sizes.

ghost use Rattle.std.specs.Prelude.{◌≡◌, ◌≤◌, IsTrue, ◌*◌};
ghost use Rattle.dd_pointer.specs.Shape.{number, kind_of, pitch, is_height, is_size, required};
ghost use Rattle.dd_pointer.specs.Compositing.{rows_covered};

/// The most columns of a shape.
pub const MAX_WIDTH: u32 = 256;

/// The most rows of a shape in colours.
pub const MAX_HEIGHT: u32 = 256;

/// The most rows of a monochrome shape, those of its two masks together.
pub const MAX_MASK_HEIGHT: u32 = 512;

/// The most bytes of a shape.
pub const MAX_BYTES: u32 = 262_144;

/// The kind of a shape (the API's DXGI_OUTDUPL_POINTER_SHAPE_TYPE).
#[derive(Clone, Copy, Debug, PartialEq, Eq, Hash)]
pub enum Kind {
    /// Number 1: an AND mask and then an XOR mask, a bit for each pixel, the leftmost in the top
    /// bit; each row begins with a byte of its own.
    Monochrome,
    /// Number 2: a blue, a green, a red and an alpha byte for each pixel.
    Color,
    /// Number 4: a blue, a green and a red byte for each pixel, and a mask that is 0 or 255.
    MaskedColor,
}

impl Kind {
    /// The kind of one of the API's numbers; none where the number isn't 1, 2 or 4.
    pub fn of(number: u32) -> Option<Kind>
        ensures { result ≡ kind_of number }
    {
        match number {
            1 => Some(Kind::Monochrome),
            2 => Some(Kind::Color),
            4 => Some(Kind::MaskedColor),
            _ => None,
        }
    }

    /// The API's number of the kind.
    pub fn number(self) -> u32
        ensures { result ≡ number self }
    {
        match self {
            Kind::Monochrome => 1,
            Kind::Color => 2,
            Kind::MaskedColor => 4,
        }
    }

    /// The bytes of a row of so many pixels.
    pub(crate) fn pitch(self, width: u32) -> u32
        requires { width ≤ MAX_WIDTH }
        ensures { result ≡ pitch self width }
    {
        match self {
            Kind::Monochrome => width.div_ceil(8),
            Kind::Color | Kind::MaskedColor => 4 * width,
        }
    }

    /// The rows of the surface that a shape of this kind and height covers: a monochrome one has
    /// two masks.
    pub(crate) fn rows_covered(self, height: u32) -> u32
        ensures { result ≡ rows_covered self height }
    {
        match self {
            Kind::Monochrome => height / 2,
            Kind::Color | Kind::MaskedColor => height,
        }
    }

    /// Whether a shape of this kind may have so many rows.
    pub(crate) fn allows_height(self, height: u32) -> bool
        ensures { result ≡ is_height self height }
    {
        match self {
            Kind::Monochrome => 2 <= height && height <= MAX_MASK_HEIGHT && height % 2 == 0,
            Kind::Color | Kind::MaskedColor => 1 <= height && height <= MAX_HEIGHT,
        }
    }

    /// Whether a shape of this kind may have this size.
    pub fn allows_size(self, width: u32, height: u32) -> bool
        ensures { result ≡ is_size self width height }
    {
        1 <= width && width <= MAX_WIDTH && self.allows_height(height)
    }

    /// How many bytes a shape of this kind and size has. The size has to be one that it may have.
    pub fn required(self, width: u32, height: u32) -> u32
        requires { IsTrue (is_size self width height) }
        ensures value { result ≡ required self width height }
        ensures few { result ≤ MAX_BYTES }
    {
        self.pitch(width) * height
    }
}
