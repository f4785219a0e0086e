//! What operations make of a picture: a law, with nothing to run.

ghost use Rattle.std.specs.Prelude.{ℕ};
ghost use Rattle.dd_ops.specs.declared.operations.Op.{Op};
ghost use Rattle.dd_ops.specs.Operations.{DrawnIsPicture, SeenFollows};
ghost use Rattle.dd_ops.specs.Veil.{FitsVeiled, VeilHides, VeilIsHidden, VeilIsSeen, VeilUnfit};

/// What operations that fit make of a picture is a picture.
pub fn drawn_is_picture()
    ensures { DrawnIsPicture }
{}

/// What is seen of a picture after operations is what they make of what was seen of it.
pub fn seen_follows()
    ensures { SeenFollows }
{}

/// Nothing is left of the colours that a cover hides in its veil, in which they are black.
pub fn veil_hides()
    ensures { VeilHides }
{}

/// The same is seen after the veil of operations as after them.
pub fn veil_is_seen()
    ensures { VeilIsSeen }
{}

/// The same points are hidden after the veil of operations as after them.
pub fn veil_is_hidden()
    ensures { VeilIsHidden }
{}

/// An operation that fits still fits when veiled; where what covers hide are colours, none fits that
/// didn't.
pub fn veil_fits()
    ensures { (w h : ℕ) (op : Op) → FitsVeiled w h op }
{}

/// Where what covers hide are colours, the first operation that doesn't fit is that of the veil.
pub fn veil_unfit()
    ensures { VeilUnfit }
{}
