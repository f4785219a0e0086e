//! Shapes that are read, and blended colours: laws, with nothing to run.

ghost use Rattle.dd_pointer.specs.Shape.{ShapeIsRead};
ghost use Rattle.dd_pointer.specs.Compositing.{BlendedIsNearest};

/// The parts of a shape, read, are the shape.
pub fn shape_is_read()
    ensures { ShapeIsRead }
{}

/// A blended channel is the nearest whole number to the exact one.
pub fn blended_is_nearest()
    ensures { BlendedIsNearest }
{}
