//! What is seen of a picture: laws, with nothing to run.

ghost use Rattle.dd_geom.specs.Grid.{Grid};
ghost use Rattle.dd_grid.specs.Cell.{Cell};
ghost use Rattle.dd_grid.specs.Drawing.{SeenIsSurface, SeenCommutes};

/// What is seen of a picture is a surface.
pub fn seen_is_surface()
    ensures { SeenIsSurface }
{}

/// What is drawn on a picture is seen as the same drawn on what was seen of it.
pub fn seen_commutes()
    ensures { (p : Grid Cell) → SeenCommutes p }
{}
