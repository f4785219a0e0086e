//! Laws of the definitions.

ghost use Rattle.dd_acc.specs.Effects.{TouchedComposes, HonestDirt};
ghost use Rattle.dd_acc.specs.Hidden.{HiddenFollows, NoneHidden};
ghost use Rattle.dd_acc.specs.Interval.{Composes};
ghost use Rattle.dd_acc.specs.Rebuild.{MovesAndDirtRebuild};

/// What two lists of effects touch, one after the other, is what both together touch.
pub fn touched_composes()
    ensures { TouchedComposes }
{}

/// What presents leave that are added one by one is the dirt, the moves and the number of all of
/// them.
pub fn presents_compose()
    ensures { Composes }
{}

/// A surface is rebuilt from the one before by the moves, drawn in order, and then by copying any
/// points among which are all that were drawn.
pub fn moves_and_dirt_rebuild()
    ensures { MovesAndDirtRebuild }
{}

/// Each point that is drawn afresh is dirty. Where no present had to be rounded no other point is, and
/// each dirty point was drawn, or was a scroll's destination.
pub fn dirt_is_honest()
    ensures { HonestDirt }
{}

/// The hidden points of a picture that operations are drawn on are those of the picture before,
/// brought forward.
pub fn hidden_follows()
    ensures { HiddenFollows }
{}

/// A picture with a cell for each point has no hidden cell exactly where its hidden points are the
/// empty set.
pub fn none_hidden()
    ensures { NoneHidden }
{}
