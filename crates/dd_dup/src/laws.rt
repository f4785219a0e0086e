//! Laws of the definitions.

ghost use Rattle.dd_dup.specs.Stands.{StandsLater};
ghost use Rattle.dd_dup.specs.Duplicator.{FramesRebuild, FramesAreReached};
ghost use Rattle.dd_dup.specs.Veil.{HiddenReplies};

/// A duplicator that stands on a list stands on each list that begins with it.
pub fn stands_later()
    ensures { StandsLater }
{}

/// The frame of an interval rebuilds what is seen of the desk at its end from what was seen at its
/// beginning.
pub fn frames_rebuild()
    ensures { FramesRebuild }
{}

/// Where a frame's dirt wasn't rounded, it is where the operations of its interval drew, or scrolled
/// to.
pub fn frames_are_reached()
    ensures { FramesAreReached }
{}

/// Nothing of what covers hide reaches an answer: each call is answered as on the list in which they
/// hide black.
pub fn hidden_content()
    ensures { HiddenReplies }
{}
