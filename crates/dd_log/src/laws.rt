//! What legal lists are and show: laws, with nothing to run.

ghost use Rattle.dd_log.specs.History.{History, BeginningIsLegal, LegalByEntries, LegalHasRoom, EndIsLast, BeforeEndCounts};
ghost use Rattle.dd_log.specs.Picture.{LegalIsShown, PictureGoesOn, PictureBegins, PictureSinceStart};
ghost use Rattle.dd_log.specs.Veil.{VeilIsLegal, VeilRefuses, VeilShows};

/// Of a legal list, in modes of a size that surfaces have, the desk's picture is a picture, and what
/// is seen of it a surface: each colour is below 2^24.
pub fn legal_is_shown()
    ensures { LegalIsShown }
{}

/// A beginning of a legal list is legal.
pub fn beginning_is_legal()
    ensures { BeginningIsLegal }
{}

/// A list with one entry more is legal exactly where the list is, and may have the entry.
pub fn legal_by_entries()
    ensures { LegalByEntries }
{}

/// A list has ended where the end is among its entries; of a legal list all other entries stand
/// before it.
pub fn end_is_last()
    ensures { EndIsLast }
{}

/// Each entry but the end is one more before the end.
pub fn before_end_counts()
    ensures { BeforeEndCounts }
{}

/// A legal list has at most as many entries as its capacity says, and a place is left until it has
/// ended.
pub fn legal_has_room()
    ensures { LegalHasRoom }
{}

/// From a place after which no picture begins, the desk's picture is drawn on the one before.
pub fn picture_goes_on()
    ensures { PictureGoesOn }
{}

/// The last picture begins black, in the mode that stands at the end.
pub fn picture_begins()
    ensures { PictureBegins }
{}

/// What stands before the place where the last picture begins doesn't matter.
pub fn picture_since_start()
    ensures { PictureSinceStart }
{}

/// A list and its veil have the same desk, show the same and hide the same points.
pub fn veil_shows()
    ensures { (h : History) → VeilShows h }
{}

/// Where what an event's covers hide are colours, the veil refuses it, veiled, as the list does.
pub fn veil_refuses()
    ensures { VeilRefuses }
{}

/// The veil of a legal list is legal; where what covers hide are colours, that of no other list is.
pub fn veil_is_legal()
    ensures { (h : History) → VeilIsLegal h }
{}
