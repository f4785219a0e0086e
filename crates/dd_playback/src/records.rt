//! What holds of the record of each client of each script.

ghost use Rattle.dd_playback.specs.Records.{RecordsPlayBack, RecordsAreRead, RecordsShowFrames, RecordsAreViewed};

/// The chunks of a client's record play back to what the client's frames showed.
pub fn records_play_back()
    ensures { RecordsPlayBack }
{}

/// The bytes of a client's record are read to their end with no fault, where the script's parts are
/// in their ranges.
pub fn records_are_read()
    ensures { RecordsAreRead }
{}

/// And then a reader of the bytes shows what the client's frames showed.
pub fn records_show_frames()
    ensures { RecordsShowFrames }
{}

/// What `record` writes for a client of a script is an input of `view` for each of the client's
/// frames, and shows that frame.
pub fn records_are_viewed()
    ensures { RecordsAreViewed }
{}
