//! Laws of the definitions.

ghost use Rattle.dd_record.specs.Dirt.{TellsCanonical};
ghost use Rattle.dd_record.specs.Frames.{FramesKeepRules};
ghost use Rattle.dd_record.specs.Grammar.{BadHasCome, ReadingStays};
ghost use Rattle.dd_record.specs.Writing.{ReadsWhatIsWritten};

/// A list of rectangles is let pass exactly where it is the canonical list of its points.
pub fn tells_canonical()
    ensures { TellsCanonical }
{}

/// A field is bad only once it has come.
pub fn bad_has_come()
    ensures { BadHasCome }
{}

/// A whole chunk and a bad field stay, whatever bytes come behind.
pub fn reading_stays()
    ensures { ReadingStays }
{}

/// The bytes of each chunk that keeps the rules, whatever stands behind them, are read as the chunk,
/// and it has as many bytes.
pub fn reads_what_is_written()
    ensures { ReadsWhatIsWritten }
{}

/// Each frame that a duplicator can be given, with its surface, keeps the rules of a record, where
/// the list's pointers and shapes are in range.
pub fn frames_keep_rules()
    ensures { FramesKeepRules }
{}
