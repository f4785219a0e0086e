//! Laws of the definitions.

ghost use Rattle.dd_view.specs.Player.{FeedingIsReading};
ghost use Rattle.dd_view.specs.Records.{ReadsRecords};

/// How a record's bytes are cut into pieces makes no difference.
pub fn feeding_is_reading()
    ensures { FeedingIsReading }
{}

/// The record of chunks that follow one another is read to its end, and plays these chunks.
pub fn reads_records()
    ensures { ReadsRecords }
{}
