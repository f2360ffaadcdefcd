// Laws of the definitions.
ghost use Rattle.replication_log.specs.Readers.{NewLogIsEmpty, LogKeepsNewest, ReaderMissesNothing, ReaderReadsAll, PageGoesOn};

/// A log has the newest of all events that were ever added to it.
pub fn a_log_keeps_the_newest()
    ensures new { NewLogIsEmpty }
    ensures newest { LogKeepsNewest }
{}

/// A reader that goes on from the last number of each page reads every event once, and stands still where it is told
/// that it can't. Each page takes it on by as many events as it asked for, or to the last number.
pub fn a_reader_misses_nothing()
    ensures once { ReaderMissesNothing }
    ensures all { ReaderReadsAll }
    ensures forward { PageGoesOn }
{}
