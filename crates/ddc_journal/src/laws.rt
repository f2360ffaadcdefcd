//! What holds of the bytes of every file.

ghost use Rattle.ddc_journal.specs.Laws.{JournalOrFault, LoadsOrFails, OneFaultOfKind, OneFileFault, OneJournal, OneLoading, NotMadeIsNone, OnePair, OnePairFault, PairOrFault};

/// Proves that the bytes of a file are at most one journal, or have one fault; first of files of every
/// kind, and then of those of a journal that stands alone. It does nothing.
pub fn one_reading()
    ensures journal { OneJournal }
    ensures journal_or_fault { JournalOrFault }
    ensures fault_of_kind { OneFaultOfKind }
    ensures loading { OneLoading }
    ensures exclusive { LoadsOrFails }
    ensures fault { OneFileFault }
{}

/// Proves the same of the two files of a pair. It does nothing.
pub fn one_pair_reading()
    ensures pair { OnePair }
    ensures exclusive { PairOrFault }
    ensures fault { OnePairFault }
    ensures none { NotMadeIsNone }
{}
