// Laws of the definitions.
ghost use Rattle.ddc_protocol.specs.Laws.{OneCut};

/// A stream is cut in one way: the items and the place of the end are those of its bytes, and so is
/// the end, but that bytes of which no head can become may end as cut or as unread.
pub fn one_cut()
    ensures { OneCut }
{}
