//! What holds of the files of every store.

ghost use Rattle.ddc_opening.specs.Laws.{OneHolding, OneOpening, OpensOrFails, OneOpenFault};

use ddc_entry::one_entry;
use ddc_journal::one_pair_reading;

/// Proves that devices open to at most one state, or have one fault. It does nothing.
pub fn one_opening()
    ensures holding { OneHolding }
    ensures opening { OneOpening }
    ensures exclusive { OpensOrFails }
    ensures fault { OneOpenFault }
{
    one_entry();
    one_pair_reading();
}
