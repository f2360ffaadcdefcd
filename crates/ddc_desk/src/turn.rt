//! What is done in a turn.

ghost use Rattle.std.specs.Prelude.{◌≡◌};
ghost use Rattle.std.specs.Borrow.{Lends, sem};
ghost use Rattle.ddc_desk.specs.contracts.desk.Turn.{the_row};
ghost use Rattle.ddc_desk.specs.Lends.{with_value};

use crate::desk::Turn;
use crate::grows::Grows;

impl<T: Grows> Turn<T> {
    /// The value. What is written to it stays in the turn.
    pub fn value(&mut self) -> &mut T
        ensures* writes_back { sem 𝓛 (Lends (the_row T.row T.Item.row T.Grows) T.row self.entry result (with_value self.old)) }
        ensures value { result.now ≡ self.old.value }
    {
        &mut self.value
    }

    /// Hands the value out. Nobody enters after it: who waits waits for ever.
    pub fn close(self) -> T
        ensures { result ≡ self.value }
    {
        let Turn { value, begun: _ } = self;
        value
    }
}
