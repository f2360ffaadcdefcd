//! The clock of the system, and one that stands still.

ghost use Rattle.std.specs.Prelude.{◌≡◌, None, Some};
ghost use Rattle.std.specs.Duration.{as_nanos};
ghost use Rattle.ddc_link.specs.Hours.{whole_hours};

use crate::Clock;
use std::thread;
use std::time::{self, Duration, SystemTime, UNIX_EPOCH};

/// A clock that always tells the same hour.
#[derive(Clone, Copy, Debug, PartialEq, Eq)]
pub struct FixedClock {
    /// Whole hours since 1970.
    pub hour: u32,
}

impl Clock for FixedClock {
    ghost tells = { λ clock. Some clock.hour };

    fn hour(&self) -> u32 {
        self.hour
    }

    fn rest(&self) {}
}

/// The clock of the system.
#[derive(Debug, Drop)]
pub struct SystemClock<R> {
    rt: R,
}

impl<R: time::Clock> SystemClock<R> {
    /// The clock that the runtime reads.
    pub fn new(rt: R) -> SystemClock<R> {
        SystemClock { rt }
    }
}

impl<R: time::Clock> Clock for SystemClock<R> {
    ghost tells = { λ _. None };

    fn hour(&self) -> u32 {
        match SystemTime::now(&self.rt) {
            Ok(now) => match now.duration_since(UNIX_EPOCH) {
                Ok(elapsed) => hours_of(elapsed),
                Err(_) => 0,
            },
            Err(_) => 0,
        }
    }

    fn rest(&self) {
        thread::sleep(&self.rt, Duration::from_millis(1));
    }
}

// The whole hours of a span, and 0 where their number passes u32.
fn hours_of(elapsed: Duration) -> u32
    ensures { result ≡ whole_hours (as_nanos elapsed) }
{
    u32::try_from(elapsed.as_secs() / 3600).unwrap_or(0)
}
