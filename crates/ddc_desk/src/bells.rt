//! Where threads sleep until their ticket is served.

use std::array;
use std::sync::Wait;
use std::sync::atomic::{AtomicU64, Ordering};

// As many as threads that are likely to wait at one desk.
const BELLS: u64 = 32;

/// A row of bells. A ticket has the bell of its number modulo 32, so that who leaves wakes the next one and lets the
/// others sleep. Bells give no right to anything: who wakes looks at the desk again.
#[derive(Drop)]
pub struct Bells {
    rings: [AtomicU64; BELLS as usize],
}

impl Bells {
    /// Bells that have never rung.
    pub fn new() -> Bells {
        Bells {
            rings: array::from_fn(|_| AtomicU64::new(0)),
        }
    }

    fn of(&self, ticket: u64) -> &AtomicU64 {
        &self.rings[(ticket % BELLS) as usize]
    }

    /// How often the ticket's bell has rung, modulo 2^32.
    pub fn heard(&self, ticket: u64) -> u32 {
        (self.of(ticket).load(Ordering::SeqCst) % (1 << 32)) as u32
    }

    /// Sleeps until the ticket's bell rings, or doesn't where it has rung since it was heard so often.
    pub fn sleep<R: Wait>(&self, rt: &R, ticket: u64, heard: u32) {
        self.of(ticket).park(rt, heard);
    }

    /// Rings the ticket's bell.
    pub fn ring(&self, ticket: u64) {
        let bell = self.of(ticket);
        bell.fetch_add(1, Ordering::SeqCst);
        bell.wake_all();
    }
}
