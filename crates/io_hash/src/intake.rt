// Bytes that arrive in pieces.
ghost use Rattle.std.specs.Prelude.{◌≡◌, List, [], OnOk, IfErr};
ghost use Rattle.io_hash.specs.Intakes.{FitsLimit, Refuses, Taken, with_piece};

use crate::whole::Whole;
use blake3_lanes::WideHasher;
use std::alloc::Global;
use std::marker::Model;

/// Why an intake refuses a piece.
#[derive(Clone, Copy, Debug, PartialEq, Eq)]
pub enum IntakeFault {
    /// The bytes would be more than this limit.
    TooLarge { limit: u64 },
    /// There was no memory.
    NoMemory,
}

/// Bytes that arrive in pieces, hashed as they come. A clause sees the limit of their number, and the bytes taken so
/// far.
#[derive(Drop)]
pub struct Intake {
    limit: u64,
    bytes: Vec<u8>,
    hasher: WideHasher,
}

impl Model for Intake {
    ghost use Rattle.std.specs.Prelude.{◌≤◌, length};
    ghost use Rattle.blake3_lanes.specs.WideFed.{IsWideFed};
    ghost use Rattle.io_hash.specs.Intakes.{Taken};

    ghost Value = { Taken };

    ghost view = { λ a. record { limit = a.limit; bytes = a.bytes.items } };

    ghost invariant = { λ a. (length a.bytes.items ≤ a.limit) × IsWideFed a.hasher a.bytes.items };
}

impl Intake {
    /// An intake of at most `limit` bytes, which holds none and no memory yet.
    pub fn new(alloc: Global, limit: u64) -> Intake
        ensures { result ≡ record { limit = limit; bytes = [] } }
    {
        Intake {
            limit,
            bytes: Vec::new(alloc),
            hasher: WideHasher::new(),
        }
    }

    /// Takes a piece after the bytes taken before.
    ///
    /// # Errors
    ///
    /// `TooLarge` exactly where the bytes would be more than the limit, and `NoMemory` where there is none. The intake is
    /// then as before.
    pub fn take(&mut self, bytes: &[u8]) -> Result<(), IntakeFault>
        ensures fits { OnOk result (FitsLimit self.old bytes.now) }
        ensures taken { OnOk result (self.new ≡ with_piece self.old bytes.now) }
        ensures refused { IfErr result (λ fault. Refuses self.old bytes.now fault) }
        ensures unchanged { IfErr result (λ _. self.new ≡ self.old) }
    {
        if bytes.len() as u64 > self.limit - self.bytes.len() as u64 {
            return Err(IntakeFault::TooLarge { limit: self.limit });
        }
        if self.bytes.extend_from_slice(bytes).is_err() {
            return Err(IntakeFault::NoMemory);
        }
        self.hasher.update(bytes);
        Ok(())
    }

    /// The bytes taken, with their hash. They are moved and not copied.
    pub fn finish(self) -> Whole
        ensures { result ≡ self.bytes }
    {
        Whole::of_fed(self.bytes, &self.hasher)
    }
}
