// A message taken in piece by piece.
ghost use Rattle.std.specs.Prelude.{◌≡◌, ℕ, ◌+◌, ◌-◌, ◌*◌, ◌/◌, ◌%◌, ◌^◌, ◌<◌, ◌≤◌, ◌++◌, List, [], ◌∷◌, length};
ghost use Rattle.tree_hash.specs.TreeHash.{blake3};
ghost use Rattle.blake3_hash.specs.Spine.{IsPushed, leaves};
ghost use Rattle.blake3_hash.specs.Fed.{IsFed, IsHeld, fed_length};

use crate::spine::Spine;
use std::marker::Model;
use tree_hash::flagged_chunk;

/// The hash of a message that is fed in pieces. A clause speaks of the bytes fed by `IsFed`, and of their number by
/// `fed_length`.
#[derive(Clone, Copy)]
pub struct Hasher {
    spine: Spine,
    // The last bytes fed, from a whole chunk on: empty only where no byte was fed.
    buffer: [u8; 1024],
    used: usize,
}

impl Model for Hasher {
    ghost use Rattle.std.specs.Prelude.{◌+◌, ◌*◌, ◌^◌, ◌<◌, ◌≤◌};
    ghost use Rattle.blake3_hash.specs.Fed.{Fed};

    ghost Value = { Fed };

    ghost view = { λ h. record { spine = h.spine; buffer = h.buffer; used = h.used } };

    ghost invariant = { λ h. (h.used ≤ 1024) × (1 ≤ h.spine.count → 1 ≤ h.used) × (1024 * h.spine.count + h.used < 2 ^ 64) };

    ghost inverse = { λ v. record { spine = v.spine; buffer = v.buffer; used = v.used } };
}

impl Hasher {
    /// A hasher of the empty message.
    pub fn new() -> Hasher
        ensures length { fed_length result ≡ 0 }
        ensures fed { IsFed result [] }
    {
        Hasher {
            spine: Spine::new(),
            buffer: [0; 1024],
            used: 0,
        }
    }

    /// Feeds the bytes after those that were fed before.
    pub fn update(&mut self, bytes: &[u8])
        requires { fed_length self.old + length bytes.now < 2 ^ 64 }
        ensures length { fed_length self.new ≡ fed_length self.old + length bytes.now }
        ensures fed { (m : List ℕ) → IsFed self.old m → IsFed self.new (m ++ bytes.now) }
    {
        let used = self.used;
        let room = 1024 - used;
        if bytes.len() <= room {
            self.buffer[used..used + bytes.len()].copy_from_slice(bytes);
            self.used = used + bytes.len();
            return;
        }
        if used == 0 {
            self.used = absorb(&mut self.spine, &mut self.buffer, bytes);
            return;
        }
        self.buffer[used..].copy_from_slice(&bytes[..room]);
        let value = flagged_chunk(&self.buffer, self.spine.count(), 0);
        self.spine.push(&value);
        self.used = absorb(&mut self.spine, &mut self.buffer, &bytes[room..]);
    }

    /// The hash of the bytes fed.
    pub fn finish(&self) -> [u8; 32]
        ensures { (m : List ℕ) → IsFed self.now m → result ≡ blake3 m }
    {
        self.spine.finish(&self.buffer[..self.used])
    }
}

// Takes in bytes after whole chunks: all but the last chunk go on the spine, and it goes to the front of the buffer.
// Gives the last chunk's length.
fn absorb(spine: &mut Spine, buffer: &mut [u8; 1024], bytes: &[u8]) -> usize
    requires some { 1 ≤ length bytes.now }
    requires room { 1024 * spine.old.count + length bytes.now < 2 ^ 64 }
    ensures least { 1 ≤ result }
    ensures most { result ≤ 1024 }
    ensures length { 1024 * spine.new.count + result ≡ 1024 * spine.old.count + length bytes.now }
    ensures held { (m : List ℕ) → 1024 * spine.old.count ≡ length m → IsPushed spine.old (leaves spine.old.count m 0)
        → IsHeld spine.new.levels spine.new.count buffer.new result (m ++ bytes.now) }
{
    let whole = (bytes.len() - 1) / 1024;
    for k in 0..whole {
        let value = flagged_chunk(&bytes[1024 * k..1024 * k + 1024], spine.count(), 0);
        spine.push(&value);
    }
    let tail = &bytes[1024 * whole..];
    buffer[..tail.len()].copy_from_slice(tail);
    tail.len()
}
