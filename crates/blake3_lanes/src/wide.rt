// A message taken in piece by piece, eight chunks at a time.
ghost use Rattle.std.specs.Prelude.{◌≡◌, ℕ, ◌+◌, ◌-◌, ◌*◌, ◌/◌, ◌%◌, ◌^◌, ◌<◌, ◌≤◌, ◌++◌, List, [], length, take, drop};
ghost use Rattle.tree_hash.specs.TreeHash.{blake3};
ghost use Rattle.blake3_hash.specs.Spine.{IsPushed, leaves};
ghost use Rattle.blake3_hash.specs.Fed.{IsHeld};
ghost use Rattle.blake3_lanes.specs.WideFed.{IsWideFed, wide_length};

use crate::chunk::flagged_chunk;
use crate::chunks::{chunks4, chunks8, chunks8_before};
use crate::parents::{alone, join_waiting, join_with, quarters8, subtree8};
use crate::vectors::Hidden;
use crate::width::WIDTH;
use blake3_hash::{Parents, Spine};
use std::marker::Model;
use tree_hash::bytes_of;

/// The hash of a message that is fed in pieces, computed eight chunks at a time. A clause speaks of the bytes fed by
/// `IsWideFed`, and of their number by `wide_length`.
#[derive(Drop)]
pub struct WideHasher {
    spine: Spine,
    // The number of chunks on the spine.
    chunks: u64,
    // The last bytes fed, from a whole chunk on: empty only where no byte was fed.
    buffer: [u8; 8192],
    used: usize,
}

impl Model for WideHasher {
    ghost use Rattle.std.specs.Prelude.{◌≡◌, ◌+◌, ◌*◌, ◌%◌, ◌^◌, ◌<◌, ◌≤◌};
    ghost use Rattle.blake3_lanes.specs.WideFed.{WideFed};

    ghost Value = { WideFed };

    ghost view = { λ h. record { spine = h.spine; buffer = h.buffer; used = h.used } };

    ghost invariant = { λ h. (h.chunks ≡ h.spine.count) × (h.spine.count % 8 ≡ 0) × (h.used ≤ 8192) × (1 ≤ h.spine.count → 1 ≤ h.used) × (1024 * h.spine.count + h.used < 2 ^ 64) };
}

impl WideHasher {
    /// A hasher of the empty message.
    pub fn new() -> WideHasher
        ensures length { wide_length result ≡ 0 }
        ensures fed { IsWideFed result [] }
    {
        WideHasher {
            spine: Spine::new(),
            chunks: 0,
            buffer: [0; 8192],
            used: 0,
        }
    }

    /// Feeds the bytes after those that were fed before.
    pub fn update(&mut self, bytes: &[u8])
        requires { wide_length self.old + length bytes.now < 2 ^ 64 }
        ensures length { wide_length self.new ≡ wide_length self.old + length bytes.now }
        ensures fed { (m : List ℕ) → IsWideFed self.old m → IsWideFed self.new (m ++ bytes.now) }
    {
        let used = self.used;
        let room = 8192 - used;
        if bytes.len() <= room {
            self.buffer[used..used + bytes.len()].copy_from_slice(bytes);
            self.used = used + bytes.len();
            return;
        }
        if used == 0 {
            self.used = absorb(&mut self.spine, &mut self.buffer, self.chunks, bytes);
            self.chunks += chunks_of_groups(bytes.len());
            return;
        }
        self.buffer[used..].copy_from_slice(&bytes[..room]);
        push_values(&mut self.spine, &chunks8(&self.buffer, self.chunks));
        self.chunks += 8;
        let rest = &bytes[room..];
        self.used = absorb(&mut self.spine, &mut self.buffer, self.chunks, rest);
        self.chunks += chunks_of_groups(rest.len());
    }

    /// The hash of the bytes fed.
    pub fn finish(&self) -> [u8; 32]
        ensures { (m : List ℕ) → IsWideFed self.now m → result ≡ blake3 m }
    {
        if self.chunks == 0 && self.used <= 1024 {
            return hash_of_chunk(&self.buffer[..self.used]);
        }
        let hidden = Hidden::new();
        let before = self.used.saturating_sub(1) / 1024;
        let values = buffer_values(&hidden, &self.buffer, self.chunks, self.used);
        let mut spine = self.spine;
        push_front(&hidden, &mut spine, &values, before);
        spine.finish_by(&hidden, &values[before])
    }
}

/// The hash of the bytes. Of at most four chunks it is quicker than a hasher, whose buffer it doesn't need.
pub fn hash(bytes: &[u8]) -> [u8; 32]
    ensures { result ≡ blake3 bytes.now }
{
    if bytes.len() <= 1024 {
        return hash_of_chunk(bytes);
    }
    if bytes.len() <= 4096 {
        return hash_of_four(bytes);
    }
    hash_of_more(bytes)
}

// Never inlined, like the next two: where a function is, the memory of its locals is filled with zeros.
#[inline(never)]
fn hash_of_more(bytes: &[u8]) -> [u8; 32]
    ensures { result ≡ blake3 bytes.now }
{
    let mut hasher = WideHasher::new();
    hasher.update(bytes);
    hasher.finish()
}

// The hash of two chunks to four.
#[inline(never)]
fn hash_of_four(bytes: &[u8]) -> [u8; 32]
    requires more { 1024 < length bytes.now }
    requires len { length bytes.now ≤ 4096 }
    ensures { result ≡ blake3 bytes.now }
{
    let hidden = Hidden::new();
    let before = (bytes.len() - 1) / 1024;
    let values = four_values(&hidden, bytes);
    let mut spine = Spine::new();
    push_front(&hidden, &mut spine, &values, before);
    spine.finish_by(&hidden, &values[before])
}

// The values of at most four chunks, of which the last one may be short.
fn four_values(hidden: &Hidden, bytes: &[u8]) -> [[u32; 8]; 4]
    requires some { 1 ≤ length bytes.now }
    requires len { length bytes.now ≤ 4096 }
    ensures { take ((length bytes.now - 1) / 1024 + 1) result ≡ leaves ((length bytes.now - 1) / 1024 + 1) bytes.now 0 }
{
    if bytes.len() == 4096 {
        return chunks4(hidden, bytes, 0, bytes);
    }
    copied_values(hidden, bytes)
}

// The same over a copy, since lanes read four chunks.
#[inline(never)]
fn copied_values(hidden: &Hidden, bytes: &[u8]) -> [[u32; 8]; 4]
    requires some { 1 ≤ length bytes.now }
    requires len { length bytes.now < 4096 }
    ensures { take ((length bytes.now - 1) / 1024 + 1) result ≡ leaves ((length bytes.now - 1) / 1024 + 1) bytes.now 0 }
{
    let whole = bytes.len() / 1024;
    let mut values = first_of_four(hidden, &four_chunks(bytes), 0, whole);
    if bytes.len() % 1024 > 0 {
        values[whole] = flagged_chunk(hidden, &bytes[1024 * whole..], whole as u64, 0);
    }
    values
}

// The bytes, and zeros up to four chunks.
fn four_chunks(bytes: &[u8]) -> [u8; 4096]
    requires { length bytes.now ≤ 4096 }
    ensures { (k n : ℕ) → 1024 * k ≤ length bytes.now → leaves k result n ≡ leaves k bytes.now n }
{
    let mut chunks = [0u8; 4096];
    chunks[..bytes.len()].copy_from_slice(bytes);
    chunks
}

// The hash of at most one chunk.
fn hash_of_chunk(bytes: &[u8]) -> [u8; 32]
    requires { length bytes.now ≤ 1024 }
    ensures { result ≡ blake3 bytes.now }
{
    bytes_of(&flagged_chunk(&Hidden::new(), bytes, 0, 8))
}

// How many chunks the groups of eight have that come before the last 1 to 8,192 of `len` bytes.
fn chunks_of_groups(len: usize) -> u64
    requires { 1 ≤ len }
    ensures { result ≡ 8 * ((len - 1) / 8192) }
{
    8 * ((len - 1) / 8192) as u64
}

// Puts eight values on a spine that has a multiple of eight.
fn push_values(spine: &mut Spine, values: &[[u32; 8]; 8])
    requires room { spine.old.count + 8 < 2 ^ 54 }
    requires aligned { spine.old.count % 8 ≡ 0 }
    ensures count { spine.new.count ≡ spine.old.count + 8 }
    ensures pushed { (xs : List (List ℕ)) → IsPushed spine.old xs → IsPushed spine.new (xs ++ values.now) }
{
    let hidden = Hidden::new();
    spine.push_subtree_by(&hidden, &subtree8(&hidden, values), 3);
}

// The values of the first `whole` of four chunks: side by side, but of one alone.
fn first_of_four(hidden: &Hidden, chunks: &[u8], number: u64, whole: usize) -> [[u32; 8]; 4]
    requires len { length chunks.now ≡ 4096 }
    requires number { number ≤ 2 ^ 54 - 4 }
    requires whole { whole ≤ 4 }
    ensures { take whole result ≡ leaves whole chunks.now number }
{
    if whole > 1 {
        return chunks4(hidden, chunks, number, chunks);
    }
    let mut values = [[0; 8]; 4];
    if whole == 1 {
        values[0] = flagged_chunk(hidden, &chunks[..1024], number, 0);
    }
    values
}

// The values of the first `whole` of eight chunks.
fn first_of_eight(hidden: &Hidden, buffer: &[u8; 8192], number: u64, whole: usize) -> [[u32; 8]; 8]
    requires number { number ≤ 2 ^ 54 - 8 }
    requires whole { whole ≤ 8 }
    ensures { take whole result ≡ leaves whole buffer.now number }
{
    if WIDTH == 8 && whole > 4 {
        return chunks8_before(hidden, buffer, number, buffer);
    }
    let a = first_of_four(hidden, &buffer[..4096], number, whole.min(4));
    let b = first_of_four(hidden, &buffer[4096..], number + 4, whole.saturating_sub(4));
    [a[0], a[1], a[2], a[3], b[0], b[1], b[2], b[3]]
}

// The values of the chunks that the first `used` bytes of the buffer have, of which the last one may be short.
fn buffer_values(hidden: &Hidden, buffer: &[u8; 8192], number: u64, used: usize) -> [[u32; 8]; 8]
    requires number { number ≤ 2 ^ 54 - 8 }
    requires some { 1 ≤ used }
    requires used { used ≤ 8192 }
    ensures { take ((used - 1) / 1024 + 1) result ≡ leaves ((used - 1) / 1024 + 1) (take used buffer.now) number }
{
    let whole = used / 1024;
    let mut values = first_of_eight(hidden, buffer, number, whole);
    if used % 1024 > 0 {
        let last = &buffer[1024 * whole..used];
        values[whole] = flagged_chunk(hidden, last, number + whole as u64, 0);
    }
    values
}

fn push_front(hidden: &Hidden, spine: &mut Spine, values: &[[u32; 8]], whole: usize)
    requires whole { whole ≤ length values.now }
    requires room { spine.old.count + whole < 2 ^ 54 }
    ensures count { spine.new.count ≡ spine.old.count + whole }
    ensures pushed { (xs : List (List ℕ)) → IsPushed spine.old xs → IsPushed spine.new (xs ++ take whole values.now) }
{
    'front: for k in 0..whole {
        spine.push_subtree_by(hidden, &values[k], 0);
    }
}

// Eight chunks from byte `at` on, and the first eight where there are fewer.
fn eight_chunks(bytes: &[u8], at: usize) -> &[u8]
    requires at { at ≤ length bytes.now }
    requires len { 8192 ≤ length bytes.now }
    ensures { length result.now ≡ 8192 }
{
    if bytes.len() - at >= 8192 {
        &bytes[at..at + 8192]
    } else {
        &bytes[..8192]
    }
}

// The values of the eight chunks from byte 8,192 `k` on; those after them are read meanwhile.
fn group_values(hidden: &Hidden, bytes: &[u8], number: u64, k: usize) -> [[u32; 8]; 8]
    requires inside { 8192 * k + 8192 ≤ length bytes.now }
    requires number { 1024 * number + length bytes.now < 2 ^ 64 }
    ensures { result ≡ leaves 8 (take 8192 (drop (8192 * k) bytes.now)) (number + 8 * k) }
{
    let group = &bytes[8192 * k..8192 * k + 8192];
    let next = eight_chunks(bytes, 8192 * k + 8192);
    chunks8_before(hidden, group, number + 8 * k as u64, next)
}

// Puts the values of the first `groups` groups of eight chunks on a spine of `number` values. Of the tree over a group
// the second level waits for free lanes beside the next group, and the third beside the one after.
fn push_groups(spine: &mut Spine, number: u64, bytes: &[u8], groups: usize)
    requires number { number ≡ spine.old.count }
    requires aligned { number % 8 ≡ 0 }
    requires inside { 8192 * groups ≤ length bytes.now }
    requires room { 1024 * spine.old.count + length bytes.now < 2 ^ 64 }
    requires more { spine.old.count + 8 * groups < 2 ^ 54 }
    ensures count { spine.new.count ≡ spine.old.count + 8 * groups }
    ensures pushed { (m : List ℕ) → 1024 * spine.old.count ≡ length m → IsPushed spine.old (leaves spine.old.count m 0)
        → IsPushed spine.new (leaves (spine.old.count + 8 * groups) (m ++ bytes.now) 0) }
{
    if groups == 0 {
        return;
    }
    let hidden = Hidden::new();
    let first = group_values(&hidden, bytes, number, 0);
    let mut waiting = alone(quarters8(&hidden, &first));
    'groups: for k in 0..groups - 1 {
        let values = group_values(&hidden, bytes, number, k + 1);
        let joined = join_with(&hidden, &values, &waiting);
        if k > 0 {
            spine.push_subtree_by(&hidden, &joined.whole, 3);
        }
        waiting = joined.waiting;
    }
    let last = join_waiting(&hidden, &waiting);
    let halves = last.halves;
    if groups > 1 {
        spine.push_subtree_by(&hidden, &last.whole, 3);
    }
    let whole = hidden.parent(&halves[0], &halves[1], 0);
    spine.push_subtree_by(&hidden, &whole, 3);
}

// Takes in bytes after `number` whole chunks: all but the last 1 to 8,192 go on the spine, and these go to the front
// of the buffer. Gives their number.
fn absorb(spine: &mut Spine, buffer: &mut [u8; 8192], number: u64, bytes: &[u8]) -> usize
    requires number { number ≡ spine.old.count }
    requires aligned { number % 8 ≡ 0 }
    requires some { 1 ≤ length bytes.now }
    requires room { 1024 * spine.old.count + length bytes.now < 2 ^ 64 }
    ensures used { result ≡ length bytes.now - 8192 * ((length bytes.now - 1) / 8192) }
    ensures count { spine.new.count ≡ spine.old.count + 8 * ((length bytes.now - 1) / 8192) }
    ensures held { (m : List ℕ) → 1024 * spine.old.count ≡ length m → IsPushed spine.old (leaves spine.old.count m 0)
        → IsHeld spine.new.levels spine.new.count buffer.new result (m ++ bytes.now) }
{
    let groups = (bytes.len() - 1) / 8192;
    push_groups(spine, number, bytes, groups);
    let tail = &bytes[8192 * groups..];
    buffer[..tail.len()].copy_from_slice(tail);
    tail.len()
}
