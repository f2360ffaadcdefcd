//! What holds of the value of every list of bytes: the two equations of the tree (BLAKE3 specification, section 2.1).

ghost use Rattle.std.specs.Prelude.{◌≡◌, ℕ, ◌+◌, ◌*◌, ◌^◌, ◌<◌, ◌≤◌, List, length, take, drop};
ghost use Rattle.tree_hash.specs.TreeHash.{IsLeft, chunk_value, parent_value, value};

/// Proves that the value of at most 1,024 bytes is that of their one chunk. It does nothing.
pub fn one_chunk()
    ensures { (b : List ℕ) (n flag : ℕ) → length b ≤ 1024 → value b n flag ≡ chunk_value b n flag }
{}

/// Proves that the value of more bytes is that of the parent of two parts: to the left the greatest power of two of
/// whole chunks that leaves a byte, and to the right each other byte; and that there is such a power. It does nothing.
pub fn left_and_right()
    ensures cut { (b : List ℕ) (n flag d : ℕ) → IsLeft d (length b)
        → value b n flag ≡ parent_value (value (take (1024 * 2 ^ d) b) n 0) (value (drop (1024 * 2 ^ d) b) (n + 2 ^ d) 0) flag }
    ensures some { (len : ℕ) → 1024 < len → (d : ℕ) × IsLeft d len }
{}
