// The compression of one block, and the values of a chunk and of a parent.
ghost use Rattle.std.specs.Prelude.{◌≡◌, ℕ, ◌+◌, ◌-◌, ◌*◌, ◌/◌, ◌%◌, ◌^◌, ◌<◌, ◌≤◌, length};
ghost use Rattle.tree_hash.specs.TreeHash.{block_words, chunk_value, compress, compress_words, folded, half_mix, mix, padded, parent_value, permute, round, start_flag, start_state, word_at};

const IV: [u32; 8] = [
    0x6A09E667, 0xBB67AE85, 0x3C6EF372, 0xA54FF53A, 0x510E527F, 0x9B05688C, 0x1F83D9AB, 0x5BE0CD19,
];

// Half of the function G (BLAKE3 specification, section 2.2).
#[tactic(auto, unfolding(crate::specs::TreeHash::half_mix))]
#[inline(always)]
fn half_mix(v: &mut [u32; 16], a: usize, b: usize, c: usize, d: usize, x: u32, r: u32, s: u32)
    requires a_in { a < 16 }
    requires b_in { b < 16 }
    requires c_in { c < 16 }
    requires d_in { d < 16 }
    ensures { v.new ≡ half_mix v.old a b c d x r s }
{
    v[a] = v[a].wrapping_add(v[b]).wrapping_add(x);
    v[d] = (v[d] ^ v[a]).rotate_right(r);
    v[c] = v[c].wrapping_add(v[d]);
    v[b] = (v[b] ^ v[c]).rotate_right(s);
}

#[tactic(auto, unfolding(crate::specs::TreeHash::mix))]
#[inline(always)]
fn mix(v: &mut [u32; 16], a: usize, b: usize, c: usize, d: usize, x: u32, y: u32)
    requires a_in { a < 16 }
    requires b_in { b < 16 }
    requires c_in { c < 16 }
    requires d_in { d < 16 }
    ensures { v.new ≡ mix v.old a b c d x y }
{
    half_mix(v, a, b, c, d, x, 16, 12);
    half_mix(v, a, b, c, d, y, 8, 7);
}

#[tactic(auto, unfolding(crate::specs::TreeHash::round))]
#[inline(always)]
fn round(v: &mut [u32; 16], m: &[u32; 16])
    ensures { v.new ≡ round v.old m.now }
{
    mix(v, 0, 4, 8, 12, m[0], m[1]);
    mix(v, 1, 5, 9, 13, m[2], m[3]);
    mix(v, 2, 6, 10, 14, m[4], m[5]);
    mix(v, 3, 7, 11, 15, m[6], m[7]);
    mix(v, 0, 5, 10, 15, m[8], m[9]);
    mix(v, 1, 6, 11, 12, m[10], m[11]);
    mix(v, 2, 7, 8, 13, m[12], m[13]);
    mix(v, 3, 4, 9, 14, m[14], m[15]);
}

#[tactic(auto, unfolding(crate::specs::TreeHash::permute))]
#[inline(always)]
fn permute(m: &[u32; 16]) -> [u32; 16]
    ensures { result ≡ permute m.now }
{
    [
        m[2], m[6], m[3], m[10], m[7], m[0], m[4], m[13], m[1], m[11], m[12], m[5], m[9], m[14],
        m[15], m[8],
    ]
}

#[inline(always)]
fn load_le(block: &[u8], i: usize) -> u32
    requires { i + 4 ≤ length block.now }
    ensures { result ≡ word_at block.now i }
{
    u32::from_le_bytes([block[i], block[i + 1], block[i + 2], block[i + 3]])
}

#[tactic(auto, unfolding(crate::specs::TreeHash::block_words))]
#[inline(always)]
fn block_words(block: &[u8]) -> [u32; 16]
    requires { length block.now ≡ 64 }
    ensures { result ≡ block_words block.now }
{
    [
        load_le(block, 0),
        load_le(block, 4),
        load_le(block, 8),
        load_le(block, 12),
        load_le(block, 16),
        load_le(block, 20),
        load_le(block, 24),
        load_le(block, 28),
        load_le(block, 32),
        load_le(block, 36),
        load_le(block, 40),
        load_le(block, 44),
        load_le(block, 48),
        load_le(block, 52),
        load_le(block, 56),
        load_le(block, 60),
    ]
}

#[inline(always)]
fn start_state(h: &[u32; 8], counter: u64, len: u32, flags: u32) -> [u32; 16]
    ensures { result ≡ start_state h.now counter len flags }
{
    let low = (counter % 0x1_0000_0000) as u32;
    let high = (counter / 0x1_0000_0000) as u32;
    [
        h[0], h[1], h[2], h[3], h[4], h[5], h[6], h[7], 0x6A09E667, 0xBB67AE85, 0x3C6EF372,
        0xA54FF53A, low, high, len, flags,
    ]
}

#[tactic(auto, unfolding(crate::specs::TreeHash::folded))]
#[inline(always)]
fn folded(v: &[u32; 16]) -> [u32; 8]
    ensures { result ≡ folded v.now }
{
    [
        v[0] ^ v[8],
        v[1] ^ v[9],
        v[2] ^ v[10],
        v[3] ^ v[11],
        v[4] ^ v[12],
        v[5] ^ v[13],
        v[6] ^ v[14],
        v[7] ^ v[15],
    ]
}

#[tactic(auto, unfolding(crate::specs::TreeHash::compress_words, crate::specs::TreeHash::rounds))]
#[inline(always)]
fn compress_words(h: &[u32; 8], m: &[u32; 16], counter: u64, len: u32, flags: u32) -> [u32; 8]
    ensures { result ≡ compress_words h.now m.now counter len flags }
{
    let mut v = start_state(h, counter, len, flags);
    round(&mut v, m);
    let m = permute(m);
    round(&mut v, &m);
    let m = permute(&m);
    round(&mut v, &m);
    let m = permute(&m);
    round(&mut v, &m);
    let m = permute(&m);
    round(&mut v, &m);
    let m = permute(&m);
    round(&mut v, &m);
    let m = permute(&m);
    round(&mut v, &m);
    folded(&v)
}

/// The compression of a block (BLAKE3 specification, section 2.2), cut to eight words: `cv` is the chaining value,
/// `counter` the chunk's number, `len` the block's length in bytes before it was filled with zeros, and `flags` the
/// sum of its flags.
pub fn compress(cv: &[u32; 8], block: &[u8; 64], counter: u64, len: u32, flags: u32) -> [u32; 8]
    ensures { result ≡ compress cv.now block.now counter len flags }
{
    compress_words(cv, &block_words(block), counter, len, flags)
}

#[inline(always)]
fn compress_block(h: &[u32; 8], block: &[u8], counter: u64, len: u32, flags: u32) -> [u32; 8]
    requires { length block.now ≡ 64 }
    ensures { result ≡ compress h.now block.now counter len flags }
{
    compress_words(h, &block_words(block), counter, len, flags)
}

// The bytes, and zeros up to a whole block.
fn padded(bytes: &[u8]) -> [u8; 64]
    requires { length bytes.now ≤ 64 }
    ensures { result ≡ padded bytes.now }
{
    let mut block = [0u8; 64];
    block[..bytes.len()].copy_from_slice(bytes);
    block
}

// CHUNK_START for the first block of a chunk.
fn start_flag(k: usize) -> u32
    ensures value { result ≡ start_flag k }
    ensures small { result ≤ 1 }
{
    if k == 0 { 1 } else { 0 }
}

/// The value of the chunk with the number `number` (BLAKE3 specification, section 2.4); `root` is the flag ROOT, 8, or 0.
pub fn flagged_chunk(bytes: &[u8], number: u64, root: u32) -> [u32; 8]
    requires len { length bytes.now ≤ 1024 }
    requires root { root ≤ 8 }
    ensures { result ≡ chunk_value bytes.now number root }
{
    let whole = bytes.len().saturating_sub(1) / 64;
    let mut h = IV;
    for k in 0..whole {
        h = compress_block(&h, &bytes[64 * k..64 * k + 64], number, 64, start_flag(k));
    }
    let last = &bytes[64 * whole..];
    compress_block(
        &h,
        &padded(last),
        number,
        last.len() as u32,
        start_flag(whole) + 2 + root,
    )
}

/// The chaining value of the chunk with the number `number` that isn't the root (BLAKE3 specification, section 2.4).
pub fn chunk_value(chunk: &[u8], number: u64) -> [u32; 8]
    requires some { 1 ≤ length chunk.now }
    requires len { length chunk.now ≤ 1024 }
    ensures { result ≡ chunk_value chunk.now number 0 }
{
    flagged_chunk(chunk, number, 0)
}

/// The value of a parent (BLAKE3 specification, section 2.5); `root` is the flag ROOT, 8, or 0.
#[tactic(auto, unfolding(crate::specs::TreeHash::parent_value))]
pub fn flagged_parent(left: &[u32; 8], right: &[u32; 8], root: u32) -> [u32; 8]
    requires { root ≤ 8 }
    ensures { result ≡ parent_value left.now right.now root }
{
    let m = [
        left[0], left[1], left[2], left[3], left[4], left[5], left[6], left[7], right[0], right[1],
        right[2], right[3], right[4], right[5], right[6], right[7],
    ];
    compress_words(&IV, &m, 0, 64, 4 + root)
}

/// The chaining value of a parent that isn't the root (BLAKE3 specification, section 2.5).
pub fn parent_value(left: &[u32; 8], right: &[u32; 8]) -> [u32; 8]
    ensures { result ≡ parent_value left.now right.now 0 }
{
    flagged_parent(left, right, 0)
}
