//! Each way to hash bytes, against the hashes of the first bytes of 0, 1, .., 250, 0, .. that `b3sum` prints.

ghost use Rattle.std.specs.Prelude.{◌<◌};

use blake3_hash::{Hasher, Parents, Spine, chunk_value, compress, hash, parent_value};
use blake3_lanes::{WideHasher, chunks8, hash as lanes_hash, parents8};
use std::alloc::{AllocError, Global};
use std::test::Fail;
use tree_hash::{flagged_parent, plain_hash};

/// Lengths, each with the hash of so many bytes in four parts.
pub const ROWS: [(usize, [u64; 4]); 20] = [
    (
        0,
        [
            0xaf1349b9f5f9a1a6,
            0xa0404dea36dcc949,
            0x9bcb25c9adc112b7,
            0xcc9a93cae41f3262,
        ],
    ),
    (
        1,
        [
            0x2d3adedff11b61f1,
            0x4c886e35afa03673,
            0x6dcd87a74d27b5c1,
            0x510225d0f592e213,
        ],
    ),
    (
        63,
        [
            0xe9bc37a594daad83,
            0xbe9470df7f7b3798,
            0x297c3d834ce80ba8,
            0x5d6e207627b7db7b,
        ],
    ),
    (
        64,
        [
            0x4eed7141ea4a5cd4,
            0xb788606bd23f46e2,
            0x12af9cacebacdc7d,
            0x1f4c6dc7f2511b98,
        ],
    ),
    (
        65,
        [
            0xde1e5fa0be70df6d,
            0x2be8fffd0e99ceaa,
            0x8eb6e8c93a63f2d8,
            0xd1c30ecb6b263dee,
        ],
    ),
    (
        127,
        [
            0xd81293fda863f008,
            0xc09e92fc382a81f5,
            0xa0b4a1251cba1634,
            0x016a0f86a6bd640d,
        ],
    ),
    (
        128,
        [
            0xf17e570564b26578,
            0xc33bb7f44643f539,
            0x624b05df1a76c81f,
            0x30acd548c44b45ef,
        ],
    ),
    (
        1023,
        [
            0x10108970eeda3eb9,
            0x32baac1428c7a216,
            0x3b0e924c9a9e25b3,
            0x5bba72b28f70bd11,
        ],
    ),
    (
        1024,
        [
            0x42214739f095a406,
            0xf3fc83deb889744a,
            0xc00df831c10daa55,
            0x189b5d121c855af7,
        ],
    ),
    (
        1025,
        [
            0xd00278ae47eb27b3,
            0x4faecf67b4fe263f,
            0x82d5412916c1ffd9,
            0x7c8cb7fb814b8444,
        ],
    ),
    (
        2048,
        [
            0xe776b6028c7cd22a,
            0x4d0ba182a8bf6220,
            0x5d2ef576467e838e,
            0xd6f2529b85fba24a,
        ],
    ),
    (
        2049,
        [
            0x5f4d72f40d7a5f82,
            0xb15ca2b2e44b1de3,
            0xc2ef86c426c95c1a,
            0xf0b6879522563030,
        ],
    ),
    (
        3072,
        [
            0xb98cb0ff3623be03,
            0x326b373de6b90952,
            0x18513e64f1ee2edd,
            0x2525c7ad1e5cffd2,
        ],
    ),
    (
        3073,
        [
            0x7124b49501012f81,
            0xcc7f11ca069ec922,
            0x6cecb8a2c850cfe6,
            0x44e327d22d3e1cd3,
        ],
    ),
    (
        4096,
        [
            0x015094013f57a527,
            0x7b59d8475c050104,
            0x2c0b642e531b0a1c,
            0x8f58d2163229e969,
        ],
    ),
    (
        8192,
        [
            0xaae792484c8efe4f,
            0x19e2ca7d371d8c46,
            0x7ffb10748d8a5a1a,
            0xe579948f718a2a63,
        ],
    ),
    (
        8193,
        [
            0xbab6c09cb8ce8cf4,
            0x59261398d2e7aef3,
            0x5700bf488116ceb9,
            0x4a36d0f5f1b7bc3b,
        ],
    ),
    (
        16384,
        [
            0xf875d6646de28985,
            0x646f34ee13be9a57,
            0x6fd515f76b5b0a26,
            0xbb324735041ddde4,
        ],
    ),
    (
        31744,
        [
            0x62b6960e1a44bcc1,
            0xeb1a611a8d6235b6,
            0xb4b78f32e7abc4fb,
            0x4c6cdcce94895c47,
        ],
    ),
    (
        102400,
        [
            0xbc3e3d41a1146b06,
            0x9abffad3c0d44860,
            0xcf664390afce4d96,
            0x61f7902e7943e085,
        ],
    ),
];

/// So many of the bytes 0, 1, .., 250, 0, ..
pub fn counted(alloc: Global, len: usize) -> Result<Vec<u8>, AllocError> {
    let mut bytes = Vec::new(alloc);
    for i in 0..len {
        bytes.push((i % 251) as u8)?;
    }
    Ok(bytes)
}

fn parts(hash: &[u8; 32]) -> [u64; 4] {
    let mut parts = [0u64; 4];
    for i in 0..32 {
        parts[i / 8] = (parts[i / 8] << 8) | hash[i] as u64;
    }
    parts
}

fn hash_of_pieces(bytes: &[u8], size: usize) -> [u8; 32]
    requires { 0 < size }
{
    let mut hasher = Hasher::new();
    let mut start = 0;
    'pieces: while start < bytes.len() {
        let len = size.min(bytes.len() - start);
        hasher.update(&bytes[start..start + len]);
        start += len;
    }
    hasher.finish()
}

fn wide_hash_of_pieces(bytes: &[u8], size: usize) -> [u8; 32]
    requires { 0 < size }
{
    let mut hasher = WideHasher::new();
    let mut start = 0;
    'pieces: while start < bytes.len() {
        let len = size.min(bytes.len() - start);
        hasher.update(&bytes[start..start + len]);
        start += len;
    }
    hasher.finish()
}

// Whether the bytes have this hash, in pieces of ten sizes.
fn have_in_pieces(bytes: &[u8], wanted: [u64; 4]) -> bool {
    for size in [1, 63, 64, 1023, 1024, 1025, 8191, 8192, 8193, 102_400] {
        if parts(&hash_of_pieces(bytes, size)) != wanted {
            return false;
        }
        if parts(&wide_hash_of_pieces(bytes, size)) != wanted {
            return false;
        }
    }
    true
}

#[test]
fn each_way_gives_the_hash_from_outside(rt: HostRuntime) -> Result<(), Fail> {
    for (len, wanted) in ROWS {
        let bytes = counted(rt.alloc(), len)?;
        assert_eq!(rt; parts(&hash(bytes.as_slice())), wanted, "{len}");
        assert_eq!(rt; parts(&plain_hash(bytes.as_slice())), wanted, "{len}");
        assert_eq!(rt; parts(&lanes_hash(bytes.as_slice())), wanted, "{len}");
        assert!(rt; have_in_pieces(bytes.as_slice(), wanted), "{len}");
    }
    Ok(())
}

// The chunk with this number of the bytes 0, 1, .., 250, 0, ..
fn counted_chunk(number: u8) -> [u8; 1024] {
    let mut chunk = [0u8; 1024];
    for i in 0..1024usize {
        chunk[i] = ((1024 * number as usize + i) % 251) as u8;
    }
    chunk
}

#[test]
fn spine_joins_chunk_values(rt: HostRuntime) -> Result<(), Fail> {
    let mut spine = Spine::new();
    spine.push(&chunk_value(&counted_chunk(0), 0));
    spine.push(&chunk_value(&counted_chunk(1), 1));
    spine.push(&chunk_value(&counted_chunk(2), 2));
    let found = spine.finish(&counted_chunk(3)[..1]);
    assert_eq!(rt; parts(&found)[0], 0x7124b49501012f81);
    let mut joined = Spine::new();
    let pair = parent_value(
        &chunk_value(&counted_chunk(0), 0),
        &chunk_value(&counted_chunk(1), 1),
    );
    joined.push_subtree(&pair, 1);
    joined.push(&chunk_value(&counted_chunk(2), 2));
    assert_eq!(rt; joined.finish(&counted_chunk(3)[..1]), found);
    Ok(())
}

// Parents by the plain program.
struct Plainly;

impl Parents for Plainly {
    fn parent(&self, left: &[u32; 8], right: &[u32; 8], root: u32) -> [u32; 8] {
        flagged_parent(left, right, root)
    }
}

#[test]
fn spine_joins_in_a_way_of_the_callers(rt: HostRuntime) {
    let mut spine = Spine::new();
    let pair = parent_value(
        &chunk_value(&counted_chunk(0), 0),
        &chunk_value(&counted_chunk(1), 1),
    );
    spine.push_subtree_by(&Plainly, &pair, 1);
    spine.push_subtree_by(&Plainly, &chunk_value(&counted_chunk(2), 2), 0);
    let found = spine.finish_by(&Plainly, &chunk_value(&counted_chunk(3)[..1], 3));
    assert_eq!(rt; parts(&found)[0], 0x7124b49501012f81);
}

// Each number of chunks that are hashed at the end, and one more, the last one whole or short.
#[test]
fn few_chunks_have_the_hash_of_the_definition(rt: HostRuntime) -> Result<(), Fail> {
    for chunks in 1..18usize {
        for len in [1024 * chunks - 1, 1024 * chunks, 1024 * chunks + 1] {
            let bytes = counted(rt.alloc(), len)?;
            let wanted = plain_hash(bytes.as_slice());
            assert!(rt;
                wide_hash_of_pieces(bytes.as_slice(), 20_000) == wanted,
                "{len}"
            );
            assert!(rt; lanes_hash(bytes.as_slice()) == wanted, "{len}");
        }
    }
    Ok(())
}

// A block of no bytes, as the first and last one of the root: the hash of no bytes, in little-endian words.
#[test]
fn one_block_is_compressed(rt: HostRuntime) {
    const IV: [u32; 8] = [
        0x6A09E667, 0xBB67AE85, 0x3C6EF372, 0xA54FF53A, 0x510E527F, 0x9B05688C, 0x1F83D9AB,
        0x5BE0CD19,
    ];
    let words = compress(&IV, &[0; 64], 0, 0, 11);
    assert_eq!(rt; (words[0], words[7]), (0xb94913af, 0x62321fe4));
}

// Eight chunks of the bytes 0, 1, .., 250, 0, ..
fn eight_chunks() -> [u8; 8192] {
    let mut chunks = [0u8; 8192];
    for i in 0..8192usize {
        chunks[i] = (i % 251) as u8;
    }
    chunks
}

#[test]
fn lanes_are_the_plain_values(rt: HostRuntime) {
    let input = eight_chunks();
    let first = 0xFFFF_FFFD;
    let values = chunks8(&input, first);
    let mut turned = values;
    turned.reverse();
    let parents = parents8(&values, &turned);
    for k in 0..8usize {
        let plain = chunk_value(&input[1024 * k..1024 * k + 1024], first + k as u64);
        assert!(rt; values[k] == plain, "lane {k}");
        assert!(rt; parents[k] == parent_value(&plain, &turned[k]), "lane {k}");
    }
}
