//! The bytes of a file, as reads and writes change them.

ghost use Rattle.std.specs.Prelude.{◌≡◌, ◌+◌, IfOk, EachIndex, slice_index};
ghost use Rattle.ddc_disk.specs.Disk.{overwritten};

use std::alloc::{AllocError, Global};

// The file after a write.
pub(crate) fn overwrite(
    alloc: Global,
    file: &[u8],
    at: usize,
    bytes: &[u8],
) -> Result<Vec<u8>, AllocError>
    ensures { IfOk result (λ next. next.items ≡ overwritten file.now at bytes.now) }
{
    let Some(end) = at.checked_add(bytes.len()) else {
        return Err(AllocError);
    };
    let mut next = file.to_vec(alloc)?;
    next.resize(at, 0)?;
    next.extend_from_slice(bytes)?;
    if end < file.len() {
        next.extend_from_slice(&file[end..])?;
    }
    Ok(next)
}

// Reads from a place on, and 0 past the end.
pub(crate) fn read_window(file: &[u8], at: usize, into: &mut [u8])
    ensures { EachIndex into.new (λ k. slice_index into.new k ≡ slice_index file.now (at + k)) }
{
    let behind = if at < file.len() {
        &file[at..]
    } else {
        &file[..0]
    };
    for (i, byte) in into.iter_mut().enumerate() {
        *byte = if i < behind.len() { behind[i] } else { 0 };
    }
}
