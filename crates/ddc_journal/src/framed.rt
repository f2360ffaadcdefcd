//! A body as it is written.

ghost use Rattle.std.specs.Prelude.{◌≡◌, ◌+◌, ◌^◌, ◌<◌, ◌++◌, ◌∷◌, [], length, IfOk};
ghost use Rattle.ddc_journal.specs.Journal.{framed};

use ddc_names::NoMemory;
use std::alloc::Global;
use std::marker::Model;

/// A body with its length in front and a closing gate after it, as `Journal::append` writes it.
/// Contracts see the body.
#[derive(Debug, Drop)]
pub struct Framed {
    bytes: Vec<u8>,
}

impl Model for Framed {
    ghost use Rattle.std.specs.Prelude.{◌≡◌, ◌++◌, ◌∷◌, [], ◌-◌, ◌^◌, ◌<◌, List, ℕ, length, take, drop};
    ghost use Rattle.ddc_journal.specs.Journal.{framed};

    ghost Value = { List ℕ };

    ghost view = { λ s. take (length s.bytes.items - 5) (drop 4 s.bytes.items) };

    ghost invariant = { λ s. (s.bytes.items ≡ framed (take (length s.bytes.items - 5) (drop 4 s.bytes.items)) ++ 0 ∷ []) × (length s.bytes.items < 2 ^ 32) };
}

impl Framed {
    /// The body, ready to be appended. It has fewer than 2^31 bytes.
    ///
    /// # Errors
    ///
    /// `NoMemory` where there is none for a copy.
    pub fn new(alloc: Global, body: &[u8]) -> Result<Framed, NoMemory>
        requires { length body.now < 2 ^ 31 }
        ensures { IfOk result (λ item. item ≡ body.now) }
    {
        Framed::joined(alloc, body, &[])
    }

    /// The body of two parts, ready to be appended. They have fewer than 2^31 bytes.
    ///
    /// # Errors
    ///
    /// `NoMemory` where there is none for a copy.
    pub fn joined(alloc: Global, front: &[u8], back: &[u8]) -> Result<Framed, NoMemory>
        requires { length front.now + length back.now < 2 ^ 31 }
        ensures { IfOk result (λ item. item ≡ front.now ++ back.now) }
    {
        let len = front.len() + back.len();
        let mut bytes = Vec::with_capacity(alloc, len + 5)?;
        bytes.extend_from_slice(&(len as u32).to_le_bytes())?;
        bytes.extend_from_slice(front)?;
        bytes.extend_from_slice(back)?;
        bytes.push(0)?;
        Ok(Framed { bytes })
    }

    pub(crate) fn as_bytes(&self) -> &[u8]
        ensures written { result.now ≡ framed self.now ++ 0 ∷ [] }
        ensures sized { length self.now < 2 ^ 32 }
    {
        &self.bytes
    }
}
