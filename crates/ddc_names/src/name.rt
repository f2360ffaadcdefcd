//! The names of namespaces and buckets.

ghost use Rattle.std.specs.Prelude.{◌≡◌, ◌≤◌, ◌&&◌, nat_eq, nat_lt, true, length, None, Some, IfOk, IfErr, OnOk, refl};
ghost use Rattle.std.specs.Ordering.{nat_cmp};
ghost use Rattle.std.specs.Cmp.{partial_equiv_from_equiv};
ghost use Rattle.std.specs.Cmp.Lexicographic.{pointwise, slice_cmp, nat_list_eq_equiv, nat_list_cmp_total, texts_po, texts_ties};
ghost use Rattle.ddc_names.specs.Texts.{is_name, is_name_byte_at, name_fault, in_64_bytes, BreaksName};
ghost use Rattle.ddc_names.specs.Names.{name_of};

use std::cmp::Ordering;
use std::marker::Model;
use std::{fmt, str};

/// A text is no name.
#[derive(Clone, Copy, Debug, PartialEq, Eq)]
pub struct BadName {
    /// The least place, in bytes, at which the text breaks the rule.
    pub at: u32,
}

// A name's text in a fixed array, with zeros after it.
#[derive(Clone, Copy)]
struct Name {
    bytes: [u8; 64],
    len: u8,
}

impl Model for Name {
    ghost use Rattle.std.specs.Prelude.{ℕ, List, length, take};
    ghost use Rattle.std.proofs.Common.{sym};
    ghost use Rattle.ddc_names.specs.Texts.{in_64_bytes, IsNamed};

    ghost Value = { List ℕ };

    ghost view = { λ name. take name.len name.bytes };

    ghost invariant = { λ name. IsNamed name.bytes name.len };

    ghost inverse = { λ text. record { bytes = in_64_bytes text; len = length text } };

    ghost inverse_ok = { λ name h i. record { bytes = sym h.zeros i; len = sym h.counted i } };
}

impl Name {
    fn parse(text: &str) -> Result<Name, BadName>
        ensures read { result ≡ name_of text.now }
        ensures text { IfOk result (λ name. name ≡ text.now) }
        ensures named { OnOk result (is_name text.now ≡ true) }
        ensures fault { IfErr result (λ fault. BreaksName text.now fault.at) }
        ensures scanned { OnOk result (name_fault text.now ≡ None) }
        ensures scan { IfErr result (λ fault. name_fault text.now ≡ Some fault.at) }
    {
        let text = text.as_bytes();
        if let Some(at) = find_fault(text) {
            return Err(BadName { at });
        }
        Ok(Name {
            bytes: pad(text),
            len: text.len() as u8,
        })
    }

    fn as_bytes(&self) -> &[u8]
        ensures text { result.now ≡ self.now }
        ensures named { name_fault result.now ≡ None }
    {
        &self.bytes[..self.len as usize]
    }

    #[tactic(auto, using(crate::proofs::Laws::name_by_scan))]
    fn as_str(&self) -> &str
        ensures text { result.now ≡ self.now }
        ensures named { name_fault result.now ≡ None }
        ensures rule { is_name result.now ≡ true }
    {
        match str::from_utf8(self.as_bytes()) {
            Ok(text) => text,
            Err(_) => unreachable!(),
        }
    }
}

impl PartialEq for Name {
    ghost eq = { λ a b. pointwise nat_eq a b };

    ghost laws = { partial_equiv_from_equiv nat_list_eq_equiv };

    fn eq(&self, other: &Name) -> bool {
        self.as_bytes() == other.as_bytes()
    }
}

impl Eq for Name {
    ghost laws = { nat_list_eq_equiv };
}

impl PartialOrd for Name {
    ghost partial_cmp = { λ a b. Some (slice_cmp nat_cmp a b) };

    ghost laws = { texts_po };

    fn partial_cmp(&self, other: &Name) -> Option<Ordering> {
        Some(self.cmp(other))
    }
}

impl Ord for Name {
    ghost cmp = { λ a b. slice_cmp nat_cmp a b };

    ghost total = { nat_list_cmp_total };

    ghost matches_partial_cmp = { λ a b. refl };

    ghost matches_eq = { λ a b. texts_ties a b };

    fn cmp(&self, other: &Name) -> Ordering {
        self.as_bytes().cmp(other.as_bytes())
    }
}

impl fmt::Debug for Name {
    fn fmt<W: fmt::Write>(&self, f: &mut fmt::Formatter<W>) -> fmt::Result {
        fmt::Debug::fmt(&self.as_str(), f)
    }
}

/// A namespace's name: 1 to 64 ASCII letters, digits, `-`, `_` and `.`, of which the first is a
/// letter or a digit. Names are ordered by their bytes.
#[derive(Clone, Copy, Debug, PartialEq, Eq, PartialOrd, Ord)]
pub struct Namespace {
    name: Name,
}

impl Model for Namespace {
    ghost use Rattle.std.specs.Prelude.{ℕ, List};

    ghost Value = { List ℕ };

    ghost view = { λ space. space.name };

    ghost inverse = { λ text. record { name = text } };
}

impl Namespace {
    /// The namespace that a text spells.
    ///
    /// # Errors
    ///
    /// `BadName` with the least place at which the text breaks the rule: a byte that isn't allowed
    /// there, 64 where the text is longer, 0 where it is empty.
    pub fn parse(text: &str) -> Result<Namespace, BadName>
        ensures read { result ≡ name_of text.now }
        ensures text { IfOk result (λ name. name ≡ text.now) }
        ensures named { OnOk result (is_name text.now ≡ true) }
        ensures fault { IfErr result (λ fault. BreaksName text.now fault.at) }
        ensures scanned { OnOk result (name_fault text.now ≡ None) }
        ensures scan { IfErr result (λ fault. name_fault text.now ≡ Some fault.at) }
    {
        match Name::parse(text) {
            Ok(name) => Ok(Namespace { name }),
            Err(fault) => Err(fault),
        }
    }

    /// The name's text.
    pub fn as_str(&self) -> &str
        ensures text { result.now ≡ self.now }
        ensures named { name_fault result.now ≡ None }
        ensures rule { is_name result.now ≡ true }
    {
        self.name.as_str()
    }
}

/// A bucket's name, by the rule of a namespace's.
#[derive(Clone, Copy, Debug, PartialEq, Eq, PartialOrd, Ord)]
pub struct Bucket {
    name: Name,
}

impl Model for Bucket {
    ghost use Rattle.std.specs.Prelude.{ℕ, List};

    ghost Value = { List ℕ };

    ghost view = { λ bucket. bucket.name };

    ghost inverse = { λ text. record { name = text } };
}

impl Bucket {
    /// The bucket that a text spells.
    ///
    /// # Errors
    ///
    /// `BadName` as at `Namespace::parse`.
    pub fn parse(text: &str) -> Result<Bucket, BadName>
        ensures read { result ≡ name_of text.now }
        ensures text { IfOk result (λ name. name ≡ text.now) }
        ensures named { OnOk result (is_name text.now ≡ true) }
        ensures fault { IfErr result (λ fault. BreaksName text.now fault.at) }
        ensures scanned { OnOk result (name_fault text.now ≡ None) }
        ensures scan { IfErr result (λ fault. name_fault text.now ≡ Some fault.at) }
    {
        match Name::parse(text) {
            Ok(name) => Ok(Bucket { name }),
            Err(fault) => Err(fault),
        }
    }

    /// The name's text.
    pub fn as_str(&self) -> &str
        ensures text { result.now ≡ self.now }
        ensures named { name_fault result.now ≡ None }
        ensures rule { is_name result.now ≡ true }
    {
        self.name.as_str()
    }
}

fn is_allowed(at: usize, byte: u8) -> bool
    ensures { result ≡ (nat_lt at 64 && is_name_byte_at at byte) }
{
    at < 64 && (byte.is_ascii_alphanumeric() || (at > 0 && matches!(byte, b'-' | b'_' | b'.')))
}

// The least place at which a text is no name.
fn find_fault(text: &[u8]) -> Option<u32>
    ensures { result ≡ name_fault text.now }
{
    for (at, byte) in text.iter().enumerate() {
        if !is_allowed(at, *byte) {
            return Some(at as u32);
        }
    }
    if text.is_empty() { Some(0) } else { None }
}

#[tactic(auto, using(crate::proofs::Padding::in_64_bytes_by))]
fn pad(text: &[u8]) -> [u8; 64]
    requires { length text.now ≤ 64 }
    ensures { result ≡ in_64_bytes text.now }
{
    let mut bytes = [0; 64];
    bytes[..text.len()].copy_from_slice(text);
    bytes
}
