//! The known hashes by their numbers.

ghost use Rattle.std.specs.Prelude.{◌≡◌, ◌+◌, ◌-◌, ◌^◌, ◌≤◌, ◌<◌, ◌++◌, ◌∷◌, [], Some, None, OnOk, OnErr, true, false, length, slice_index_or};
ghost use Rattle.std.specs.Ordering.{is_lt};
ghost use Rattle.ddc_names.specs.declared.hash.IoHash.{IoHash};
ghost use Rattle.ddc_names.specs.Orders.{io_hash_cmp};
ghost use Rattle.collector.specs.Marks.{number_in};
ghost use Rattle.collector.specs.inside.Tables.{IsNoneOfFirst, AreAscendingTo, AreDistinct};

use ddc_names::{IoHash, NoMemory};
use std::alloc::Global;
use std::cmp::Ordering;
use std::marker::Model;

// A number is a place in the list. The first `sorted` hashes ascend, and those that came later stand in no order.
// Contracts see the list, and for how many hashes more there is room.
#[derive(Drop)]
pub(crate) struct Numbers {
    hashes: Vec<IoHash>,
    sorted: usize,
    spare: usize,
}

impl Model for Numbers {
    ghost use Rattle.std.specs.Prelude.{◌≡◌, ◌+◌, ◌≤◌, ◌<◌, ◌^◌, length};
    ghost use Rattle.std.specs.Vec.{vec_capacity};
    ghost use Rattle.collector.specs.inside.Tables.{NumbersView, AreDistinct, AreAscendingTo, coded_numbers};

    ghost Value = { NumbersView };

    ghost coded = { coded_numbers };

    ghost view = { λ n. record { hashes = n.hashes.items; spare = n.spare } };

    ghost invariant = { λ n. record { distinct : AreDistinct n.hashes.items; ascending : AreAscendingTo n.sorted n.hashes.items; sorted : n.sorted ≤ length n.hashes.items; room : length n.hashes.items + n.spare ≤ vec_capacity n.hashes; numbers : length n.hashes.items + n.spare < 2 ^ 32 } };
}

impl Numbers {
    pub(crate) fn new(alloc: Global) -> Numbers
        ensures hashes { result.hashes ≡ [] }
        ensures spare { result.spare ≡ 0 }
    {
        Numbers {
            hashes: Vec::new(alloc),
            sorted: 0,
            spare: 0,
        }
    }

    // Takes the memory of so many hashes more at once.
    pub(crate) fn grow(&mut self, count: usize) -> Result<(), NoMemory>
        ensures { self.new ≡ self.old }
    {
        self.hashes.reserve_exact(count)?;
        Ok(())
    }

    // Takes room for one hash more.
    pub(crate) fn reserve_one(&mut self) -> Result<(), NoMemory>
        ensures hashes { self.new.hashes ≡ self.old.hashes }
        ensures ok { OnOk result (self.new.spare ≡ self.old.spare + 1) }
        ensures few { OnOk result (self.new.spare < 2 ^ 32) }
        ensures err { OnErr result (self.new.spare ≡ self.old.spare) }
    {
        if self.hashes.len() + self.spare >= u32::MAX as usize {
            return Err(NoMemory);
        }
        let spare = self.spare + 1;
        self.hashes.reserve(spare)?;
        self.spare = spare;
        Ok(())
    }

    // How many hashes there are.
    pub(crate) fn len(&self) -> u32
        ensures { result ≡ length self.now.hashes }
    {
        self.hashes.len() as u32
    }

    // The number of a hash.
    pub(crate) fn find(&self, hash: &IoHash) -> Option<u32>
        ensures { result ≡ number_in self.now.hashes hash.now }
    {
        let hashes = self.hashes.as_slice();
        match hashes[..self.sorted].binary_search(hash) {
            Ok(number) => Some(number as u32),
            Err(_) => find_from(hashes, self.sorted, hash),
        }
    }

    // The hash of a number.
    pub(crate) fn hash(&self, number: u32) -> IoHash
        requires { number < length self.now.hashes }
        ensures { number_in self.now.hashes result ≡ Some number }
    {
        self.hashes[number as usize]
    }

    // Gives a hash the next number.
    pub(crate) fn add(&mut self, hash: IoHash)
        requires absent { number_in self.old.hashes hash ≡ None }
        requires room { 1 ≤ self.old.spare }
        ensures hashes { self.new.hashes ≡ self.old.hashes ++ hash ∷ [] }
        ensures spare { self.new.spare + 1 ≡ self.old.spare }
        ensures distinct { AreDistinct self.new.hashes }
    {
        let sorted = sorted_with(&self.hashes, self.sorted, &hash);
        let Ok(()) = self.hashes.push(hash) else {
            unreachable!();
        };
        self.sorted = sorted;
        self.spare -= 1;
    }
}

// The number of a hash, which none before a place is.
fn find_from(hashes: &[IoHash], from: usize, hash: &IoHash) -> Option<u32>
    requires absent { IsNoneOfFirst from hashes.now hash.now }
    requires few { length hashes.now < 2 ^ 32 }
    ensures { result ≡ number_in hashes.now hash.now }
{
    for number in from..hashes.len() {
        if let Ordering::Equal = hash.cmp(&hashes[number]) {
            return Some(number as u32);
        }
    }
    None
}

// How many of the first hashes ascend once one more stands at the end.
fn sorted_with(hashes: &[IoHash], sorted: usize, hash: &IoHash) -> usize
    requires sorted { sorted ≤ length hashes.now }
    requires ascending { AreAscendingTo sorted hashes.now }
    requires few { length hashes.now < 2 ^ 32 }
    ensures sorted { result ≤ length hashes.now + 1 }
    ensures ascending { AreAscendingTo result (hashes.now ++ hash.now ∷ []) }
{
    if sorted == hashes.len() && takes_next(hashes, hash) {
        sorted + 1
    } else {
        sorted
    }
}

// Whether a hash isn't below the last.
fn takes_next(hashes: &[IoHash], hash: &IoHash) -> bool
    ensures { result ≡ true → (d : IoHash) → 0 < length hashes.now → is_lt (io_hash_cmp hash.now (slice_index_or hashes.now (length hashes.now - 1) d)) ≡ false }
{
    if hashes.is_empty() {
        return true;
    }
    !matches!(hash.cmp(&hashes[hashes.len() - 1]), Ordering::Less)
}
