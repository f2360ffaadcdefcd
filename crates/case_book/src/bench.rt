//! What a script works on.

ghost use Rattle.std.specs.Prelude.{◌≤◌, ◌^◌};

use crate::words::{number, small_number};
use ddc_book::Book;
use ddc_disk::{Devices, MemDisk};
use ddc_model::Limits;

/// Devices in memory, or the store on them while it is open; the limits of a store, and the hour of a call.
#[derive(Drop)]
pub struct Bench {
    pub devices: Option<Devices<MemDisk>>,
    pub book: Option<Book<MemDisk>>,
    pub most: Most,
    pub hour: u32,
}

/// The limits that a script may set.
#[derive(Clone, Copy)]
pub struct Most {
    pub spaces: u32,
    pub blobs: u64,
    pub refs: u64,
    pub links: u64,
    pub units: u64,
    pub kept: u32,
    pub entries: u64,
    pub entry_links: u64,
}

impl Bench {
    pub fn new() -> Bench {
        Bench {
            devices: None,
            book: None,
            most: Most::standard(),
            hour: 0,
        }
    }
}

impl Most {
    /// Those of a store that is served.
    pub fn standard() -> Most {
        let limits = Limits::standard();
        Most {
            spaces: limits.spaces,
            blobs: limits.blobs,
            refs: limits.refs,
            links: limits.links,
            units: limits.units,
            kept: limits.kept,
            entries: limits.entries,
            entry_links: limits.entry_links,
        }
    }

    /// These, and the others of a store that is served.
    pub fn limits(&self) -> Limits
        ensures kept { 1 ≤ result.kept }
        ensures units { result.units ≤ 2 ^ 51 }
    {
        Limits {
            spaces: self.spaces,
            blobs: self.blobs,
            refs: self.refs,
            links: self.links,
            units: self.units.min(1 << 51),
            kept: self.kept.max(1),
            entries: self.entries,
            entry_links: self.entry_links,
            ..Limits::standard()
        }
    }

    /// Sets one of them.
    pub fn set(&mut self, what: &str, word: &str) {
        match what {
            "spaces" => self.spaces = small_number(word),
            "blobs" => self.blobs = number(word),
            "refs" => self.refs = number(word),
            "links" => self.links = number(word),
            "units" => self.units = number(word),
            "kept" => self.kept = small_number(word),
            "entries" => self.entries = number(word),
            "entry_links" => self.entry_links = number(word),
            _ => {}
        }
    }
}
