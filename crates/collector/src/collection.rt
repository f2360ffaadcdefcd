//! The marks of a collection.

ghost use Rattle.std.specs.Prelude.{◌≡◌, ◌+◌, ◌≤◌, ◌<◌, true, false, not, [], None, Some, OnOk, OnErr, length};
ghost use Rattle.cb_fields.specs.declared.links.Link.{Link};
ghost use Rattle.cb_fields.specs.declared.links.LinkKind.TheVariants.{Object, Binary};
ghost use Rattle.collector.specs.Marks.{number_in, knows, is_safe, NoneGrey};
ghost use Rattle.collector.specs.Cover.{IsShaded, StaysCovered};
ghost use Rattle.collector.specs.Sweeping.{IsPhase};
ghost use Rattle.collector.specs.inside.Steps.{IsEntered, IsGreyed, IsGreyedIf, PicksOf, PicksNode, AreMetBy, is_safe_by};

use crate::Phase;
use crate::nodes::Nodes;
use crate::numbers::Numbers;
use cb_fields::{Link, LinkKind};
use ddc_names::{IoHash, Namespace, NoMemory};
use std::alloc::Global;
use std::marker::Model;

/// The marks of a collection of a namespace. Contracts see which blobs it knows, how their nodes are marked, and for how
/// many blobs more it has room.
#[derive(Drop)]
pub struct Collection {
    space: Namespace,
    hour: u32,
    numbers: Numbers,
    objects: Nodes,
    binaries: Nodes,
    spare: usize,
    ended: bool,
}

impl Model for Collection {
    ghost use Rattle.std.specs.Prelude.{◌≡◌, ◌≤◌, ℕ, true, false, length};
    ghost use Rattle.collector.specs.Marks.{Marks, coded_marks};
    ghost use Rattle.collector.specs.inside.Tables.{grey_at, AreDistinct};

    ghost Value = { Marks };

    ghost coded = { coded_marks };

    ghost view = { λ c. record { space = c.space; hour = c.hour; hashes = c.numbers.hashes; objects = c.objects.marks; binaries = c.binaries.marks; spare = c.spare; ended = c.ended } };

    ghost invariant = { λ c. record { distinct : AreDistinct c.numbers.hashes; objects : length c.objects.marks ≡ length c.numbers.hashes; binaries : length c.binaries.marks ≡ length c.numbers.hashes; hash_room : c.spare ≤ c.numbers.spare; object_room : c.spare ≤ c.objects.spare; binary_room : c.spare ≤ c.binaries.spare; ended : c.ended ≡ true → (number : ℕ) → record { object : grey_at c.objects.marks number ≡ false; binary : grey_at c.binaries.marks number ≡ false } } };
}

impl Collection {
    // A collection that knows no blob.
    pub(crate) fn new(alloc: Global, space: Namespace, hour: u32) -> Collection
        ensures space { result.space ≡ space }
        ensures hour { result.hour ≡ hour }
        ensures hashes { result.hashes ≡ [] }
        ensures ended { result.ended ≡ false }
    {
        Collection {
            space,
            hour,
            numbers: Numbers::new(alloc),
            objects: Nodes::new(alloc),
            binaries: Nodes::new(alloc),
            spare: 0,
            ended: false,
        }
    }

    // The namespace.
    pub(crate) fn space(&self) -> Namespace
        ensures { result ≡ self.now.space }
    {
        self.space
    }

    // The hour, since 1970.
    pub(crate) fn hour(&self) -> u32
        ensures { result ≡ self.now.hour }
    {
        self.hour
    }

    // Takes the memory of so many blobs more at once.
    pub(crate) fn grow(&mut self, count: usize) -> Result<(), NoMemory>
        ensures { self.new ≡ self.old }
    {
        self.numbers.grow(count)?;
        self.objects.grow(count)?;
        self.binaries.grow(count)?;
        Ok(())
    }

    /// Takes room for one blob more.
    ///
    /// # Errors
    ///
    /// `NoMemory` where there is none, or where 2^32 - 1 blobs are known. The collection is then as before.
    pub fn reserve_one(&mut self) -> Result<(), NoMemory>
        ensures ok { OnOk result (self.new ≡ record self.old { spare = self.old.spare + 1 }) }
        ensures err { OnErr result (self.new ≡ self.old) }
    {
        self.numbers.reserve_one()?;
        self.objects.reserve_one()?;
        self.binaries.reserve_one()?;
        self.spare += 1;
        Ok(())
    }

    /// Makes a node grey, also where it is marked. A blob that wasn't known is known then.
    pub fn shade(&mut self, kind: LinkKind, hash: IoHash)
        requires { knows self.old hash ≡ false → 1 ≤ self.old.spare }
        ensures shaded { let node : Link = record { kind = kind; hash = hash } in IsShaded self.old node self.new }
        ensures cover { StaysCovered self.old self.new }
    {
        let number = self.number_for(hash);
        self.shade_number(Link { kind, hash }, number);
    }

    /// Where the collection stands.
    pub fn phase(&self) -> Phase
        ensures { IsPhase self.now result }
    {
        if !self.objects.is_idle() {
            return Phase::Marking;
        }
        if !self.binaries.is_idle() {
            return Phase::Marking;
        }
        if self.ended {
            Phase::Done
        } else {
            Phase::Sweeping
        }
    }

    // The number of a blob, which is known then.
    fn number_for(&mut self, hash: IoHash) -> u32
        requires { knows self.old hash ≡ false → 1 ≤ self.old.spare }
        ensures number { number_in self.new.hashes hash ≡ Some result }
        ensures entered { IsEntered self.old hash self.new }
    {
        match self.numbers.find(&hash) {
            Some(number) => number,
            None => self.know(hash),
        }
    }

    // Gives a blob that isn't known a number.
    pub(crate) fn know(&mut self, hash: IoHash) -> u32
        requires absent { knows self.old hash ≡ false }
        requires room { 1 ≤ self.old.spare }
        ensures number { number_in self.new.hashes hash ≡ Some result }
        ensures entered { IsEntered self.old hash self.new }
    {
        let number = self.numbers.len();
        self.numbers.add(hash);
        self.objects.add();
        self.binaries.add();
        self.spare -= 1;
        number
    }

    // Makes the node of a number grey.
    fn shade_number(&mut self, node: Link, number: u32)
        requires { number_in self.old.hashes node.hash ≡ Some number }
        ensures { IsGreyed self.old node self.new }
    {
        self.ended = false;
        match node.kind {
            LinkKind::Object => self.objects.shade(number),
            LinkKind::Binary => self.binaries.shade(number),
        }
    }

    // Makes a node grey, where its blob is known.
    pub(crate) fn shade_known(&mut self, kind: LinkKind, hash: &IoHash)
        ensures { let node : Link = record { kind = kind; hash = hash.now } in IsGreyedIf (knows self.old hash.now) self.old node self.new }
    {
        if let Some(number) = self.numbers.find(hash) {
            self.shade_number(Link { kind, hash: *hash }, number);
        }
    }

    // Takes a grey node, and marks it.
    pub(crate) fn pick(&mut self) -> Option<Link>
        ensures { PicksNode self.old result self.new }
    {
        match self.pick_object() {
            Some(node) => Some(node),
            None => self.pick_binary(),
        }
    }

    fn pick_object(&mut self) -> Option<Link>
        ensures { PicksOf Object self.old result self.new }
    {
        let number = self.objects.take()?;
        let hash = self.numbers.hash(number);
        self.ended = false;
        Some(Link {
            kind: LinkKind::Object,
            hash,
        })
    }

    fn pick_binary(&mut self) -> Option<Link>
        ensures { PicksOf Binary self.old result self.new }
    {
        let number = self.binaries.take()?;
        let hash = self.numbers.hash(number);
        self.ended = false;
        Some(Link {
            kind: LinkKind::Binary,
            hash,
        })
    }

    // Makes a node grey that is known and not safe.
    pub(crate) fn meet(&mut self, node: Link)
        ensures met { AreMetBy (λ other. other ≡ node) self.old self.new }
        ensures safe { knows self.old node.hash ≡ true → is_safe self.new node ≡ true }
    {
        if let Some(number) = self.numbers.find(&node.hash) {
            if !self.is_safe_at(node.kind, number) {
                self.shade_number(node, number);
            }
        }
    }

    // Whether the node of a number, or the object of that number, is marked or grey.
    fn is_safe_at(&self, kind: LinkKind, number: u32) -> bool
        requires { number < length self.now.hashes }
        ensures { result ≡ is_safe_by self.now kind number }
    {
        let object = self.objects.mark(number);
        let own = match kind {
            LinkKind::Object => object,
            LinkKind::Binary => self.binaries.mark(number),
        };
        own.marked || own.grey || object.marked || object.grey
    }

    // Whether neither node of a blob is marked or grey.
    pub(crate) fn is_loose(&self, hash: &IoHash) -> bool
        ensures { let node : Link = record { kind = Binary; hash = hash.now } in result ≡ not (is_safe self.now node) }
    {
        match self.numbers.find(hash) {
            Some(number) => !self.is_safe_at(LinkKind::Binary, number),
            None => true,
        }
    }

    // Notes whether a sweep list was empty.
    pub(crate) fn end_if(&mut self, empty: bool)
        requires { NoneGrey self.old }
        ensures { self.new ≡ record self.old { ended = empty } }
    {
        self.ended = empty;
    }

    // How many blobs are known.
    pub(crate) fn count(&self) -> u32
        ensures { result ≡ length self.now.hashes }
    {
        self.numbers.len()
    }

    // The known blob of a number.
    pub(crate) fn hash(&self, number: u32) -> IoHash
        requires { number < length self.now.hashes }
        ensures { number_in self.now.hashes result ≡ Some number }
    {
        self.numbers.hash(number)
    }
}
