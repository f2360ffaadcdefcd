// A reader of the requests of one stream.
ghost use Rattle.std.specs.Prelude.{◌≡◌, ◌⊎◌, [], false, IfOk};
ghost use Rattle.ddc_http.specs.Reader.{FaultsAs, HasRequestText, ReadsNext, TakesPieces};
ghost use Rattle.ddc_http.specs.Stream.{EndedAs, ahead_of, source_of, held_of, place_of, has_ended};

use crate::reader::next_request;
use crate::request::{HttpFault, Request};
use ddc_link::Source;
use ddc_names::NoMemory;
use std::alloc::Global;

/// The bytes that a new reader has room for.
const ROOM: usize = 8_192;

/// Reads the requests of a source, one after another.
pub struct RequestReader<'a, S: Source> {
    source: &'a mut S,
    held: Vec<u8>,
    place: u64,
    ended: bool,
    alloc: Global,
}

impl<'a, S: Source> RequestReader<'a, S> {
    /// A reader at the front of what the source has left.
    ///
    /// # Errors
    ///
    /// `NoMemory` where there is no room for the first bytes.
    pub fn new(alloc: Global, source: &'a mut S) -> Result<RequestReader<'a, S>, NoMemory>
        ensures same_reference { IfOk result (λ r. r.source.ghost_name ≡ source.entry.ghost_name) }
        ensures source { IfOk result (λ r. source_of r ≡ source.old) }
        ensures held { IfOk result (λ r. held_of r ≡ []) }
        ensures place { IfOk result (λ r. place_of r ≡ 0) }
        ensures ended { IfOk result (λ r. has_ended r ≡ false) }
    {
        match Vec::with_capacity(alloc, ROOM) {
            Ok(held) => Ok(RequestReader {
                source,
                held,
                place: 0,
                ended: false,
                alloc,
            }),
            Err(_) => Err(NoMemory),
        }
    }

    /// Reads the next request whole. `None` comes where the input ended between two requests.
    ///
    /// # Errors
    ///
    /// `HashMismatch` where the body has another hash than the one named, and `NotAnObject` where an
    /// object is put and the body is none; the reader then goes on after it. Every other fault ends
    /// the reader.
    pub fn next(&mut self) -> Result<Option<Request>, HttpFault>
        requires { has_ended self.old ≡ false }
        ensures same_reference { self.new.source.ghost_name ≡ self.old.source.ghost_name }
        ensures gives { ReadsNext (ahead_of S.left self.old) (ahead_of S.left self.new) (place_of self.old) (place_of self.new) result }
        ensures ready { HasRequestText (held_of self.old) → source_of self.new ≡ source_of self.old }
        ensures pieces { (source_of self.new ≡ source_of self.old) ⊎ TakesPieces (held_of self.old) (S.left (source_of self.old)) (S.left (source_of self.new)) }
        ensures ended { EndedAs result (has_ended self.new) }
        ensures faults { FaultsAs (S.faults (source_of self.old)) (S.faults (source_of self.new)) result }
    {
        let result = next_request(self.alloc, self.source, &mut self.held, &mut self.place);
        self.ended = match &result {
            Ok(Some(_)) => false,
            Err(HttpFault::HashMismatch { .. }) => false,
            Err(HttpFault::NotAnObject { .. }) => false,
            _ => true,
        };
        result
    }

    /// The number of bytes before the present request: of all requests that were read whole.
    pub fn place(&self) -> u64
        ensures { result ≡ place_of self.now }
    {
        self.place
    }

    /// Whether the reader has ended: the input is at its end, or a fault ended it.
    pub fn ended(&self) -> bool
        ensures { result ≡ has_ended self.now }
    {
        self.ended
    }

    /// Gives the source back.
    pub fn finish(self) -> &'a mut S
        ensures same_reference { result.ghost_name ≡ self.entry.source.ghost_name }
        ensures source { result.now ≡ source_of self.entry }
    {
        let RequestReader {
            source,
            held: _,
            place: _,
            ended: _,
            alloc: _,
        } = self;
        source
    }
}
