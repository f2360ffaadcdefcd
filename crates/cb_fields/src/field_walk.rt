//! The walk over the fields of an object from left to right, with the containers that are open.

ghost use Rattle.std.specs.Prelude.{◌≡◌, [], length};
ghost use Rattle.cb_fields.specs.Language.{attached_link};
ghost use Rattle.cb_fields.specs.inside.FieldWalk.{InBounds, Carries, Advances};

use crate::header::{Contents, Header, header_of};
use crate::links::{Link, LinkKind};
use ddc_names::{IoHash, NoMemory};
use std::alloc::Global;

/// A container that is open.
#[derive(Clone, Copy)]
pub struct Open {
    /// What may still stand in it.
    pub contents: Contents,
    /// The place after its last byte.
    pub end: usize,
}

/// Where a walk stands.
#[derive(Drop)]
pub struct FieldWalk {
    /// The containers around the inmost one, the outmost first.
    pub outer: Vec<Open>,
    /// The inmost container.
    pub inmost: Open,
    /// The place of the next byte.
    pub at: usize,
}

/// What one step of a walk meets.
pub enum Step {
    /// No link.
    Moved,
    /// A link.
    Met(Link),
    /// The end of the whole.
    Complete,
    /// A fault at the walk's place.
    Broken,
}

// The link whose hash is these 20 bytes.
fn link_of(kind: LinkKind, bytes: &[u8]) -> Link
    requires { length bytes.now ≡ 20 }
    ensures { result ≡ attached_link kind bytes.now }
{
    let mut hash = [0; 20];
    hash.copy_from_slice(bytes);
    Link {
        kind,
        hash: IoHash(hash),
    }
}

impl FieldWalk {
    /// A walk that stands before one field, all of the bytes.
    pub fn new(alloc: Global, bytes: &[u8]) -> FieldWalk
        ensures bounds { InBounds bytes.now result }
        ensures carries { Carries bytes.now result [] }
    {
        FieldWalk {
            outer: Vec::new(alloc),
            inmost: Open {
                contents: Contents {
                    type_byte: None,
                    count: Some(1),
                },
                end: bytes.len(),
            },
            at: 0,
        }
    }

    /// Goes over one header, or out of a container that ends.
    #[inline(always)]
    pub fn advance(&mut self, bytes: &[u8]) -> Result<Step, NoMemory>
        requires { InBounds bytes.now self.old }
        ensures { Advances bytes.now self.old self.new result }
    {
        let ahead = &bytes[self.at..self.inmost.end];
        match header_of(self.inmost.contents, ahead) {
            Header::End => match self.outer.pop() {
                None => Ok(Step::Complete),
                Some(open) => {
                    self.inmost = open;
                    Ok(Step::Moved)
                }
            },
            Header::Bad => Ok(Step::Broken),
            Header::Plain(len) => {
                self.inmost.contents = self.inmost.contents.fewer();
                self.at += len;
                Ok(Step::Moved)
            }
            Header::Link(kind, len) => {
                self.inmost.contents = self.inmost.contents.fewer();
                self.at += len;
                Ok(Step::Met(link_of(kind, &ahead[len - 20..len])))
            }
            Header::Container(before, size, contents) => {
                let outer = Open {
                    contents: self.inmost.contents.fewer(),
                    end: self.inmost.end,
                };
                if self.outer.push(outer).is_err() {
                    return Err(NoMemory);
                }
                self.at += before;
                self.inmost = Open {
                    contents,
                    end: self.at + size,
                };
                Ok(Step::Moved)
            }
        }
    }
}
