//! Which bytes are an object, and what an object links to.

ghost use Rattle.std.specs.Prelude.{◌≡◌, IfOk};
ghost use Rattle.cb_fields.specs.declared.check.CbFault.TheVariants.{NoMemory};
ghost use Rattle.cb_fields.specs.Language.{starts_object, HasLinks};
ghost use Rattle.cb_fields.specs.Objects.{ChecksAs, ReadsObject};

use crate::field_walk::{FieldWalk, Step};
use crate::links::Link;
use ddc_names::{NoMemory, Rows};
use std::alloc::Global;

/// Why bytes weren't found to be an object.
#[derive(Clone, Copy, Debug, PartialEq, Eq)]
pub enum CbFault {
    /// They are no object.
    NotObject {
        /// The place in bytes of the first fault, as they are read from left to right.
        at: u64,
    },
    /// There was no memory for the containers that were open, or for the links.
    NoMemory,
}

impl From<NoMemory> for CbFault {
    ghost from_gives = { λ _ fault. fault ≡ NoMemory };

    fn from(_: NoMemory) -> CbFault {
        CbFault::NoMemory
    }
}

// Whether the first field's code is an object's.
fn starts_as_object(bytes: &[u8]) -> bool
    ensures { result ≡ starts_object bytes.now }
{
    match bytes {
        [] => false,
        [type_byte, ..] => *type_byte % 0x80 == 0x02 || *type_byte % 0x80 == 0x03,
    }
}

/// Checks that the bytes are an object: one field of code 02 or 03, with or without a name, and nothing
/// after it. It goes over the bytes once, and takes memory for the containers that are open alone.
///
/// # Errors
///
/// `NotObject` exactly for bytes that are no object, with the place of the first fault.
pub fn check_object(alloc: Global, bytes: &[u8]) -> Result<(), CbFault>
    ensures { ChecksAs bytes.now result }
{
    if !starts_as_object(bytes) {
        return Err(CbFault::NotObject { at: 0 });
    }
    let mut walk = FieldWalk::new(alloc, bytes);
    loop {
        match walk.advance(bytes)? {
            Step::Moved => {}
            Step::Met(_) => {}
            Step::Complete => return Ok(()),
            Step::Broken => return Err(CbFault::NotObject { at: walk.at as u64 }),
        }
    }
}

/// Reads an object: its links, at every depth, in order of occurrence. It goes over the bytes once.
///
/// # Errors
///
/// `NotObject` exactly for bytes that are no object, with the place of the first fault.
pub fn read_object(alloc: Global, bytes: &[u8]) -> Result<Rows<Link>, CbFault>
    ensures { ReadsObject bytes.now result }
{
    if !starts_as_object(bytes) {
        return Err(CbFault::NotObject { at: 0 });
    }
    let mut links = Rows::new(alloc);
    let mut walk = FieldWalk::new(alloc, bytes);
    loop {
        match walk.advance(bytes)? {
            Step::Moved => {}
            Step::Met(link) => links.push(link)?,
            Step::Complete => return Ok(links),
            Step::Broken => return Err(CbFault::NotObject { at: walk.at as u64 }),
        }
    }
}

/// The links of an object, at every depth, in order of occurrence. Bytes that are no object have none.
///
/// # Errors
///
/// `NoMemory` where there is none for the links or for the containers that are open.
pub fn links_of(alloc: Global, bytes: &[u8]) -> Result<Rows<Link>, NoMemory>
    ensures { IfOk result (λ rows. HasLinks bytes.now rows) }
{
    match read_object(alloc, bytes) {
        Ok(links) => Ok(links),
        Err(CbFault::NotObject { .. }) => Ok(Rows::new(alloc)),
        Err(CbFault::NoMemory) => Err(NoMemory),
    }
}
