//! The bytes of a blob, read once.

ghost use Rattle.std.specs.Prelude.{◌≡◌, IfOk};
ghost use Rattle.ddc_model.specs.Content.{IsContent};
ghost use Rattle.ddc_state.specs.Views.{ChecksObject};

use cb_fields::{CbFault, Link, read_object};
use ddc_names::{NoMemory, Rows};
use io_hash::Whole;
use std::alloc::Global;
use std::marker::Model;

/// Bytes with the hash that names them, whether they are an object, and the links of that object. That all this is
/// of the bytes is kept by the type.
#[derive(Drop)]
pub struct Checked {
    whole: Whole,
    is_object: bool,
    links: Rows<Link>,
}

impl Model for Checked {
    ghost use Rattle.ddc_model.specs.Content.{Content, AreLinksOf};
    ghost use Rattle.ddc_state.specs.Views.{coded_content};

    ghost Value = { Content };

    ghost coded = { coded_content };

    ghost view = { λ c. record { bytes = c.whole; is_object = c.is_object; links = c.links } };

    ghost invariant = { λ c. AreLinksOf c.whole c.is_object c.links };
}

impl Checked {
    /// Reads the bytes of a blob, once.
    ///
    /// # Errors
    ///
    /// `NoMemory` where there is none for the links or for the walk over the bytes. The bytes are then gone.
    pub fn new(alloc: Global, whole: Whole) -> Result<Checked, NoMemory>
        ensures bytes { IfOk result (λ content. content.bytes ≡ whole) }
        ensures read { IfOk result (λ content. IsContent content) }
    {
        match read_object(alloc, whole.bytes()) {
            Ok(links) => Ok(Checked {
                whole,
                is_object: true,
                links,
            }),
            Err(CbFault::NotObject { .. }) => Ok(Checked {
                whole,
                is_object: false,
                links: Rows::new(alloc),
            }),
            Err(CbFault::NoMemory) => Err(NoMemory),
        }
    }

    /// Reads the bytes of a blob that has to be an object, once.
    ///
    /// # Errors
    ///
    /// `NotObject` exactly for bytes that are no object, with the place of the first fault. `NoMemory` where there is none
    /// for the links or for the walk over the bytes. The bytes are then gone.
    pub fn object(alloc: Global, whole: Whole) -> Result<Checked, CbFault>
        ensures { ChecksObject whole result }
    {
        let links = read_object(alloc, whole.bytes())?;
        Ok(Checked {
            whole,
            is_object: true,
            links,
        })
    }

    /// The bytes and their hash.
    pub fn whole(&self) -> &Whole
        ensures bytes { result.now ≡ self.now.bytes }
        ensures read { IsContent self.now }
    {
        &self.whole
    }

    /// The bytes and their hash, without the rest.
    pub fn into_whole(self) -> Whole
        ensures { result ≡ self.bytes }
    {
        self.whole
    }

    /// The links of the object, at every depth, in order of occurrence. Bytes that are no object have none.
    pub fn links(&self) -> &[Link]
        ensures links { result.now ≡ self.now.links }
        ensures read { IsContent self.now }
    {
        self.links.as_slice()
    }

    /// Whether the bytes are an object.
    pub fn is_object(&self) -> bool
        ensures told { result ≡ self.now.is_object }
        ensures read { IsContent self.now }
    {
        self.is_object
    }
}
