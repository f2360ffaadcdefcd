//! A reference's name on the heap.

ghost use Rattle.std.specs.Prelude.{◌≡◌, IfOk};

use ddc_names::{NoMemory, RefName};
use std::alloc::Global;
use std::marker::Model;

/// A reference's whole name on the heap, so that an entry without a name doesn't take a name's room. Contracts see the
/// name.
#[derive(Debug, Drop)]
pub struct NameBox {
    name: Box<RefName>,
}

impl Model for NameBox {
    ghost use Rattle.ddc_names.specs.declared.reference.RefName.{RefName};

    ghost Value = { RefName };

    ghost view = { λ boxed. boxed.name.value };
}

impl NameBox {
    /// Takes the name to the heap.
    ///
    /// # Errors
    ///
    /// `NoMemory` where there is none for it.
    pub fn new(alloc: Global, name: RefName) -> Result<NameBox, NoMemory>
        ensures { IfOk result (λ boxed. boxed ≡ name) }
    {
        let name = Box::new(alloc, name)?;
        Ok(NameBox { name })
    }

    /// The name.
    pub fn get(&self) -> &RefName
        ensures { result.now ≡ self.now }
    {
        &self.name
    }
}
