//! A follower's cursor on the heap.

ghost use Rattle.std.specs.Prelude.{◌≡◌, IfOk};

use crate::Cursor;
use ddc_names::NoMemory;
use std::alloc::Global;
use std::marker::Model;

/// A cursor on the heap, so that other entries don't take a cursor's room. Contracts see the cursor.
#[derive(Debug, Drop)]
pub struct CursorBox {
    cursor: Box<Cursor>,
}

impl Model for CursorBox {
    ghost use Rattle.ddc_model.specs.declared.rows.Cursor.{Cursor};

    ghost Value = { Cursor };

    ghost view = { λ boxed. boxed.cursor.value };
}

impl CursorBox {
    /// Takes the cursor to the heap.
    ///
    /// # Errors
    ///
    /// `NoMemory` where there is none for it.
    pub fn new(alloc: Global, cursor: Cursor) -> Result<CursorBox, NoMemory>
        ensures { IfOk result (λ boxed. boxed ≡ cursor) }
    {
        let cursor = Box::new(alloc, cursor)?;
        Ok(CursorBox { cursor })
    }

    /// The cursor.
    pub fn get(&self) -> &Cursor
        ensures { result.now ≡ self.now }
    {
        &self.cursor
    }
}
