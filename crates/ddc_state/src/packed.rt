//! A blob of the table, without gaps between its numbers.

ghost use Rattle.std.specs.Prelude.{◌≡◌, max};

use cb_fields::Link;
use ddc_model::{Blob, BlobRow, Extent};
use ddc_names::Rows;
use std::marker::Model;

// Contracts see the blob.
#[derive(Drop)]
pub(crate) struct PackedBlob {
    len: u64,
    start: u64,
    at: u32,
    units: u32,
    links: Rows<Link>,
}

impl Model for PackedBlob {
    ghost use Rattle.ddc_model.specs.declared.rows.Blob.{Blob};
    ghost use Rattle.ddc_model.specs.Keys.{coded_blob};

    ghost Value = { Blob };

    ghost coded = { coded_blob };

    ghost view = { λ blob. record { row = record { len = blob.len; at = blob.at; extent = record { start = blob.start; units = blob.units } }; links = blob.links } };
}

impl PackedBlob {
    pub(crate) fn of(blob: Blob) -> PackedBlob
        ensures { result ≡ blob }
    {
        let Blob { row, links } = blob;
        PackedBlob {
            len: row.len,
            start: row.extent.start,
            at: row.at,
            units: row.extent.units,
            links,
        }
    }

    pub(crate) fn row(&self) -> BlobRow
        ensures { result ≡ self.now.row }
    {
        BlobRow {
            len: self.len,
            at: self.at,
            extent: Extent {
                start: self.start,
                units: self.units,
            },
        }
    }

    pub(crate) fn links(&self) -> &[Link]
        ensures { result.now ≡ self.now.links }
    {
        self.links.as_slice()
    }

    // Pins the blob from this hour on.
    pub(crate) fn pin(&mut self, hour: u32)
        ensures { self.new ≡ record self.old { row = record self.old.row { at = max self.old.row.at hour } } }
    {
        self.at = self.at.max(hour);
    }
}
