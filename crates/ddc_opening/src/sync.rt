//! The sync with which a store is made or opened.

ghost use Rattle.std.specs.Prelude.{◌≡◌, IfSome, OnOk};
ghost use Rattle.ddc_names.specs.Causes.{HasCause};
ghost use Rattle.ddc_disk.specs.Disk.{IsSure};
ghost use Rattle.ddc_disk.specs.Images.{devices_faults};
ghost use Rattle.ddc_opening.specs.Loading.{AsBefore};

use ddc_disk::{Disk, HeldDevices};
use ddc_names::Failed;

// Makes sure of the blob file.
pub(crate) fn sync_blobs<D: Disk>(devices: &mut HeldDevices<D>) -> Result<(), Failed>
    ensures as_before { AsBefore D.meaning devices.old devices.new }
    ensures sure { OnOk result (IfSome (D.meaning devices.old.blobs).held (λ file. IsSure (D.meaning devices.new.blobs) file)) }
    ensures first { devices.new.first ≡ devices.old.first }
    ensures second { devices.new.second ≡ devices.old.second }
    ensures cause { HasCause (devices_faults D.meaning devices.old) (devices_faults D.meaning devices.new) result }
{
    devices.blobs().sync()
}
