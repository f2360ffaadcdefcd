//! The three devices of a store, of which one at a time is lent.

ghost use Rattle.std.specs.Prelude.{◌≡◌};
ghost use Rattle.std.specs.Borrow.{sem};
ghost use Rattle.ddc_disk.specs.Images.{devices_line, devices_faults, IsLent};
ghost use Rattle.ddc_disk.specs.Lends.{lends_first, lends_second, lends_blobs};

use crate::Disk;
use std::marker::Model;

/// The devices of a store: two journal files and the blob file.
#[derive(Drop)]
pub struct Devices<D> {
    /// The first journal file.
    pub first: D,
    /// The second journal file.
    pub second: D,
    /// The blob file.
    pub blobs: D,
}

impl<D: Disk> Devices<D> {
    /// How often the three have failed: the sum, or 2^64 - 1 where it is greater.
    pub fn faults(&self) -> u64
        ensures { result ≡ devices_faults D.meaning self.now }
    {
        self.first
            .faults()
            .saturating_add(self.second.faults())
            .saturating_add(self.blobs.faults())
    }
}

/// Devices that are lent one at a time. Each is told the latest moment of the three before it is
/// lent, so that whatever is done to it comes after all that was done to the others. That is why
/// the fields are private. Contracts see the devices.
#[derive(Drop)]
pub struct HeldDevices<D> {
    first: D,
    second: D,
    blobs: D,
}

impl<D> Model for HeldDevices<D> {
    ghost use Rattle.ddc_disk.specs.declared.devices.Devices.{Devices};

    ghost Value = { Devices D };

    ghost view = { λ held. record { first = held.first; second = held.second; blobs = held.blobs } };

    ghost inverse = { λ devices. record { first = devices.first; second = devices.second; blobs = devices.blobs } };
}

impl<D: Disk> HeldDevices<D> {
    /// Takes the devices.
    pub fn new(devices: Devices<D>) -> HeldDevices<D>
        ensures { result ≡ devices }
    {
        let Devices {
            first,
            second,
            blobs,
        } = devices;
        HeldDevices {
            first,
            second,
            blobs,
        }
    }

    /// Gives the devices back.
    pub fn into_devices(self) -> Devices<D>
        ensures { result ≡ self }
    {
        let HeldDevices {
            first,
            second,
            blobs,
        } = self;
        Devices {
            first,
            second,
            blobs,
        }
    }

    /// How often the three have failed: the sum, or 2^64 - 1 where it is greater.
    pub fn faults(&self) -> u64
        ensures { result ≡ devices_faults D.meaning self.now }
    {
        self.first
            .faults()
            .saturating_add(self.second.faults())
            .saturating_add(self.blobs.faults())
    }

    /// The latest moment of the three.
    pub fn moment(&self) -> u64
        ensures { result ≡ (devices_line D.meaning self.now).moment }
    {
        self.first
            .moment()
            .max(self.second.moment())
            .max(self.blobs.moment())
    }

    /// Lends the first journal file.
    pub fn first(&mut self) -> &mut D
        ensures* writes_back { sem 𝓛 (lends_first D.row self.entry result) }
        ensures lent { IsLent (D.meaning self.old.first) (devices_line D.meaning self.old) (D.meaning result.now) }
    {
        let now = self.moment();
        self.first.wait_until(now);
        &mut self.first
    }

    /// Lends the second journal file.
    pub fn second(&mut self) -> &mut D
        ensures* writes_back { sem 𝓛 (lends_second D.row self.entry result) }
        ensures lent { IsLent (D.meaning self.old.second) (devices_line D.meaning self.old) (D.meaning result.now) }
    {
        let now = self.moment();
        self.second.wait_until(now);
        &mut self.second
    }

    /// Lends the blob file.
    pub fn blobs(&mut self) -> &mut D
        ensures* writes_back { sem 𝓛 (lends_blobs D.row self.entry result) }
        ensures lent { IsLent (D.meaning self.old.blobs) (devices_line D.meaning self.old) (D.meaning result.now) }
    {
        let now = self.moment();
        self.blobs.wait_until(now);
        &mut self.blobs
    }
}
