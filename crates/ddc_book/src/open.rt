//! How a book is made, or opened.

ghost use Rattle.std.specs.Prelude.{◌≡◌, ◌⊎◌, ◌≤◌, ◌^◌, IsTrue, IfErr, IfOk};
ghost use Rattle.ddc_names.specs.Causes.{Rose};
ghost use Rattle.ddc_disk.specs.Disk.{EachImage};
ghost use Rattle.ddc_disk.specs.Images.{devices_faults, devices_line};
ghost use Rattle.ddc_journal.specs.Pairs.{IfBoth};
ghost use Rattle.ddc_opening.specs.Loading.{AsBefore, Creates, IsOpenStore};
ghost use Rattle.ddc_opening.specs.Opening.{OpenFaultOf, OpensAs};
ghost use Rattle.ddc_book.specs.Loading.{AreSure, HasOpened, IsCreated, IsLoaded};
ghost use Rattle.ddc_book.specs.View.{book_line, told_cache};

use crate::history::History;
use crate::{Book, OpenFault};
use ddc_disk::{Devices, Disk, HeldDevices};
use ddc_model::Limits;
use ddc_names::NoMemory;
use ddc_opening::{OpenedStore, create_store, load_store, one_opening};
use std::alloc::Global;

impl<D: Disk> Book<D> {
    /// Makes an empty store on any devices, within these limits. It begins with a sync of each device.
    ///
    /// # Errors
    ///
    /// `DiskFailed` or `NoMemory` alone, with the devices. The store may then be made or not.
    pub fn create(
        alloc: Global,
        devices: Devices<D>,
        limits: Limits,
    ) -> Result<Book<D>, (Devices<D>, OpenFault)>
        requires kept { 1 ≤ limits.kept }
        requires units { limits.units ≤ 2 ^ 51 }
        ensures created { IfOk result (λ book. IsCreated D.tells D.meaning devices limits book) }
        ensures any_moment { IfErr result (λ r. Creates D.meaning devices limits r.0) }
        ensures fault { IfErr result (λ r. ((r.1 ≡ OpenFault.DiskFailed) × Rose (devices_faults D.meaning devices) (devices_faults D.meaning r.0)) ⊎ (r.1 ≡ OpenFault.NoMemory)) }
    {
        let mut held = HeldDevices::new(devices);
        match create_store(alloc, &mut held, limits) {
            Ok(store) => match Book::of_store(held, store, limits) {
                Ok(book) => Ok(book),
                Err(devices) => Err((devices, OpenFault::NoMemory)),
            },
            Err(fault) => Err((held.into_devices(), fault)),
        }
    }

    /// Opens the store of these devices, within these limits. It begins with a sync of each device, and writes nothing.
    ///
    /// # Errors
    ///
    /// The devices come back with the fault: `NotMade`, `Corrupt`, `BadVersion` and `Unsound` exactly by what the two
    /// journal files hold, `DiskFailed` where a device failed, and `NoMemory`.
    pub fn load(
        alloc: Global,
        devices: Devices<D>,
        limits: Limits,
    ) -> Result<Book<D>, (Devices<D>, OpenFault)>
        requires kept { 1 ≤ limits.kept }
        requires units { limits.units ≤ 2 ^ 51 }
        ensures loaded { IfOk result (λ book. IsLoaded D.tells D.meaning devices limits book) }
        ensures fault { IfErr result (λ r. ((r.1 ≡ OpenFault.DiskFailed) × Rose (devices_faults D.meaning devices) (devices_faults D.meaning r.0))
            ⊎ IfBoth D.meaning devices (λ first second. OpenFaultOf limits first second r.1)) }
        ensures cause { IfErr result (λ r. r.1 ≡ OpenFault.DiskFailed → Rose (devices_faults D.meaning devices) (devices_faults D.meaning r.0)) }
        ensures back { IfErr result (λ r. AsBefore D.meaning devices r.0) }
    {
        let mut held = HeldDevices::new(devices);
        match load_store(alloc, &mut held, limits) {
            Ok(store) => match Book::of_store(held, store, limits) {
                Ok(book) => Ok(book),
                Err(devices) => Err((devices, OpenFault::NoMemory)),
            },
            Err(fault) => Err((held.into_devices(), fault)),
        }
    }

    // The book of a store that was made or opened just now, or the devices where there is no memory for its history.
    fn of_store(
        devices: HeldDevices<D>,
        store: OpenedStore,
        limits: Limits,
    ) -> Result<Book<D>, Devices<D>>
        requires opened { IsOpenStore D.tells D.meaning devices limits store.pair store.index.state store.steps.items }
        requires units { limits.units ≤ 2 ^ 51 }
        ensures devices { IfOk result (λ book. book.devices ≡ devices) }
        ensures cache { IfOk result (λ book. book.cache ≡ told_cache D.tells D.meaning devices store.index.state) }
        ensures steps { IfOk result (λ book. HasOpened D.meaning book store.steps.items) }
        ensures sure { IfOk result (λ book. IsTrue D.tells → AreSure D.meaning book.devices) }
        ensures opens { IfOk result (λ book. IsTrue D.tells → EachImage (book_line D.meaning book) (λ im. OpensAs limits im book.cache)) }
        ensures opened { IfOk result (λ book. book.opened ≡ (devices_line D.meaning devices).moment) }
        ensures back { IfErr result (λ back. back ≡ devices) }
    {
        one_opening();
        let OpenedStore { pair, index, steps } = store;
        match History::opened(steps, limits, devices.faults()) {
            Ok(history) => {
                let opened = devices.moment();
                Ok(Book {
                    devices,
                    pair,
                    index,
                    history,
                    opened,
                })
            }
            Err(NoMemory) => Err(devices.into_devices()),
        }
    }
}
