//! Where a run finds devices, makes backups and puts tables.
ghost use Rattle.std.specs.Prelude.{◌≡◌};

use file_commands::Devices;
use new_devices::NewDevices;
use std::marker::PhantomData;
use table_files::TableFiles;

/// The places of a run. They travel together through all its calls, so one parameter names them.
pub trait Sites {
    /// Where devices are opened and made.
    type Devices: Devices;

    /// Where the backups are made that lines of a live service ask for.
    type Backups: NewDevices + Send;

    /// Where tables are put.
    type Tables: TableFiles + Send;
}

/// Devices of `F`, backups of `N` and tables of `T`. No value is made of it.
pub struct SitesOf<F, N, T> {
    of: PhantomData<(F, N, T)>,
}

impl<F, N, T> Sites for SitesOf<F, N, T>
where
    F: Devices,
    N: NewDevices + Send,
    T: TableFiles + Send,
{
    type Devices = F;

    type Backups = N;

    type Tables = T;
}

/// The places themselves, each lent for a time of its own.
#[derive(Drop)]
pub struct At<'a, 'b, 'c, P: Sites> {
    pub devices: &'a mut P::Devices,
    pub backups: &'b mut P::Backups,
    pub tables: &'c mut P::Tables,
}

impl<'a, 'b, 'c, F, N, T> At<'a, 'b, 'c, SitesOf<F, N, T>>
where
    F: Devices,
    N: NewDevices + Send,
    T: TableFiles + Send,
{
    /// These devices, backups and tables.
    pub fn new(
        devices: &'a mut F,
        backups: &'b mut N,
        tables: &'c mut T,
    ) -> At<'a, 'b, 'c, SitesOf<F, N, T>>
        ensures same_devices { result.devices.ghost_name ≡ devices.entry.ghost_name }
        ensures same_backups { result.backups.ghost_name ≡ backups.entry.ghost_name }
        ensures same_tables { result.tables.ghost_name ≡ tables.entry.ghost_name }
        ensures devices { result.devices.now ≡ devices.old }
        ensures backups { result.backups.now ≡ backups.old }
        ensures tables { result.tables.now ≡ tables.old }
    {
        At {
            devices,
            backups,
            tables,
        }
    }
}
