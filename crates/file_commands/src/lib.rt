//! The commands of a device at rest: what each task but a service does on devices of any kind, and prints.
//!
//! | Task | What is done | What is printed |
//! |---|---|---|
//! | `Format` | the device is made anew, and formatted for N nodes | `formatted nodes=N` |
//! | `Show` | the device is opened | `count=C edges=E`, then `a b w` for each edge |
//! | `Edit` | one change of all ops, whole or not at all, under ticket T of session S or the next one | `accepted count=C` or `refused op=I code=K` |
//! | `Resume` | the device is opened | `session=S ticket=T`, the last ticket of session S |
//! | `Route` | for each pair of nodes the route under the landmarks that the words give is found | a line for each pair, `generation=G route 0 1 2 length L` or `generation=G unreachable` |
//! | `Check` | the scheme that the words give is built and checked | `ok generation=G landmarks=K` or `fault K4` |
//! | `Migrate` | what the old device holds, one of layout 1, is brought to a new one | `migrated count=C edges=E` |
//! | `Copy` | what the old device holds, its tickets too, is written to a new one | `copied count=C edges=E` |
//! | `Tables` | the scheme is built, and the tables of the nodes that are named, or of all, are put into the folder | `generation=G tables=K bytes=B greatest=M`, or `no node` |
//!
//! What `Format`, `Show`, `Edit`, `Resume` and `Migrate` do on a device is in `device_commands`, the files of `Tables` are put in
//! `table_files`, and the words of a run and its service stand above, in `commands`.
//!
//! The contract that the layer above uses is that of [`run_task`] (`EndsTask` of `specs/Runs`). A place of [`Devices`] lists what is opened
//! and closed there, and as what: the device of the task's path was opened once and for its access, nothing else was done there, and it
//! was closed as the answer or the fault says. Whatever ends `edit`, `migrate` or `copy`, a crash at any moment leaves the device as they
//! promise. Where a device keeps the disk model, the answer is that of the state for which its content stands, and the fault is true of
//! that device. Only `tables` puts files. [`FileDevices`] are the system's files; what such a file holds is tested.
//!
//! [`copy_device`] writes what a device holds to a new one. After Ok the new one, by its content and by every image that a crash may leave
//! from then on, stands for the state for which the old one stands, its tickets too (`HasCopied` of `specs/Copies`). At any moment of it a
//! crash leaves of a new device of zeros nothing or that whole state (`CopiesWholly`), and the old one is only read.
//!
//! ```text
//! let task = Task::Show { device: "device" };
//! run_task(rt, &mut FileDevices::new(rt), &mut tables, task, &mut out)?; // count=1 edges=1, and 0 1 1
//! ```
#![tactic(auto)]

mod answers;
mod asking;
mod copying;
mod device_log;
mod devices;
mod on_device;
mod routing;
mod running;
mod scheme_tasks;
mod tables;

pub use copying::{Copied, copy_device};
pub use device_log::DeviceLog;
pub use devices::{Access, Devices, FileDevices};
pub use running::run_task;
pub use scheme_tasks::{check_device, route_device};
