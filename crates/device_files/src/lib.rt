//! Device files: a disk on a file of the system, held under the system's lock.
//!
//! A [`DeviceFile`] is a `FileDisk` whose file this program has locked. There are four ways to one, and no other:
//!
//! | Call | The file | Its lock |
//! |---|---|---|
//! | [`DeviceFile::open`] | is there, and is opened for reading and writing | alone |
//! | [`DeviceFile::open_to_read`] | is there, and is opened for reading only | shared |
//! | [`DeviceFile::make`] | is made, or emptied if it is there, and filled with zeros | alone |
//! | [`DeviceFile::make_new`] | must not be there; it is made beside, filled with zeros, and then put there | alone |
//!
//! What is neither a regular file nor a block device is refused ([`FileRefused::OtherKind`]): it isn't opened where it stands there
//! already, so no call waits for the other end of a pipe. A symbolic link counts as what it leads to.
//!
//! A lock is taken without waiting. If another program holds one that excludes it, the call answers [`FileRefused::InUse`] and has
//! touched nothing. The lock ends when the `DeviceFile` is dropped, or with the program, however it ends.
//!
//! A lock is advice: it keeps out programs on this machine that ask for it, as all commands of this program do. It doesn't keep out
//! a program that doesn't ask, and on a network file system it may not reach other machines.
//!
//! A file that is made gets all its zeros, so that a full disk shows at once ([`FileRefused::Full`]). Then the file is synced, and then the
//! folder in which it stands, so that a power cut doesn't take the file's name away. A new file gets its zeros under the name of its path
//! and `.new`, and then its path by a link, which the system refuses where something stands there. On a file system without links it is
//! renamed, and a file that comes there in the moment before is lost.
//!
//! The contract that the layer above uses: which lock a `DeviceFile` has (`lock_of`), and that it is a disk as `FileDisk` is one. That
//! the lock was taken on this very file, before its disk was made or it was emptied, is proved over files of any kind (`held.rt`).
//! What the system does on `flock` and `fsync` is believed, and tested.
//!
//! ```text
//! let disk = DeviceFile::open(rt, "d")?;           // alone: no other command can open d until it is dropped
//! let again = DeviceFile::open_to_read(rt, "d");   // Err(FileRefused::InUse)
//! ```
#![tactic(auto)]

mod file;
mod held;
mod names;
mod refused;

pub use file::{DeviceFile, Lock};
pub use refused::FileRefused;
