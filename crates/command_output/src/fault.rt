//! What ends a command.
ghost use Rattle.std.specs.Prelude.{◌≡◌, ◌≤◌, ◌↔◌};
ghost use Rattle.command_output.specs.Faults.{fault_text, status_of, IsNotUnderstood};

use std::alloc::{AllocError, AllocFailed};
use thiserror::Error;

/// Why a command ended, and what the program says of it.
#[derive(Clone, Copy, Debug, PartialEq, Eq, Drop, Error)]
#[error("{}", self.text())]
pub enum Fault {
    /// The words are no command, or a number among them is out of its range.
    Usage,
    /// A word in the place of an OP isn't one.
    Op,
    /// The text of `--words` isn't of its form, or names a node that the device hasn't.
    Words,
    /// A line of a script isn't of its form, or its session has no editor.
    Script,
    /// There are more OPs than a change may have.
    ChangeTooLong,
    /// A device can't have so many nodes.
    NodeCount,
    /// The file that was made hasn't a device's length.
    DeviceLength,
    /// The file can't be made or opened.
    DeviceFile,
    /// A file that is to be made where nothing stands is there already.
    FileExists,
    /// Another program has the file's lock.
    DeviceInUse,
    /// The file's front isn't that of a device.
    NotFormatted,
    /// The device is of another layout.
    LayoutNotKnown,
    /// The device's bytes are not those of a store.
    Damaged,
    /// A read, write or sync of the device failed.
    Device,
    /// Memory ran out.
    Memory,
    /// The system makes no thread.
    NoThread,
    /// Two parts of the program disagree. No run is known that ends so.
    Internal,
    /// The count, the epoch or a session's ticket stands at its limit.
    Worn,
    /// The session has taken this ticket, or a later one.
    AlreadyIn,
    /// A node of a route isn't one of the device's.
    NoNode,
    /// What was to be printed couldn't be, or a script couldn't be read.
    Output,
    /// The file of a router's table can't be written.
    TableFile,
}

impl Fault {
    /// What is told of it.
    pub fn text(&self) -> &'static str
        ensures { result.now ≡ fault_text self.now }
    {
        match self {
            Fault::Usage => "usage",
            Fault::Op => "op not understood",
            Fault::Words => "words not understood",
            Fault::Script => "script not understood",
            Fault::ChangeTooLong => "change too long",
            Fault::NodeCount => "node count out of range",
            Fault::DeviceLength => "device length is wrong",
            Fault::DeviceFile => "device file cannot be used",
            Fault::FileExists => "file exists",
            Fault::DeviceInUse => "device in use",
            Fault::NotFormatted => "not formatted",
            Fault::LayoutNotKnown => "layout not known",
            Fault::Damaged => "damaged",
            Fault::Device => "device failed",
            // A thread takes memory first of all.
            Fault::Memory | Fault::NoThread => "out of memory",
            Fault::Worn => "worn out",
            Fault::AlreadyIn => "already in",
            Fault::NoNode => "no node",
            Fault::TableFile => "table file cannot be written",
            // An internal fault has no text of its own among those that scripts know: this one is the nearest.
            Fault::Internal | Fault::Output => "input or output failed",
        }
    }

    /// The program's exit status: 2 where the words are not understood, else 1.
    pub fn status(self) -> u8
        ensures value { result ≡ status_of self }
        ensures not_understood { (result ≡ 2) ↔ IsNotUnderstood self }
        ensures some { 1 ≤ result }
    {
        match self {
            Fault::Usage | Fault::Op | Fault::Words | Fault::Script => 2,
            _ => 1,
        }
    }
}

impl From<AllocError> for Fault {
    ghost use Rattle.command_output.specs.declared.fault.Fault.TheVariants.{Memory};

    ghost from_gives = { λ _ e. e ≡ Memory };

    fn from(_: AllocError) -> Self {
        Fault::Memory
    }
}

impl<T: Drop> From<AllocFailed<T>> for Fault {
    ghost use Rattle.command_output.specs.declared.fault.Fault.TheVariants.{Memory};

    ghost from_gives = { λ _ e. e ≡ Memory };

    fn from(_: AllocFailed<T>) -> Self {
        Fault::Memory
    }
}
