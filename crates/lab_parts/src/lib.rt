//! What the commands of the lab share: how they list their words, how they come to devices and files, and how they print and tell.
//!
//! A command of the lab is two functions of one form, which `lab_commands` puts together: `grammar(alloc)` lists its words by [`command`],
//! and `run(rt, found, out, err)` does what they ask for and answers the exit status: 0 where it did it, 2 where the words or a line of a
//! file aren't understood, 1 where something is refused, a file or a device can't be used, the output fails or memory runs out. What a
//! command prints goes out by [`print`]; what went wrong is told on the second writer as `tzlab: TEXT` ([`told`]).
//!
//! A command has its device and files at a place ([`Sources`]; [`Places`] where it puts a new one). What a file holds no contract says, so that a
//! device was opened by a path, a text read there or a file put, is a fact that the place's calls alone give. By it a command's contract says of
//! what its text was made (`OfDevice` and `OfFile` of `specs/Devices`). What the words ask for is what [`given`] and its like read (`specs/Words`).
//! What a contract says of a place, and of an output before a call and after it, it says of records with these as fields (`Place` and
//! `OutputStep` of `specs/Places`).
//!
//! A new file is made beside its place, under the name of its path and `.new`, written, synced and given its path, and then the folder is synced.
//! That these calls are made in this order is proved over folders of any kind (`placing.rt`). What is refused leaves no file; a cut may leave the
//! one beside, which the next command names.
//!
//! The contract that the commands use: [`command`] gives clap the command of this name with just the words that are listed (`app_with` of
//! `specs/Grammar`), so each `grammar` says which words its command has; [`print`] appends exactly the text, or the output failed; and each
//! call that tells something answers the status that it was given, or 1.
#![tactic(auto)]

mod placing;
mod sources;
mod stores;
mod telling;
mod words;

pub use placing::PutRefused;
pub use sources::{Places, Sources};
pub use stores::loaded_of;
pub use telling::{PrintRefused, print, told, told_at, told_memory, told_of};
pub use words::{
    Said, command, device, flag, given, is_given, needed, optional, usual, value, word,
};
