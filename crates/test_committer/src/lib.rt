//! Tests of the committer with its editors and forwarders, of what its threads hand to one another, and of a live service's lines.
//!
//! There is nothing here but tests. Over a disk in memory editors submit changes, the committer makes its rounds, whose bytes are shown,
//! and builds generations, and forwarders send packets in them: alone and in threads, with a call of the device failing, and with each
//! allocation refused in turn. Packets of drawn bytes are passed from node to node over drawn schemes until they end, and each answer on
//! the way is judged by the bytes, the neighbours and the number of nodes alone. Of mailboxes the tests have what they give once they are
//! closed or shut, and of the lines what no input of a transcript asks for and no small device answers.
#![tactic(auto)]

#[cfg(test)]
mod boards;
#[cfg(test)]
mod builds;
#[cfg(test)]
mod burst;
#[cfg(test)]
mod faults;
#[cfg(test)]
mod forged;
#[cfg(test)]
mod handed;
#[cfg(test)]
mod inputs;
#[cfg(test)]
mod lines;
#[cfg(test)]
mod memory;
#[cfg(test)]
mod orders;
#[cfg(test)]
mod rounds;
#[cfg(test)]
mod seats;
#[cfg(test)]
mod threads;
