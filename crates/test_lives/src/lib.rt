//! Tests of the event machine, of lives of a device in memory, of rehearsals, and of trials with a device stopped.
//!
//! There is nothing here but tests. Events that were answered by hand run whole, in two pieces cut at every place, and with each
//! allocation refused in turn, as two lives and a rehearsal do; the count comes to its limit; a life's journal is filled, and it rolls;
//! devices are no store, or fail in each call of an opening; calls go on where others ended. Drawn lists of a thousand events, drawn lives
//! and drawn rehearsals are judged, reply by reply, by a plain slow machine that shares no code with what is under test. Each kind of line
//! is read, and long texts; stops of calls, tables of kinds and single trials are counted by hand. Other rows of events, commits that fail,
//! editors who ask again after a crash, whole rehearsals and tables of all stops are in `conformance/events.txt`, `rehearse.txt` and
//! `crashes.txt`.
#![tactic(auto)]

#[cfg(test)]
mod tests;
