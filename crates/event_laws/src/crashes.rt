//! Histories: what a life of a store has come to, and what a crash may leave of it.
//!
//! A life opens a store, takes requests and gives groups of them to commits, until a crash. Its history (specs/History.antt) is the
//! requests that it took, how many of them are settled, the groups, and the store's state. An image stands for a prefix state of it
//! where it stands for the state after some of the requests, and no group is in it in part.
//!
//! # The contract
//!
//! Whoever runs a life says of each of its steps which of five things it did to
//! disk and history (`Happens`, specs/Happenings.antt): the disk stayed, and requests may have been taken; a commit had no memory; a
//! commit was refused; the device failed in it; it was answered Ok. [`history_law`] then says what goes on from step to step
//! (`IsRun`, specs/Runs.antt): a crash since any of the life's moments, or now, leaves a prefix state whose count is at least what
//! commits had answered Ok for by that moment. A moment is a clock of the disk and a count; nothing here knows of events or
//! answers, or of postings, packets and queues.
//!
//! ```text
//! history_law::<D>();
//! // begins: a store that is up begins a run, from what it opened to
//! // goes_on: a call of it that does one of the five things to disk and history leaves a run, with one moment more
//! ```
ghost use Rattle.event_laws.specs.CrashLaws.{Begins, GoesOn, MomentsRise, StaysRun, NowCounts, IsAfterFirst};

use disk_trait::Disk;
use group_commit::settling_law;

/// A life begins as a run where each image that a crash may leave stands for what was opened; it goes on by each happening, with one
/// moment more, whose clock hasn't fallen and whose count is higher by the number that was answered Ok for; it stays one where what
/// is seen of the disk stays; now may be one of its moments; and a state at a place of the history is that after the first accepted
/// changes.
pub fn history_law<D: Disk>()
    ensures begins { Begins (λ (disk : D). D.view disk) }
    ensures goes_on { GoesOn (λ (disk : D). D.view disk) }
    ensures moments_rise { MomentsRise (λ (disk : D). D.view disk) }
    ensures stays_run { StaysRun (λ (disk : D). D.view disk) }
    ensures now_counts { NowCounts (λ (disk : D). D.view disk) }
    ensures after_first { IsAfterFirst }
{
    // What is accepted leads to the state, and counts up by its number.
    settling_law();
}
