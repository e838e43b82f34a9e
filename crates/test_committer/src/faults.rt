// A round of which a call of the device fails.
use crate::seats::{armed, due, opened, round, same};
use committer::{RebuildRefused, RoundRefused};
use disk_trait::{CrashDisk, Plan};
use graph_edits::Op;
use intake::Outcome;
use std::alloc::Global;
use std::process::Abort;
use std::sync::Wait;

// How many changes a device opens to, one change of which met this plan, after a crash by this word. The round tells that the
// device failed, and so does the editor's outcome.
fn count_after<R: Wait + Abort + Copy + Drop>(rt: R, alloc: Global, plan: Plan, word: u64) -> u64 {
    let mut at = armed(rt, alloc, 64, plan);
    at.submits(&rt, 0, 1, &[Op::Add(0, 1, 1)]);
    let failed = round(&rt, alloc, &mut at.committer);
    same(&rt, failed, Err(RoundRefused::Device), "the round");
    let down = round(&rt, alloc, &mut at.committer);
    same(&rt, down, Err(RoundRefused::Down), "the next round");
    let number = due(&mut at.committer);
    same(&rt, number, Err(RebuildRefused::Down), "what is due");
    at.hears(0);
    at.has(&rt, 0, Outcome::Down);
    opened(&rt, alloc, at.into_disk().crash(word))
        .store()
        .count()
}

// Which call fails, the word of the crash, and the count behind it. Where the first sync fails, the record has no gate, and none of the group is
// there. Where the last one fails, the sync of the gate, that byte decides, which is 1 where the crash leaves what was written or ones alone.
const COUNTS: [(u64, u64, u64); 8] = [
    (2, 0, 0),
    (2, 1, 0),
    (2, 256, 0),
    (2, 257, 0),
    (4, 0, 0),
    (4, 1, 1),
    (4, 256, 0),
    (4, 257, 1),
];

#[test]
fn the_first_and_the_last_sync_of_a_round_fail(rt: HostRuntime) {
    for (call, word, count) in &COUNTS {
        let found = count_after(rt, rt.alloc(), Plan::Fail(*call), *word);
        let found = (*call, *word, found);
        same(&rt, found, (*call, *word, *count), "a crash");
    }
}
