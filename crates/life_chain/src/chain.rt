//! Lives of one device, one after another.
ghost use Rattle.std.specs.Prelude.{◌≡◌, ◌≤◌, [], length, vec_capacity, IfOk, OnErr};
ghost use Rattle.life_chain.specs.Rooms.{HaveRooms};
ghost use Rattle.life_chain.specs.Words.{IsLeftByWord, any_word};
ghost use Rattle.life_chain.specs.Lived.{AreLived};
ghost use Rattle.life_chain.specs.Telling.{KeepsModel, AreTold};

use crate::crash::{Crash, ImageOfWord, SomeImage};
use crate::life::Life;
use crate::living::live;
use crate::report::{LifeReport, LivesReport};
use crate::rooms::{Rooms, add, room_for_all};
use checkpoint::standing_law;
use disk_trait::{CrashDisk, Disk, MemDisk};
use event_laws::{exactly_once_laws, tickets_law};
use std::alloc::{AllocError, Global};

/// Lives one after another: the device is opened, a generation is built by the life's words, its plan is armed; then come the events,
/// and a crash as its word says. Before the first life there has to be room for every reply, else nothing is done. Behind a life that
/// couldn't open there is none. This is [`lives_on`], without the disk that is left.
///
/// On a disk that keeps the model the report tells (`AreTold`, specs/Telling.antt):
///
/// - the first life opened to what the disk stood for (`first`), and each next one to the state after some of the requests that the
///   one before took, none of the groups in part that its events and replies say it gave to commits, with all that its commits answered Ok for and
///   all that it told an editor was accepted (`chained`);
/// - over all these lives each session's ticket is in at most once, and exactly once where an editor was told (`exactly_once`);
/// - a life that couldn't open had no memory or a device that failed, where the disk stood for anything at first (`refused`);
/// - each life ran as its report says (`lived`, in words at [`lives_on`]).
pub fn lives<D: CrashDisk + Drop>(
    alloc: Global,
    disk: D,
    lives: &[Life],
) -> Result<LivesReport, AllocError>
    ensures told { IfOk result (λ report. (left : D) × (KeepsModel D.Disk disk
        → AreTold D.Disk any_word disk lives.now report left)) }
{
    lives_on(alloc, disk, lives).0
}

/// The same lives, and the disk comes back: as the crash of the last life left it, or only read by an opening that was refused, or, where
/// there was no room for the replies, as it was handed over. So more lives may go on where these ended ([`crate::lives_law`]).
///
/// On a disk that keeps the model each report is that of its life (`AreLived`, specs/Lived.antt): what it opened to, what the rebuild and the
/// events were answered, and what its world stored; what a crash would have left at any moment since the disk was handed over to it, and
/// which ways its packets went. Each next life was handed the very disk that the crash of the one before had left. A life that couldn't open
/// only read the disk, which failed in the opening if the device is told; the refusal tells of the content's front.
pub fn lives_on<D: CrashDisk + Drop>(
    alloc: Global,
    disk: D,
    lives: &[Life],
) -> (Result<LivesReport, AllocError>, D)
    ensures told { KeepsModel D.Disk disk
        → IfOk result.0 (λ report. AreTold D.Disk any_word disk lives.now report result.1) }

    ensures no_memory { OnErr result.0 (result.1 ≡ disk) }
{
    lives_by::<D, SomeImage>(alloc, disk, lives)
}

/// The same on a disk in memory, which each crash leaves with the image of the life's word (`IsLeftByWord`, specs/Words.antt).
/// Such a disk keeps the model, so the report always tells of the lives (`AreTold`, specs/Telling.antt).
pub fn lives_in_memory(
    alloc: Global,
    disk: MemDisk,
    lives: &[Life],
) -> (Result<LivesReport, AllocError>, MemDisk)
    ensures told { IfOk result.0 (λ report. AreTold ⟦<MemDisk as Disk>⟧ IsLeftByWord disk lives.now report result.1) }

    ensures no_memory { OnErr result.0 (result.1 ≡ disk) }
{
    lives_by::<MemDisk, ImageOfWord>(alloc, disk, lives)
}

// The lives, whose crashes are those of C.
fn lives_by<D: CrashDisk + Drop, C: Crash<D>>(
    alloc: Global,
    disk: D,
    lives: &[Life],
) -> (Result<LivesReport, AllocError>, D)
    ensures told { KeepsModel D.Disk disk
        → IfOk result.0 (λ report. AreTold D.Disk C.by_word disk lives.now report result.1) }

    ensures no_memory { OnErr result.0 (result.1 ≡ disk) }
{
    // What a life leaves is what the next one opens, and the tickets of the two are in turn.
    standing_law();
    tickets_law();
    exactly_once_laws();
    match room_for_all(alloc, lives) {
        Err(refused) => (Err(refused), disk),
        Ok((rooms, reports)) => {
            let (report, left) = lives_in::<D, C>(alloc, disk, lives, rooms, reports);
            (Ok(report), left)
        }
    }
}

// The lives, with room for all replies and reports.
fn lives_in<D: CrashDisk + Drop, C: Crash<D>>(
    alloc: Global,
    disk: D,
    lives: &[Life],
    rooms: Rooms,
    reports: Vec<LifeReport>,
) -> (LivesReport, D)
    requires rooms { HaveRooms rooms.items lives.now }
    requires none { reports.items ≡ [] }
    requires spare { length lives.now ≤ vec_capacity reports }

    ensures { KeepsModel D.Disk disk
        → AreLived D.Disk C.by_word disk lives.now result.0.lives.items result.0.refused result.1 }
{
    let mut rooms = rooms;
    let mut reports = reports;
    let mut disk = disk;
    for life in lives {
        let replies = rooms.remove(0);
        match live::<D, C>(alloc, disk, life, replies) {
            Err((refused, left)) => {
                return (
                    LivesReport {
                        lives: reports,
                        refused: Some(refused),
                    },
                    left,
                );
            }
            Ok((lived, left)) => {
                add(&mut reports, lived);
                disk = left;
            }
        }
    }
    (
        LivesReport {
            lives: reports,
            refused: None,
        },
        disk,
    )
}
