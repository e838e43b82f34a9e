//! The laws of lives.
ghost use Rattle.life_chain.specs.Laws.{AreOne, AreNext};
ghost use Rattle.life_chain.specs.Words.{IsLeftByWord, any_word};

use checkpoint::standing_law;
use disk_trait::{CrashDisk, Disk, MemDisk};
use event_laws::{exactly_once_laws, tickets_law};

/// Two calls are one: lives of a disk, and then more lives of the disk that these left, are lives of the first disk. And what is said of
/// lives follows from that they are lives: each next one is one of the life before, and each ticket is in at most once.
pub fn lives_law<D: CrashDisk>()
    ensures one { AreOne D.Disk any_word }
    ensures next { AreNext D.Disk any_word }
    ensures one_in_memory { AreOne ⟦<MemDisk as Disk>⟧ IsLeftByWord }
    ensures next_in_memory { AreNext ⟦<MemDisk as Disk>⟧ IsLeftByWord }
{
    // A left disk stands for one state, which holds what was acknowledged; its tickets rise.
    standing_law();
    tickets_law();
    exactly_once_laws();
}
