// How a life ends.
ghost use Rattle.std.specs.Prelude.{ℕ, IsTrue};
ghost use Rattle.disk_trait.specs.Disk.{MayLeave, IsSameDevice, IsSettled};
ghost use Rattle.life_chain.specs.Words.{IsLeftByWord, any_word};

use disk_trait::{CrashDisk, MemDisk};

/// A crash of a disk, and what is known of the image that a word chooses.
pub(crate) trait Crash<D: CrashDisk> {
    ghost by_word: { D → ℕ → D → Type 0 };

    fn crash(disk: D, word: u64) -> D
        ensures by_word { by_word disk word result }
        ensures image { IsTrue (D.view disk).keeps_model → MayLeave (D.view disk) (D.view result).content }
        ensures settled { IsTrue (D.view disk).keeps_model → IsSettled (D.view result) }
        ensures ran { IsSameDevice (D.view disk) (D.view result) };
}

/// Of any disk: one of the images that the crash may leave.
pub(crate) struct SomeImage;

impl<D: CrashDisk> Crash<D> for SomeImage {
    ghost by_word = { any_word };

    fn crash(disk: D, word: u64) -> D {
        disk.crash(word)
    }
}

/// Of a disk in memory: the image of the word.
pub(crate) struct ImageOfWord;

impl Crash<MemDisk> for ImageOfWord {
    ghost by_word = { IsLeftByWord };

    fn crash(disk: MemDisk, word: u64) -> MemDisk {
        disk.crash(word)
    }
}
