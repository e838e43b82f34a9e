// Disks, journals and devices, stores and desks, and what they refuse.
use checkpoint::{
    CommitRefused, DEVICE_LEN, FormatRefused, OpenRefused, RollRefused, Store, WORN_LIMIT, format,
};
use disk_trait::{CrashDisk, DeviceFault, Disk, FileDisk, MemDisk, Plan, close, publish};
use generations::{Mark, Posting, Verdict};
use graph_edits::{Change, Code, Graph, Op, Overlay};
use group_commit::{Desk, DeskRefused, MOST_HELD};
use journal::{AppendRefused, Area, Journal, MOST_ENTRIES, ScanRefused, record_law, spelling_laws};
use migrate::{MigrateRefused, Moved, bring_over, migrate};
use new_devices::{BackupRefused, MakeLog, NewDevices, NoDevices, backed_up};
use requests::{Request, SESSIONS};
use std::alloc::{AllocError, AllocGlobal, Global};
use std::fmt::Debug;
use std::process::Abort;
use test_doubles::CRASH_WORDS;

mod backups;
mod commits;
mod damage;
mod disks;
mod formats;
mod full;
mod groups;
mod helpers;
mod journals;
mod memory;
mod migrations;
mod openings;
mod rolls;
mod slow_reader;
mod stores;

use full::{PAST_THE_END, full_bytes};
use helpers::*;
use stores::*;

#[test]
fn refusals_have_their_numbers(rt: HostRuntime) {
    use AppendRefused as A;
    use CommitRefused as C;
    use DeskRefused as D;
    use FormatRefused as F;
    use MigrateRefused as M;
    use OpenRefused as O;
    use RollRefused as R;
    use ScanRefused as S;
    let rt = &rt;
    let append = [A::NoRoom as u8, A::Device as u8, A::Memory as u8];
    let scan = [S::Damaged as u8, S::Device as u8, S::Memory as u8];
    let format = [F::BadSize as u8, F::BadLength as u8, F::Device as u8];
    let fronts = [O::NotFormatted as u8, O::BadVersion as u8, O::Damaged as u8];
    let old = [M::NotFormatted as u8, M::BadVersion as u8, M::Damaged as u8];
    let desk = [D::Device as u8, D::Down as u8, D::Memory as u8];
    let first = [append, scan, format, fronts, old, desk];
    same(rt, first, [[1, 2, 3]; 6], "the first ones");
    let later = [M::OldDevice as u8, M::Memory as u8, M::BadLength as u8];
    same(rt, later, [4, 5, 6], "migrate");
    same(rt, M::NewDevice as u8, 7, "migrate");
    same(rt, [O::Device as u8, O::Memory as u8], [4, 5], "open");
    let commit = [C::NeedsRoll as u8, C::Device as u8, C::Memory as u8];
    same(rt, commit, [1, 2, 3], "commit");
    same(rt, [R::Device as u8, R::Memory as u8], [2, 3], "roll");
    let down = [C::Down as u8, R::Down as u8];
    same(rt, down, [4; 2], "down");
    let worn = [C::Worn as u8, R::Worn as u8, D::Worn as u8];
    same(rt, worn, [5; 3], "worn");
}
