// A new board: its writer, and the readers that it seats.
ghost use Rattle.std.specs.Prelude.{◌≡◌, [], ◌≤◌, IfOk, All, Some, vec_len};
ghost use Rattle.left_right.specs.Sides.{view};
ghost use Rattle.generations.specs.Knowledges.{all_seen};
ghost use Rattle.generations.specs.Writes.{IsSameWriter};

use crate::fold::Board;
use crate::history::{History, open};
use crate::reader::{BoardReader, Observation, Publication};
use crate::replica::{Replica, Update};
use crate::writer::BoardWriter;
use atomic_table::{Join, Split};
use left_right::writer::Writer;
use requests::SESSIONS;
use std::alloc::{AllocError, Global};
use std::sync::Wait;

/// The most readers that a board has: 64 editors, 64 forwarders, and one more.
pub const MOST_READERS: usize = 129;

struct Handover;

impl Split<Option<History>> for Handover {
    ghost left = { λ v. v };

    ghost right = { λ v. v };
}

impl Join<Option<History>> for Handover {
    ghost use Rattle.std.specs.Prelude.{None};
    ghost use Rattle.generations.specs.Shares.{informed};

    ghost both = { informed };

    ghost spent = { None };
}

// A reader that knows what the writer knows.
fn seated(
    writer: &mut Writer<Replica, Update, Option<History>, Publication>,
    history: &History,
) -> Result<BoardReader, AllocError>
    requires { view writer.old.desk.place ≡ Some history.now }
    ensures writer { IsSameWriter writer.old writer.new }
    ensures reader { IfOk result (λ r. r ≡ all_seen history.now) }
{
    let mut reader = writer.factory().reader()?;
    reader.learn::<Handover>(writer.tell::<Handover>());
    Ok(BoardReader::new(reader, history.again()))
}

fn seat_all(
    alloc: Global,
    writer: &mut Writer<Replica, Update, Option<History>, Publication>,
    history: &History,
    readers: usize,
) -> Result<Vec<BoardReader>, AllocError>
    requires { view writer.old.desk.place ≡ Some history.now }
    ensures writer { IsSameWriter writer.old writer.new }
    ensures readers { IfOk result (λ v. (vec_len v ≡ readers) × All (λ r. r ≡ all_seen history.now) v.items) }
{
    let mut all = Vec::new(alloc);
    for _ in 0..readers {
        let reader = seated(writer, history)?;
        all.push(reader)?;
    }
    Ok(all)
}

/// A board with no posting, its writer and its readers. The sessions' tickets begin at `starts`, and the count of accepted
/// changes at `count`.
pub fn board<R: Wait + Drop>(
    alloc: Global,
    rt: R,
    readers: usize,
    starts: &[u64; SESSIONS],
    count: u64,
) -> Result<(BoardWriter<R>, Vec<BoardReader>), AllocError>
    requires { readers ≤ MOST_READERS }
    ensures starts { IfOk result (λ r. r.0.opening.starts ≡ starts.now) }
    ensures count { IfOk result (λ r. r.0.opening.count ≡ count) }
    ensures posted { IfOk result (λ r. r.0.posted ≡ []) }
    ensures kept { IfOk result (λ r. r.0.kept ≡ []) }
    ensures readers { IfOk result (λ r. vec_len r.1 ≡ readers) }
    ensures seen { IfOk result (λ r. All (λ b. b ≡ all_seen (record { opening = r.0.opening; log = [] })) r.1.items) }
{
    let (head, history) = open(starts, count);
    let first = Replica {
        board: Board::new(starts, count),
        history: history.again(),
    };
    let second = Replica {
        board: Board::new(starts, count),
        history: history.again(),
    };
    let writer: Writer<Replica, Update, Option<History>, Publication> = Writer::new(
        alloc,
        first,
        second,
        readers + 1,
    )?;
    let (mut writer, shown) = writer.publish_as::<Observation, R>(&rt);
    if shown.is_err() {
        writer.take(&rt);
        return Err(AllocError);
    }
    match seat_all(alloc, &mut writer, &history, readers) {
        Ok(all) => Ok((BoardWriter::new(head, rt, writer, history), all)),
        Err(e) => {
            writer.take(&rt);
            Err(e)
        }
    }
}
