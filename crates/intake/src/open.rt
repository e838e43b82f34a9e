// A new intake: the taker's end of a queue, and an editor for each session, or for one alone.
ghost use Rattle.std.specs.Prelude.{◌≡◌, ◌+◌, ◌<◌, ◌≤◌, [], IfOk, vec_len};
ghost use Rattle.intake.specs.Editors.{editor_at, editors_from};

use crate::editor::Editor;
use crate::queue::{Taker, open_queue};
use generations::BoardReader;
use requests::SESSIONS;
use std::alloc::{AllocError, Global};

/// A queue of so many places, with its taker and one editor for each reader: sessions from 0, whose tickets start here.
pub fn open_intake(
    alloc: Global,
    capacity: usize,
    mut readers: Vec<BoardReader>,
    starts: &[u64; SESSIONS],
) -> Result<(Taker, Vec<Editor>), AllocError>
    requires capacity { 0 < capacity }
    requires readers { vec_len readers ≤ SESSIONS }
    ensures starts { IfOk result (λ r. r.0.starts ≡ starts.now) }
    ensures got { IfOk result (λ r. r.0.got ≡ []) }
    ensures empties { IfOk result (λ r. r.0.empties ≡ 0) }
    ensures first { IfOk result (λ r. r.0.first ≡ 0) }
    ensures made { IfOk result (λ r. r.0.made ≡ vec_len readers) }
    ensures editors { IfOk result (λ r. r.1.items ≡ editors_from r.0.queue starts.now 0 readers.items) }
{
    let count = readers.len() as u8;
    let mut taker = open_queue(alloc, capacity, starts)?;
    let mut editors = Vec::with_capacity(alloc, count as usize)?;
    for session in 0..count {
        let reader = readers.remove(0);
        let sender = taker.seat(session, starts[session as usize])?;
        editors.push(Editor::new(sender, reader))?;
    }
    Ok((taker, editors))
}

/// A queue of so many places, with its taker and the editor of one session: no other session has one. The tickets start here.
pub fn open_intake_for(
    alloc: Global,
    capacity: usize,
    session: u8,
    reader: BoardReader,
    starts: &[u64; SESSIONS],
) -> Result<(Taker, Editor), AllocError>
    requires capacity { 0 < capacity }
    requires session { session < SESSIONS }
    ensures starts { IfOk result (λ r. r.0.starts ≡ starts.now) }
    ensures got { IfOk result (λ r. r.0.got ≡ []) }
    ensures empties { IfOk result (λ r. r.0.empties ≡ 0) }
    ensures alone { IfOk result (λ r. (r.0.first ≡ session) × (r.0.made ≡ session + 1)) }
    ensures editor { IfOk result (λ r. r.1 ≡ editor_at r.0.queue starts.now session reader) }
{
    let mut taker = open_queue(alloc, capacity, starts)?;
    for _ in 0..session {
        taker.skip();
    }
    let sender = taker.seat(session, starts[session as usize])?;
    Ok((taker, Editor::new(sender, reader)))
}
