// The board as a plain value.
use crate::seats::{got, same, shelf_of};
use generations::{Board, Mark, Posting, Verdict};
use graph_edits::Code;
use requests::{SESSIONS, WORN_LIMIT};
use sample_networks::graph_of;
use scheme_builds::scheme_of;
use std::alloc::Global;
use std::process::Abort;
use std::sync::Arc;

// The mark of a session: what became of this ticket.
fn mark(session: u8, ticket: u64, verdict: Verdict) -> Mark {
    Mark {
        session,
        ticket,
        verdict,
    }
}

fn accepted(count: u64) -> Verdict {
    Verdict::Accepted { count }
}

// Folds marks: what the board says then of each session's last mark and last accepted ticket.
fn folds_marks(rt: &impl Abort, alloc: Global, board: &mut Board) {
    let (op, code) = (3, Code::NoEdge);
    let last = mark(0, 12, Verdict::Refused { op, code });
    let worn = mark(63, WORN_LIMIT, accepted(WORN_LIMIT));
    let marks = got(rt, [mark(0, 11, accepted(6)), worn, last].to_vec(alloc));
    got(rt, board.fold(&Posting::Marks(marks)));
    let rows = [
        (0u8, Some(last), 11u64),
        (1, None, 10),
        (63, Some(worn), WORN_LIMIT),
        (64, None, 0),
    ];
    for (session, last, ticket) in &rows {
        let found = (*session, board.mark(*session), board.accepted(*session));
        same(rt, found, (*session, *last, *ticket), "a session");
    }
    let found = (board.count(), board.is_down(), board.shelf().len());
    same(rt, found, (WORN_LIMIT, false, 0), "the marks");
}

// Folds five generations of one node, of which the last four stay.
fn folds_five(rt: &impl Abort, alloc: Global, board: &mut Board) {
    let graph = got(rt, graph_of(alloc, 1, &[]));
    for number in 1..6u64 {
        let scheme = got(rt, scheme_of(alloc, &graph, &[], number, alloc));
        let scheme = got(rt, Arc::new(alloc, scheme));
        let posting = Posting::Generation { number, scheme };
        got(rt, board.fold(&posting));
    }
    same(
        rt,
        shelf_of(board),
        [Some(2), Some(3), Some(4), Some(5)],
        "the shelf",
    );
    for shelved in board.shelf() {
        if let Some(shelved) = shelved {
            let found = shelved.scheme.parts().generation;
            same(rt, found, shelved.number, "a scheme's generation");
        }
    }
}

#[test]
fn folds_marks_generations_and_the_failure(rt: HostRuntime) {
    let (alloc, rt) = (rt.alloc(), &rt);
    let mut board = Board::new(&[10; SESSIONS], 5);
    folds_marks(rt, alloc, &mut board);
    folds_five(rt, alloc, &mut board);
    got(rt, board.fold(&Posting::Down));
    same(rt, board.is_down(), true, "down");
}
