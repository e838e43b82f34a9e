//! One change on an open store: an editor in a thread of its own submits it, one round of a committer settles it, and what is answered
//! is the editor's outcome.
ghost use Rattle.std.specs.Prelude.{◌≡◌, ◌<◌, ◌∷◌, [], ℕ, IfOk, IfErr, IsErrOf, None, false};
ghost use Rattle.requests.specs.Tickets.{sessions};
ghost use Rattle.requests.specs.declared.request.Request.{Request as Asked};
ghost use Rattle.layout_2.specs.State.{IsNext};
ghost use Rattle.checkpoint.specs.StoreWords.{state_of, is_down};
ghost use Rattle.intake.specs.Editors.{IsSameEditor};
ghost use Rattle.committer.specs.CommitterWords.{posts_of, store_of};
ghost use Rattle.device_commands.specs.Answer.{IsTaken, state_by};
ghost use Rattle.device_commands.specs.Edits.{IsSettledTo};
ghost use Rattle.device_commands.specs.Openings.{IsDeskFault, IsOutcomeFault, IsQueueFault};
ghost use Rattle.device_commands.specs.Seats.{AreSeats, HasSubmitted, IsSeatOf, IsToldBy, round_fault};

use checkpoint::Store;
use command_output::Fault;
use committer::{Committer, RoundRefused};
use disk_trait::Disk;
use generations::{BoardWriter, Mark, Verdict, board};
use graph_edits::Change;
use group_commit::Desk;
use intake::{Editor, Standing, SubmitRefused, Taker, open_intake_for};
use requests::{Request, SESSIONS};
use std::alloc::{AllocError, Global};
use std::snapshot::Snapshot;
use std::sync::Wait;
use std::thread;
use std::thread::{Promise, Threads};

// What an editor's thread answers: the editor that it was given, behind one submit.
#[derive(Drop)]
struct SubmitPromise {
    editor: Snapshot<Editor>,
    ticket: u64,
    change: Snapshot<Change>,
}

impl Promise<(Editor, Option<SubmitRefused>)> for SubmitPromise {
    ghost use Rattle.device_commands.specs.Seats.{HasSubmitted};

    ghost kept_by = { λ p r. HasSubmitted p.editor.value p.ticket p.change.value r.0 r.1 };
}

/// Has the editor of a request's session submit it, in a thread of its own, and a committer take, commit and post it in one round.
///
/// Where no thread is to be had, nothing was submitted.
pub fn settled<D: Disk, R: Threads + Wait + Sync>(
    rt: &R,
    alloc: Global,
    store: Store<D>,
    request: Request,
) -> (Result<Verdict, Fault>, Store<D>)
    requires up { is_down store ≡ false }
    requires next { IsNext (state_of store).tickets request }
    ensures settled { IsSettledTo (state_by (state_of store) request) request.change store result.1 result.0 }
    ensures worn { IsErrOf result.0 Fault.Worn → IsTaken (state_of store) request.change }
    ensures faults { IfErr result.0 (λ fault. IsDeskFault fault) }
{
    let (starts, count) = (store.starts(), store.count());
    let Ok((writer, taker, editor)) = seats(rt, alloc, request.session, &starts, count) else {
        return (Err(Fault::Memory), store);
    };
    let mut committer = Committer::new(Desk::new(store), taker, writer);
    match submitted(rt, editor, request.ticket, request.change) {
        Ok(editor) => {
            let answer = round(rt, alloc, &mut committer, editor);
            (answer, committer.into_store())
        }
        Err(fault) => (Err(fault), committer.into_store()),
    }
}

// A board with one reader, and a queue of one place with the editor of this session alone.
fn seats<'a, R: Wait>(
    rt: &'a R,
    alloc: Global,
    session: u8,
    starts: &[u64; SESSIONS],
    count: u64,
) -> Result<(BoardWriter<&'a R>, Taker, Editor), AllocError>
    requires { session < sessions }
    ensures { IfOk result (λ r. AreSeats session starts.now count r.0 r.1 r.2) }
{
    let (writer, mut readers) = board(alloc, rt, 1, starts, count)?;
    let Some(reader) = readers.pop() else {
        unreachable!()
    };
    let (taker, editor) = open_intake_for(alloc, 1, session, reader, starts)?;
    Ok((writer, taker, editor))
}

// Has an editor submit a change, in a thread of its own, and gives the editor back.
fn submitted<R: Threads + Wait + Sync>(
    rt: &R,
    editor: Editor,
    ticket: u64,
    change: Change,
) -> Result<Editor, Fault>
    ensures put { IfOk result (λ back. HasSubmitted editor ticket change back None) }
    ensures fault { IfErr result (λ fault. IsQueueFault fault) }
{
    thread::scope(
        thread::scope_env(),
        rt,
        |scope| -> Result<Editor, Fault>
            ensures put { IfOk result (λ back. HasSubmitted editor ticket change back None) }
            ensures fault { IfErr result (λ fault. IsQueueFault fault) }
        {
            let promise = SubmitPromise {
                editor: Snapshot::of(&editor),
                ticket,
                change: Snapshot::of(&change),
            };
            let job = move || -> (Editor, Option<SubmitRefused>)
                ensures { HasSubmitted editor ticket change result.0 result.1 }
            { put(rt, editor, ticket, change) };
            let Ok(child) = scope.spawn_with(promise, job) else {
                return Err(Fault::NoThread);
            };
            match child.join(rt) {
                (editor, None) => Ok(editor),
                // Of a board that gives no look the user's text is that of memory.
                (_, Some(SubmitRefused::BoardShut)) => Err(Fault::Memory),
                (_, Some(_)) => Err(Fault::Internal),
            }
        },
    )
}

// Submits a change, and says why it was refused.
fn put<W: Wait>(
    rt: &W,
    editor: Editor,
    ticket: u64,
    change: Change,
) -> (Editor, Option<SubmitRefused>)
    ensures { HasSubmitted editor ticket change result.0 result.1 }
{
    let mut editor = editor;
    match editor.submit(rt, ticket, change) {
        Ok(()) => (editor, None),
        Err((refused, _)) => (editor, Some(refused)),
    }
}

// One round, and the verdict that the editor finds behind it.
fn round<D: Disk, Q: Wait + Drop, W: Wait>(
    rt: &W,
    alloc: Global,
    committer: &mut Committer<D, Q>,
    editor: Editor,
) -> Result<Verdict, Fault>
    requires { IsSeatOf committer.old editor }
    ensures settled { (r : Asked) → editor.put ≡ r ∷ [] → IsSettledTo (state_by (state_of (store_of committer.old)) r)
        r.change (store_of committer.old) (store_of committer.new) result }
    ensures worn { (r : Asked) → editor.put ≡ r ∷ [] → IsErrOf result Fault.Worn
        → IsTaken (state_of (store_of committer.old)) r.change }
    ensures faults { IfErr result (λ fault. IsDeskFault fault) }
{
    let mut editor = editor;
    let round = committer.round(alloc, rt);
    let seen = outcome(committer, &mut editor);
    // What it submitted is what was taken, or waits.
    let _watcher = committer.end(editor);
    match round {
        Ok(_) => seen,
        Err(refused) => Err(fault_of(refused)),
    }
}

// The editor's outcome, once it has learnt what was posted.
fn outcome<D: Disk, Q: Wait + Drop>(
    committer: &Committer<D, Q>,
    editor: &mut Editor,
) -> Result<Verdict, Fault>
    requires { editor.old.known.opening ≡ (posts_of committer.now).opening }
    ensures same { IsSameEditor editor.old editor.new }
    ensures put { editor.new.put ≡ editor.old.put }
    // By what is posted.
    ensures told { IfOk result (IsToldBy (posts_of committer.now) editor.old) }
    ensures fault { IfErr result (λ fault. IsOutcomeFault fault) }
{
    let told = committer.told();
    editor.learn(&told);
    let standing = editor.standing();
    // Nothing was posted that wasn't told.
    if !told.history().covers(&editor.known()) {
        return Err(Fault::Internal);
    }
    match standing {
        Ok(standing) => verdict(standing),
        // Of a board that gives no look the user's text is that of memory.
        Err(_) => Err(Fault::Memory),
    }
}

// The verdict that an editor's standing tells.
fn verdict(standing: Standing) -> Result<Verdict, Fault>
    ensures told { IfOk result (λ verdict. (mark : Mark) × (standing ≡ Standing.Settled mark) × (verdict ≡ mark.verdict)) }
    ensures fault { IfErr result (λ fault. fault ≡ Fault.Internal) }
{
    match standing {
        Standing::Settled(mark) => Ok(mark.verdict),
        Standing::Nothing | Standing::Down | Standing::Waiting => Err(Fault::Internal),
    }
}

// What is told where a round is refused.
fn fault_of(refused: RoundRefused) -> Fault
    ensures { result ≡ round_fault refused }
{
    match refused {
        RoundRefused::Device | RoundRefused::Down => Fault::Device,
        RoundRefused::Memory | RoundRefused::Board => Fault::Memory,
        RoundRefused::Worn => Fault::Worn,
    }
}
