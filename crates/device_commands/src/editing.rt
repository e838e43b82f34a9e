//! One change of a device.
ghost use Rattle.std.specs.Prelude.{◌≡◌, ◌≢◌, ◌<◌, ◌≤◌, ◌⊎◌, ◌↔◌, IfOk, IfErr, IsErrOf, Ok, OnOk, false};
ghost use Rattle.requests.specs.Tickets.{sessions, worn_limit};
ghost use Rattle.checkpoint.specs.StoreWords.{state_of, is_down};
ghost use Rattle.device_commands.specs.Answer.{state_after, ticket_of, IsNew};
ghost use Rattle.device_commands.specs.Edits.{EditsDevice, IsFound, IsPastLimits, IsSettledTo};
ghost use Rattle.device_commands.specs.Openings.{IsChangeFault};

use crate::one_round::settled;
use crate::opening::open;
use checkpoint::{Store, WORN_LIMIT, standing_law};
use command_output::Fault;
use disk_trait::Disk;
use generations::Verdict;
use graph_edits::Change;
use requests::Request;
use std::alloc::Global;
use std::sync::Wait;
use std::thread::Threads;

/// Makes one change under a ticket of a session, and answers what became of it. Where no ticket is named, it is the next one.
pub fn edit<D: Disk, R: Threads + Wait + Sync>(
    rt: &R,
    alloc: Global,
    disk: D,
    session: u8,
    named: Option<u64>,
    change: Change,
) -> (Result<Verdict, Fault>, D)
    requires { session < sessions }
    ensures { EditsDevice session named change (D.view disk) (D.view result.1) result.0 }
{
    // The disk's bytes stand for one state at most: the one that is edited.
    standing_law();
    match open(alloc, disk) {
        Ok(store) => {
            let (answer, store) = settle_one(rt, alloc, store, session, named, change);
            (answer, store.into_disk())
        }
        Err((fault, disk)) => (Err(fault), disk),
    }
}

// Settles one change, if its ticket is new.
fn settle_one<D: Disk, R: Threads + Wait + Sync>(
    rt: &R,
    alloc: Global,
    store: Store<D>,
    session: u8,
    named: Option<u64>,
    change: Change,
) -> (Result<Verdict, Fault>, Store<D>)
    requires up { is_down store ≡ false }
    requires there { session < sessions }
    ensures settled { IsSettledTo (state_after (state_of store) session named change) change store result.1 result.0 }
    ensures kept { IfErr result.0 (λ fault. fault ≢ Fault.Device → state_of result.1 ≡ state_of store) }
    ensures new { OnOk result.0 (IsNew (state_of store) session named) }

    ensures already_in { IsErrOf result.0 Fault.AlreadyIn → ¬ (IsNew (state_of store) session named) }
    ensures unwritten { IsErrOf result.0 Fault.AlreadyIn → result.1 ≡ store }
    ensures worn { IsErrOf result.0 Fault.Worn → IsPastLimits (state_of store) session named change }
    ensures faults { IfErr result.0 (λ fault. IsChangeFault fault) }
{
    match ticket_for(named, store.resume(session)) {
        Ok(ticket) => {
            let request = Request {
                session,
                ticket,
                change,
            };
            let (answer, store) = settled(rt, alloc, store, request);
            (found(answer, &store, session, ticket), store)
        }
        Err(fault) => (Err(fault), store),
    }
}

// What became of a change, also where its mark wasn't told: it is in exactly if its ticket is the session's last one. A store whose device
// failed doesn't say.
fn found<D: Disk>(
    answer: Result<Verdict, Fault>,
    store: &Store<D>,
    session: u8,
    ticket: u64,
) -> Result<Verdict, Fault>
    requires { session < sessions }
    ensures told { IfOk answer (λ verdict. result ≡ Ok verdict) }
    ensures untold { IfErr answer (λ fault. IsFound (state_of store.now) session ticket fault result) }
{
    match answer {
        Ok(verdict) => Ok(verdict),
        Err(Fault::Device) => Err(Fault::Device),
        Err(_) if store.resume(session) == ticket => Ok(Verdict::Accepted {
            count: store.count(),
        }),
        Err(fault) => Err(fault),
    }
}

// The ticket of a change, where it is new and within the limit.
fn ticket_for(named: Option<u64>, last: u64) -> Result<u64, Fault>
    ensures ticket { IfOk result (λ ticket. ticket ≡ ticket_of last named) }
    ensures new { IfOk result (λ ticket. last < ticket) }
    ensures fits { IfOk result (λ ticket. ticket ≤ worn_limit) }
    ensures already_in { IsErrOf result Fault.AlreadyIn ↔ (ticket_of last named ≤ last) }
    ensures worn { IsErrOf result Fault.Worn ↔ ((last < ticket_of last named) × (worn_limit < ticket_of last named)) }
    ensures faults { IfErr result (λ fault. (fault ≡ Fault.AlreadyIn) ⊎ (fault ≡ Fault.Worn)) }
{
    match named {
        Some(ticket) if ticket <= last => Err(Fault::AlreadyIn),
        Some(ticket) if ticket > WORN_LIMIT => Err(Fault::Worn),
        Some(ticket) => Ok(ticket),
        None if last >= WORN_LIMIT => Err(Fault::Worn),
        None => Ok(last + 1),
    }
}
