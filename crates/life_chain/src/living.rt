// One life.
ghost use Rattle.std.specs.Prelude.{◌≡◌, replicate, IfOk, IfErr};
ghost use Rattle.disk_trait.specs.Disk.{IsSameDevice};
ghost use Rattle.checkpoint.specs.StoreWords.{state_of};
ghost use Rattle.event_model.specs.Machines.{fresh_session};
ghost use Rattle.life_chain.specs.Rooms.{IsRoomFor};
ghost use Rattle.life_chain.specs.Lived.{IsLived, IsRefusedOpening};
ghost use Rattle.life_chain.specs.Telling.{KeepsModel};

use crate::crash::Crash;
use crate::life::Life;
use crate::report::LifeReport;
use checkpoint::{OpenRefused, Store};
use disk_trait::{CrashDisk, Disk};
use event_laws::{acknowledged_law, history_law};
use event_model::{Reply, Session};
use graph_edits::Graph;
use group_commit::Desk;
use interleave::{World, fresh_sessions};
use std::alloc::{AllocError, Global};

/// One life of a disk, whose replies have their room: the report of it, and the disk after its crash. Where the disk isn't opened, or
/// there is no memory for the sessions or for a copy of the network, it comes back.
pub(crate) fn live<D: CrashDisk + Drop, C: Crash<D>>(
    alloc: Global,
    disk: D,
    life: &Life,
    replies: Vec<Reply>,
) -> Result<(LifeReport, D), (OpenRefused, D)>
    requires room { IsRoomFor replies life.now }

    ensures ran { IfOk result (λ r. IsSameDevice (D.view disk) (D.view r.1)) }

    ensures lived { KeepsModel D.Disk disk → IfOk result (λ r. IsLived D.Disk C.by_word disk life.now r.0 r.1) }

    ensures refused { KeepsModel D.Disk disk → IfErr result (λ e. IsRefusedOpening D.Disk disk e.0 e.1) }
{
    let store = match Store::open(alloc, disk) {
        Ok(store) => store,
        Err(refused) => return Err(refused),
    };
    let Ok((graph, sessions)) = parts_of(alloc, &store, life.sessions) else {
        return Err((OpenRefused::Memory, store.into_disk()));
    };
    // What was opened is a moment of this life, and holds what was acknowledged before.
    history_law::<D>();
    acknowledged_law();
    let count = store.count();
    let tickets = store.starts();
    let mut replies = replies;
    let mut world = World::with_sessions(alloc, Desk::new(store), sessions, life.capacity);
    let rebuilt = world.rebuild(alloc, life.words.as_slice());
    world.arm(life.plan);
    world.run_into(alloc, life.events.as_slice(), &mut replies);
    let (stored, desk) = world.into_parts();
    let disk = C::crash(desk.into_store().into_disk(), life.word);
    let report = LifeReport {
        count,
        graph,
        tickets,
        rebuilt,
        replies,
        stored,
    };
    Ok((report, disk))
}

// What a life takes memory for before it begins: a copy of the network for the report, and the sessions.
fn parts_of<D: Disk>(
    alloc: Global,
    store: &Store<D>,
    sessions: usize,
) -> Result<(Graph, Vec<Session>), AllocError>
    ensures graph { IfOk result (λ parts. parts.0 ≡ (state_of store.now).graph) }
    ensures sessions { IfOk result (λ parts. parts.1.items ≡ replicate sessions fresh_session) }
{
    let graph = store.graph().try_clone(alloc)?;
    let sessions = fresh_sessions(alloc, sessions)?;
    Ok((graph, sessions))
}
