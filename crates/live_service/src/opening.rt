// Opening a service's device.
ghost use Rattle.std.specs.Prelude.{IfErr, IfOk};
ghost use Rattle.checkpoint.specs.Opening.{IsOpened};
ghost use Rattle.checkpoint.specs.StoreWords.{nodes_of};
ghost use Rattle.service_actors.specs.Source.{IsSourceOf};
ghost use Rattle.live_service.specs.ServeEnds.{IsRefusedFor};

use checkpoint::{Store, standing_law};
use command_output::Fault;
use device_commands::open;
use disk_trait::Disk;
use service_actors::WordSource;
use std::alloc::Global;
use value_syntax::LandmarkWords;

/// Opens a device, and reads which landmark words its nodes get. One that is refused was only read, and is handed back.
pub fn open_device<D: Disk>(
    alloc: Global,
    disk: D,
    words: &LandmarkWords,
) -> Result<(Store<D>, WordSource), (Fault, D)>
    ensures opened { IfOk result (λ r. IsOpened (D.view disk) r.0) }
    ensures source { IfOk result (λ r. IsSourceOf words.now (nodes_of r.0) r.1) }
    ensures refused { IfErr result (λ e. IsRefusedFor words.now (D.view disk) (D.view e.1) e.0) }
{
    // The disk's bytes stand for one state at most: the one that is opened.
    standing_law();
    let store = match open(alloc, disk) {
        Ok(store) => store,
        Err((fault, disk)) => return Err((fault, disk)),
    };
    if !words.is_within(store.nodes()) {
        return Err((Fault::Words, store.into_disk()));
    }
    match WordSource::of(alloc, words, store.nodes()) {
        Ok(source) => Ok((store, source)),
        Err(_) => Err((Fault::Memory, store.into_disk())),
    }
}
