//! The laws of standing and of the layout.
ghost use Rattle.std.specs.Prelude.{◌≡◌};
ghost use Rattle.layout_2.specs.Layout.{device_len, worn_limit, sessions, magic, header_len, slots_start, head_len, tickets_len, edges_start, most_nodes, most_edges, checkpoint_room, journal_room, slot_room, version, slot_start, journal_start};
ghost use Rattle.layout_2.specs.Standing.{OneState};

use crate::form::Layout2;
use crate::layout::{
    CHECKPOINT_ROOM, CLOSED_GATE, DEVICE_LEN, EDGES_START, FIRST_EPOCH, HEAD_LEN, HEADER_LEN,
    JOURNAL_ROOM, MAGIC, MOST_EDGES, MOST_NODES, OPEN_GATE, SLOT_ROOM, SLOTS_START, TICKETS_LEN,
    VERSION, WORN_LIMIT,
};
use requests::SESSIONS;

/// An image stands for at most one state.
pub fn standing_law()
    ensures { OneState }
{
    layout_reader::standing_law::<Layout2>()
}

/// The constants are the numbers of the format.
pub fn layout_law()
    ensures worn_limit { WORN_LIMIT ≡ worn_limit }
    ensures sessions { SESSIONS ≡ sessions }
    ensures version { VERSION ≡ version }
    ensures magic { MAGIC ≡ magic }
    ensures header { HEADER_LEN ≡ header_len }
    ensures gates { (OPEN_GATE ≡ 1) × (CLOSED_GATE ≡ 0) }
    ensures first_epoch { FIRST_EPOCH ≡ 1 }
    ensures slots { SLOTS_START ≡ slots_start }
    ensures head { HEAD_LEN ≡ head_len }
    ensures tickets { TICKETS_LEN ≡ tickets_len }
    ensures edges { EDGES_START ≡ edges_start }
    ensures most_nodes { MOST_NODES ≡ most_nodes }
    ensures most_edges { MOST_EDGES ≡ most_edges }
    ensures checkpoint { CHECKPOINT_ROOM ≡ checkpoint_room }
    ensures journal { JOURNAL_ROOM ≡ journal_room }
    ensures slot { SLOT_ROOM ≡ slot_room }
    ensures device { DEVICE_LEN ≡ device_len }
    ensures first_slot { (slot_start 0 ≡ 4096) × (journal_start 0 ≡ 532480) }
    ensures second_slot { (slot_start 1 ≡ 1581056) × (journal_start 1 ≡ 2109440) }
{}
