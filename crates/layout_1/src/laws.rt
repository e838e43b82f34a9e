//! The laws of standing and of the layout.
ghost use Rattle.std.specs.Prelude.{◌≡◌};
ghost use Rattle.layout_1.specs.Layout.{device_len, worn_limit, head_len, most_nodes, most_edges, checkpoint_room, journal_room, slot_room, version, slot_start, journal_start};
ghost use Rattle.layout_1.specs.Standing.{OneState};

use crate::form::Layout1;
use crate::layout::{
    CHECKPOINT_ROOM, DEVICE_LEN, HEAD_LEN, JOURNAL_ROOM, MOST_EDGES, MOST_NODES, SLOT_ROOM,
    VERSION, WORN_LIMIT,
};

/// An image stands for at most one state.
pub fn standing_law()
    ensures { OneState }
{
    layout_reader::standing_law::<Layout1>()
}

/// The constants are the numbers of the format.
pub fn layout_law()
    ensures worn_limit { WORN_LIMIT ≡ worn_limit }
    ensures version { VERSION ≡ version }
    ensures head { HEAD_LEN ≡ head_len }
    ensures most_nodes { MOST_NODES ≡ most_nodes }
    ensures most_edges { MOST_EDGES ≡ most_edges }
    ensures checkpoint { CHECKPOINT_ROOM ≡ checkpoint_room }
    ensures journal { JOURNAL_ROOM ≡ journal_room }
    ensures slot { SLOT_ROOM ≡ slot_room }
    ensures device { DEVICE_LEN ≡ device_len }
    ensures first_slot { (slot_start 0 ≡ 4096) × (journal_start 0 ≡ 139264) }
    ensures second_slot { (slot_start 1 ≡ 1187840) × (journal_start 1 ≡ 1323008) }
{}
