//! The law of standing.
ghost use Rattle.layout_reader.specs.Standing.{OneState};

use crate::form::Layout;

/// An image of a device of this layout stands for at most one state.
pub fn standing_law<L: Layout>()
    ensures { OneState L.form }
{}
