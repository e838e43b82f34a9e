// A line of a script.
use graph_edits::Change;

/// One line of a script.
#[derive(Debug, PartialEq, Eq, Drop)]
pub enum ScriptLine {
    /// A change of a session. Written `S OP..`.
    Edit { session: u8, change: Change },
    /// A packet from a node to a node. Written `route A B`.
    Route { from: u16, to: u16 },
}
