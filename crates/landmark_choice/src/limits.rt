// How large tables may be.
ghost use Rattle.landmark_choice.specs.Choices.{IsFourRoots};

/// The most entries and members of a table, and the most landmarks.
#[derive(Clone, Copy, Debug, PartialEq, Eq)]
pub struct Limits {
    pub most_entries: u16,
    pub most: u16,
}

/// Four times the square root of so many nodes, rounded down: the limit on both where none is named.
pub fn default_limit(nodes: u16) -> u16
    ensures { IsFourRoots nodes result }
{
    (16 * nodes as u32).isqrt() as u16
}
