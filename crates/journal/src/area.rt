//! Areas of a disk.

/// Where an area lies on its disk: the place of its first byte, and how many bytes it has.
#[derive(Clone, Copy, Debug, PartialEq, Eq)]
pub struct Area {
    pub start: usize,
    pub room: usize,
}
