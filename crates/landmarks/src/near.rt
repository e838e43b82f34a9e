/// The nearest landmark of a node, the smallest-numbered where several are as near, and its distance.
#[derive(Clone, Copy, Debug, PartialEq, Eq)]
pub struct Near {
    pub landmark: u16,
    pub distance: u64,
}
