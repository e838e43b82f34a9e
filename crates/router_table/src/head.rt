use schemes::Home;

/// Who a router is: a node of so many in a generation, and the landmark and label under which it is found, where a landmark
/// reaches it.
#[derive(PartialEq, Eq, Debug, Drop)]
pub struct Head {
    pub generation: u64,
    /// The number of nodes.
    pub nodes: u16,
    /// The router's own number.
    pub node: u16,
    pub home: Option<Home>,
}
