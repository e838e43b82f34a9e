// The bound on the words, and the set of landmarks.
ghost use Rattle.std.specs.Prelude.{◌≡◌, ℕ, ◌<◌, ◌≤◌, ◌↔◌, IsTrue, length, IfOk, count_by};
ghost use Rattle.landmarks.specs.Chosen.{IsBound, IsLandmark, chosen};

use std::alloc::{AllocError, Global};
use std::marker::Model;

/// Which nodes are landmarks: one flag for each node, in the order of the nodes.
#[derive(Drop)]
pub struct Landmarks {
    flags: Vec<bool>,
}

impl Model for Landmarks {
    ghost use Rattle.std.specs.Prelude.{List, Bool};

    ghost Value = { List Bool };

    ghost view = { λ landmarks. landmarks.flags.items };
}

/// The bound below which a word makes its node a landmark, in a graph of `nodes` nodes:
/// `u64::MAX / q`, where q is the square root of `nodes`, rounded up.
pub fn bound(nodes: usize) -> u64
    requires { 1 ≤ nodes }
    ensures { IsBound nodes result }
{
    let mut root: usize = 1;
    // root * root < nodes, without the product
    while root <= (nodes - 1) / root {
        root += 1;
    }
    u64::MAX / root as u64
}

fn flags_below(alloc: Global, words: &[u64], limit: u64) -> Result<Vec<bool>, AllocError>
    ensures { IfOk result (λ flags. flags.items ≡ chosen limit words.now) }
{
    words.iter().map(|word| *word < limit).collect(alloc)
}

/// Chooses among `nodes` nodes by one word for each: a node is a landmark exactly when its word
/// is below [`bound`]. An `Err` means that memory was refused.
pub fn choose(alloc: Global, nodes: usize, words: &[u64]) -> Result<Landmarks, AllocError>
    requires some { 1 ≤ nodes }
    requires words { length words.now ≡ nodes }
    ensures { IfOk result (λ landmarks. (b : ℕ) × (IsBound nodes b × (landmarks ≡ chosen b words.now))) }
{
    let flags = flags_below(alloc, words, bound(nodes))?;
    Ok(Landmarks { flags })
}

impl Landmarks {
    /// Whether a node is a landmark.
    pub fn holds(&self, node: u16) -> bool
        requires { node < length self.now }
        ensures { IsTrue result ↔ IsLandmark self.now node }
    {
        self.flags[node as usize]
    }

    /// The number of landmarks.
    pub fn count(&self) -> usize
        ensures { result ≡ count_by (λ flag. flag) self.now }
    {
        self.flags.iter().filter(|flag| **flag).count()
    }

    /// The flags of all nodes, in their order.
    pub fn flags(&self) -> &[bool]
        ensures { result.now ≡ self.now }
    {
        self.flags.as_slice()
    }
}
