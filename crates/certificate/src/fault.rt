// The rules that a scheme can break.
ghost use Rattle.std.specs.Prelude.{Some};
ghost use Rattle.certificate.specs.Faults.{fault_text};

use std::error::Error;
use std::fmt;

/// The first rule that a scheme breaks, in the order in which they are tested. It is shown as `K1` to `K8`.
#[derive(Clone, Copy, Debug, PartialEq, Eq, Drop)]
pub enum Fault {
    /// A list hasn't a place for each node, ports aren't the graph's, or entries don't ascend, with an own entry and
    /// parents that have entries.
    Shape = 1,
    /// An edge leads from an entry to a node that is farther than by that edge, or has no entry though no landmark is as
    /// near.
    Edges = 2,
    /// An entry's distance isn't its parent's and the edge, or a smaller neighbour gives the same.
    Parents = 3,
    /// A member of a cluster's tree is no nearer to its root than to the nearest landmark.
    Strict = 4,
    /// A nearest landmark isn't the least of the entries for landmarks.
    Nearest = 5,
    /// A record isn't that of the tree.
    Records = 6,
    /// A label isn't that of the tree.
    Labels = 7,
    /// A directory doesn't list exactly the members of the tree, or a home label stands without a nearest landmark or
    /// lacks beside one.
    Directories = 8,
}

impl fmt::Display for Fault {
    ghost output = { λ fault. Some (fault_text fault) };

    fn fmt<W: fmt::Write>(&self, f: &mut fmt::Formatter<W>) -> fmt::Result {
        f.write_str(match self {
            Fault::Shape => "K1",
            Fault::Edges => "K2",
            Fault::Parents => "K3",
            Fault::Strict => "K4",
            Fault::Nearest => "K5",
            Fault::Records => "K6",
            Fault::Labels => "K7",
            Fault::Directories => "K8",
        })
    }
}

impl Error for Fault {}
