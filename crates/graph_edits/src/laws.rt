// The limits are those of the definitions.
ghost use Rattle.std.specs.Prelude.{◌≡◌};
ghost use Rattle.graph_edits.specs.Limits.{most_nodes, most_edges, greatest_weight, most_ops};

use crate::limits::{GREATEST_WEIGHT, MOST_EDGES, MOST_NODES, MOST_OPS};

/// Each limit is the number that the definitions name. It does nothing.
pub fn limit_laws()
    ensures nodes { MOST_NODES ≡ most_nodes }
    ensures edges { MOST_EDGES ≡ most_edges }
    ensures weight { GREATEST_WEIGHT ≡ greatest_weight }
    ensures ops { MOST_OPS ≡ most_ops }
{}
