ghost use Rattle.std.specs.Prelude.{◌≡◌, ◌≤◌, ◌<◌};
ghost use Rattle.heavy_labels.specs.Stepped.{stepped, record_of};
ghost use Rattle.heavy_labels.specs.Numbering.{refusal_number, step as step_by};

use crate::label::Label;
use crate::tree_record::Record;

/// Where a member sends what has a label: nowhere, on by a port, or one of two refusals ([`TreeStep::refusal`]).
#[derive(Clone, Copy, PartialEq, Eq, Debug)]
pub enum TreeStep {
    /// The label is this member's own.
    Arrived,
    /// The label's member isn't below this one, which has no parent.
    NoParent,
    /// The label's member is below a light child, and the label is too short to name the port.
    NoLight,
    /// On by this port.
    Port(u16),
}

impl TreeStep {
    /// The number of a refusal: 1 for NoParent, 2 for NoLight.
    pub fn refusal(&self) -> Option<u8>
        ensures { result ≡ refusal_number (stepped self.now) }
    {
        match self {
            TreeStep::NoParent => Some(1),
            TreeStep::NoLight => Some(2),
            TreeStep::Arrived | TreeStep::Port(_) => None,
        }
    }
}

/// One step at the member with this record by this label. It takes any record and any label, and no memory.
#[tactic(auto, using(std::proofs::lemmas::Option::slice_get_past, crate::proofs::Steps::slice_get_at))]
pub fn step(here: &Record, label: &Label) -> TreeStep
    ensures { stepped result ≡ step_by (record_of here.now) label.now }
{
    let first = label.first();
    if first == here.first {
        TreeStep::Arrived
    } else if first < here.first || first > here.last {
        match here.parent_port {
            Some(port) => TreeStep::Port(port),
            None => TreeStep::NoParent,
        }
    } else if first <= here.heavy_last {
        match here.heavy_port {
            Some(port) => TreeStep::Port(port),
            None => unreachable!(),
        }
    } else {
        let lights = label.lights();
        let depth = here.light_depth as usize;
        if depth < lights.len() {
            TreeStep::Port(lights[depth])
        } else {
            TreeStep::NoLight
        }
    }
}
