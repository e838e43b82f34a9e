//! The things on a device that no crash leaves.
ghost use Rattle.std.specs.Prelude.{◌≡◌, Some, option_map};
ghost use Rattle.device_suspects.specs.declared.suspect.Suspect.TheVariants.{Count, Epoch, Record, Slot};
ghost use Rattle.device_suspects.specs.Suspects.{listed, suspect_text};

use std::fmt;

/// A thing on a device that no crash leaves, with its place there.
#[derive(Clone, Copy, Debug, PartialEq, Eq, Drop)]
pub enum Suspect {
    /// The epoch of the slot that isn't in use, where both are open: it isn't one less than that of the slot in use.
    Epoch(usize),
    /// The count of the checkpoint in use, where both slots are open: it isn't that of the other slot behind its records.
    Count(usize),
    /// The closed gate of the slot that isn't in use: its records go on from what counts.
    Slot(usize),
    /// The closed gate that ends the records in use: more than one record behind it goes on from what counts.
    Record(usize),
}

impl fmt::Display for Suspect {
    ghost output = { λ x. Some (suspect_text x) };

    fn fmt<W: fmt::Write>(&self, f: &mut fmt::Formatter<W>) -> fmt::Result {
        match self {
            Suspect::Epoch(at) => write!(f, "suspect epoch at={at}"),
            Suspect::Count(at) => write!(f, "suspect count at={at}"),
            Suspect::Slot(at) => write!(f, "suspect slot at={at}"),
            Suspect::Record(at) => write!(f, "suspect record at={at}"),
        }
    }
}

/// What there is of each kind: its place, or nothing.
#[derive(Clone, Copy, Debug, PartialEq, Eq, Drop)]
pub struct Suspects {
    pub epoch: Option<usize>,
    pub count: Option<usize>,
    pub slot: Option<usize>,
    pub record: Option<usize>,
}

impl Suspects {
    /// Each that there is, in this order.
    pub fn all(&self) -> [Option<Suspect>; 4]
        ensures { result ≡ listed self.now }
    {
        [
            self.in_epoch(),
            self.in_count(),
            self.at_slot(),
            self.at_record(),
        ]
    }

    fn in_epoch(&self) -> Option<Suspect>
        ensures { result ≡ option_map Epoch self.now.epoch }
    {
        match self.epoch {
            Some(at) => Some(Suspect::Epoch(at)),
            None => None,
        }
    }

    fn in_count(&self) -> Option<Suspect>
        ensures { result ≡ option_map Count self.now.count }
    {
        match self.count {
            Some(at) => Some(Suspect::Count(at)),
            None => None,
        }
    }

    fn at_slot(&self) -> Option<Suspect>
        ensures { result ≡ option_map Slot self.now.slot }
    {
        match self.slot {
            Some(at) => Some(Suspect::Slot(at)),
            None => None,
        }
    }

    fn at_record(&self) -> Option<Suspect>
        ensures { result ≡ option_map Record self.now.record }
    {
        match self.record {
            Some(at) => Some(Suspect::Record(at)),
            None => None,
        }
    }
}
