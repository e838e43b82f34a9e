ghost use Rattle.std.specs.Prelude.{◌≡◌, is_some};
ghost use Rattle.schemes.specs.Packed.{upwards_of};

use heavy_labels::Record;
use std::marker::Model;
use std::mem::size_of;

/// Which of an entry's parent and the port to it are there.
#[derive(Clone, Copy, PartialEq, Eq, Debug)]
enum Upwards {
    Neither,
    ParentAlone,
    PortAlone,
    Both,
}

/// A node's place in the tree of a root. Contracts see its distance from the root, the root, its parent in the tree (none at the
/// root) and its record. A generation has millions of entries, so one takes 24 bytes: what isn't there is a zero in its place.
#[derive(Clone, Copy, PartialEq, Eq, Debug)]
pub struct Entry {
    distance: u64,
    root: u16,
    parent: u16,
    first: u16,
    last: u16,
    heavy_last: u16,
    parent_port: u16,
    heavy_port: u16,
    light_depth: u8,
    upwards: Upwards,
}

const _: () = prove!(size_of::<Entry>() == 24);

impl Model for Entry {
    ghost use Rattle.schemes.specs.Entry.{Entry};

    ghost Value = { Entry };

    ghost use Rattle.schemes.specs.Packed.{IsPacked, packed, packed_again, unpacked};

    ghost view = { unpacked };

    ghost invariant = { IsPacked };

    ghost inverse = { packed };

    ghost inverse_ok = { packed_again };
}

/// Which of the two are there.
fn upwards_for(parent: Option<u16>, port: Option<u16>) -> Upwards
    ensures { result ≡ upwards_of (is_some parent) (is_some port) }
{
    match (parent.is_some(), port.is_some()) {
        (false, false) => Upwards::Neither,
        (true, false) => Upwards::ParentAlone,
        (false, true) => Upwards::PortAlone,
        (true, true) => Upwards::Both,
    }
}

impl Entry {
    /// The entry of these parts.
    pub fn new(distance: u64, root: u16, parent: Option<u16>, tree_record: Record) -> Entry
        ensures { result ≡ record { distance = distance; root = root; parent = parent; tree_record = tree_record } }
    {
        Entry {
            distance,
            root,
            parent: parent.unwrap_or(0),
            first: tree_record.first,
            last: tree_record.last,
            heavy_last: tree_record.heavy_last,
            parent_port: tree_record.parent_port.unwrap_or(0),
            heavy_port: tree_record.heavy_port.unwrap_or(0),
            light_depth: tree_record.light_depth,
            upwards: upwards_for(parent, tree_record.parent_port),
        }
    }

    /// The distance of the node from the root.
    pub fn distance(&self) -> u64
        ensures { result ≡ self.now.distance }
    {
        self.distance
    }

    /// The root.
    pub fn root(&self) -> u16
        ensures { result ≡ self.now.root }
    {
        self.root
    }

    /// The node's parent in the tree: none at the root.
    pub fn parent(&self) -> Option<u16>
        ensures { result ≡ self.now.parent }
    {
        match self.upwards {
            Upwards::ParentAlone | Upwards::Both => Some(self.parent),
            Upwards::Neither | Upwards::PortAlone => None,
        }
    }

    /// The node's record in the tree.
    pub fn tree_record(&self) -> Record
        ensures { result ≡ self.now.tree_record }
    {
        let parent_port = match self.upwards {
            Upwards::PortAlone | Upwards::Both => Some(self.parent_port),
            Upwards::Neither | Upwards::ParentAlone => None,
        };
        let heavy_port = if self.first == self.last {
            None
        } else {
            Some(self.heavy_port)
        };
        Record {
            first: self.first,
            last: self.last,
            heavy_last: self.heavy_last,
            light_depth: self.light_depth,
            parent_port,
            heavy_port,
        }
    }
}
