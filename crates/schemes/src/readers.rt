// What a scheme's lists say of one node: a place that isn't there is empty.
ghost use Rattle.std.specs.Prelude.{◌≡◌, ◌↔◌, IsTrue, slice_get};
ghost use Rattle.std.specs.List.Sorted.{IsStrictlyIncreasing};
ghost use Rattle.schemes.specs.Tables.{RefersTo, directory_at, entries_at, nodes_of, or_false, ports_at, roots_of, tables, value_at};

use crate::entry::Entry;
use crate::parts::{Listed, Near};
use crate::scheme::Scheme;
use crate::search::do_ascend;
use heavy_labels::Label;

fn flag_at(flags: &[bool], x: u16) -> bool
    ensures { result ≡ or_false (slice_get flags.now x) }
{
    let i = x as usize;
    if i < flags.len() { flags[i] } else { false }
}

fn near_at(nearest: &[Option<Near>], x: u16) -> Option<Near>
    ensures { result ≡ value_at nearest.now x }
{
    let i = x as usize;
    if i < nearest.len() { nearest[i] } else { None }
}

impl Scheme {
    /// Whether a node is a landmark.
    pub fn is_landmark(&self, x: u16) -> bool
        ensures { result ≡ (tables self.now).landmark x }
    {
        flag_at(self.parts().landmarks.as_slice(), x)
    }

    /// A node's nearest landmark, where a landmark reaches it.
    pub fn nearest(&self, x: u16) -> Option<Near>
        ensures { result ≡ (tables self.now).nearest x }
    {
        near_at(self.parts().nearest.as_slice(), x)
    }

    /// A node's label in the tree of its nearest landmark.
    pub fn home_label(&self, x: u16) -> Option<&Label>
        ensures { RefersTo ((tables self.now).home x) result }
    {
        let homes = &self.parts().homes;
        let i = x as usize;
        if i < homes.len() {
            homes[i].as_ref()
        } else {
            None
        }
    }

    /// The neighbours that the scheme has for a node: the k-th is behind port k.
    pub fn ports_of(&self, x: u16) -> &[u16]
        ensures { result.now ≡ ports_at self.now x }
    {
        match self.parts().ports.get(x as usize) {
            Some(ports) => ports.as_slice(),
            None => &[],
        }
    }

    /// The entries of a node.
    pub fn entries_of(&self, x: u16) -> &[Entry]
        ensures { result.now ≡ entries_at self.now x }
    {
        match self.parts().entries.get(x as usize) {
            Some(entries) => entries.as_slice(),
            None => &[],
        }
    }

    /// The directory of a node.
    pub fn directory_of(&self, u: u16) -> &[Listed]
        ensures { result.now ≡ directory_at self.now u }
    {
        match self.parts().directories.get(u as usize) {
            Some(directory) => directory.as_slice(),
            None => &[],
        }
    }

    /// Whether the roots of a node's entries strictly ascend.
    pub fn has_ascending_roots(&self, x: u16) -> bool
        ensures { IsTrue result ↔ IsStrictlyIncreasing (roots_of (entries_at self.now x)) }
    {
        do_ascend(self.entries_of(x))
    }

    /// Whether the nodes of a node's directory strictly ascend.
    pub fn has_ascending_directory(&self, u: u16) -> bool
        ensures { IsTrue result ↔ IsStrictlyIncreasing (nodes_of (directory_at self.now u)) }
    {
        do_ascend(self.directory_of(u))
    }
}
