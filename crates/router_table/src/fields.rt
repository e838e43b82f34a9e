// What a table holds, in order or not.
ghost use Rattle.std.specs.Prelude.{◌≡◌, ◌↔◌, ◌<◌, ◌≤◌, ◌^◌, IsTrue, length, map};
ghost use Rattle.std.specs.List.{All};
ghost use Rattle.std.specs.List.Sorted.{IsStrictlyIncreasing};
ghost use Rattle.packet_bytes.specs.Spelling.{ArePorts, IsLabel};
ghost use Rattle.router_table.specs.Fields.{table_of};
ghost use Rattle.router_table.specs.Items.{AreInOrder};
ghost use Rattle.router_table.specs.Order.{AreLists, IsHead, IsHomeAmong, IsPort, IsRecord, IsTable};

use crate::head::Head;
use crate::keyed::Keyed;
use crate::tree_entry::TreeEntry;
use heavy_labels::{Label, MOST_LIGHTS, Record};
use schemes::{Home, Listed};

/// A table's head and lists.
#[derive(Drop)]
pub(crate) struct Fields {
    pub(crate) head: Head,
    pub(crate) ports: Vec<u16>,
    pub(crate) entries: Vec<TreeEntry>,
    pub(crate) directory: Vec<Listed>,
}

/// Whether the numbers of a list strictly ascend.
fn do_ascend<T: Keyed>(items: &[T]) -> bool
    ensures { IsTrue result ↔ IsStrictlyIncreasing (map T.key items.now) }
{
    items.is_sorted_by(|before, after| before.key() < after.key())
}

/// Whether the numbers of a list are below a limit.
fn are_below<T: Keyed>(items: &[T], limit: u16) -> bool
    ensures { IsTrue result ↔ All (λ x. T.key x < limit) items.now }
{
    items.iter().all(|item| item.key() < limit)
}

/// Whether the numbers of a list strictly ascend and are below a limit.
fn are_in_order<T: Keyed>(items: &[T], limit: u16) -> bool
    ensures { IsTrue result ↔ AreInOrder T.key limit items.now }
{
    do_ascend(items) && are_below(items, limit)
}

/// Whether a port, where there is one, is one of so many.
fn is_port(port: Option<u16>, many: usize) -> bool
    ensures { IsTrue result ↔ IsPort many port }
{
    match port {
        Some(port) => (port as usize) < many,
        None => true,
    }
}

/// That a number of two bytes fits its place, whatever it is.
fn number_fits(number: u16)
    ensures { number < 2 ^ 16 }
{
    let _number = number;
}

/// That a number of one byte fits its place, whatever it is.
fn byte_fits(number: u8)
    ensures { number < 2 ^ 8 }
{
    let _number = number;
}

/// Whether a node with so many ports may have a record. Its numbers fit, whatever they are.
pub fn is_record(record: &Record, many: usize) -> bool
    ensures { IsTrue result ↔ IsRecord many «record».now }
{
    number_fits(record.first);
    number_fits(record.last);
    number_fits(record.heavy_last);
    byte_fits(record.light_depth);
    if !is_port(record.parent_port, many) {
        return false;
    }
    is_port(record.heavy_port, many)
}

/// Whether a node with so many ports may have the records of entries.
fn are_records(entries: &[TreeEntry], many: usize) -> bool
    ensures { IsTrue result ↔ All (λ e. IsRecord many e.tree_record) entries.now }
{
    entries
        .iter()
        .all(|entry| is_record(&entry.tree_record, many))
}

/// That a label's ports fit their places, whatever they are.
fn ports_fit(ports: &[u16])
    requires { length ports.now ≤ MOST_LIGHTS }
    ensures { ArePorts ports.now }
{
    let _count = ports.len();
}

/// Whether the numbers of a label fit their places: its type says so, whatever they are.
pub fn is_label(label: &Label) -> bool
    ensures { IsTrue result ↔ IsLabel label.now }
{
    let _first = label.first();
    ports_fit(label.lights());
    true
}

/// Whether the numbers of a directory's labels fit their places.
fn are_labels(directory: &[Listed]) -> bool
    ensures { IsTrue result ↔ All (λ m. IsLabel m.label) directory.now }
{
    directory.iter().all(|listed| is_label(&listed.label))
}

/// Whether a landmark, where there is one, is one of so many nodes.
fn is_home(home: &Option<Home>, nodes: u16) -> bool
    ensures { IsTrue result ↔ IsHomeAmong nodes home.now }
{
    match home {
        Some(home) => home.landmark < nodes && is_label(&home.label),
        None => true,
    }
}

/// Whether a head names nodes of its network.
pub fn is_head(head: &Head) -> bool
    ensures { IsTrue result ↔ IsHead head.now }
{
    let _generation = head.generation;
    head.node < head.nodes && is_home(&head.home, head.nodes)
}

/// Whether the three lists of a table are in order.
fn are_lists(fields: &Fields, nodes: u16) -> bool
    ensures { IsTrue result ↔ AreLists nodes (table_of fields.now) }
{
    if !are_in_order(fields.ports.as_slice(), nodes) {
        return false;
    }
    if !are_in_order(fields.entries.as_slice(), nodes) {
        return false;
    }
    if !are_in_order(fields.directory.as_slice(), nodes) {
        return false;
    }
    if !are_records(fields.entries.as_slice(), fields.ports.len()) {
        return false;
    }
    are_labels(fields.directory.as_slice())
}

impl Fields {
    /// Whether the table is in order.
    pub(crate) fn are_in_order(&self) -> bool
        ensures { IsTrue result ↔ IsTable (table_of self.now) }
    {
        if !is_head(&self.head) {
            return false;
        }
        are_lists(self, self.head.nodes)
    }
}
