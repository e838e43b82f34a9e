//! What one node does by its own rows of the tables.
ghost use Rattle.std.specs.Prelude.{◌≡◌, ◌<◌, ◌==◌, ℕ, cond, is_some, None, Some, Ok, Err, IfOk, option_map};
ghost use Rattle.schemes.specs.declared.packet.Move.TheVariants.{Delivered};
ghost use Rattle.schemes.specs.declared.packet.Refused.TheVariants.{Stray, Unreachable};
ghost use Rattle.schemes.specs.Service.{decide as packet_given, forward_over, node_step as move_given, one_less, packet_by};
ghost use Rattle.schemes.specs.Tables.{RefersTo, Tables, tables};

use crate::packet::{Address, Home, Move, Packet, Refused};
use crate::scheme::Scheme;
use heavy_labels::{Label, Record, TreeStep, step};

/// One node's rows of the tables of a generation: all that the node looks at when it sends a packet and when it gets one.
///
/// Whoever writes an impl names the node and tables, and proves that each answer is what those tables say of the node.
pub trait NodeRows {
    /// Tables that say the same of the node.
    ghost shown: { Self → Tables };

    /// The node whose rows these are.
    ghost place: { Self → ℕ };

    /// The number of nodes.
    fn nodes(&self) -> u16
        ensures { result ≡ (shown self.now).nodes };

    /// The generation.
    fn generation(&self) -> u64
        ensures { result ≡ (shown self.now).generation };

    /// The node whose rows these are.
    fn node(&self) -> u16
        ensures { result ≡ place self.now };

    /// The node's record in the tree of a root, where the node is in that tree.
    fn tree_record(&self, root: u16) -> Option<Record>
        ensures { result ≡ option_map (λ e. e.tree_record) ((shown self.now).entry (place self.now) root) };

    /// The label of a member of the node's own tree, where the node's directory lists the member.
    fn label(&self, member: u16) -> Option<&Label>
        ensures { RefersTo ((shown self.now).listed (place self.now) member) result };

    /// The node behind a port.
    fn over(&self, port: u16) -> Option<u16>
        ensures { result ≡ (shown self.now).over (place self.now) port };
}

/// The rows of a node of a scheme.
#[derive(Clone, Copy, Drop)]
pub(crate) struct RowsAt<'a> {
    pub(crate) scheme: &'a Scheme,
    pub(crate) node: u16,
}

impl<'a> NodeRows for RowsAt<'a> {
    ghost shown = { λ rows. tables rows.scheme.now };

    ghost place = { λ rows. rows.node };

    fn nodes(&self) -> u16 {
        self.scheme.parts().nodes
    }

    fn generation(&self) -> u64 {
        self.scheme.parts().generation
    }

    fn node(&self) -> u16 {
        self.node
    }

    fn tree_record(&self, root: u16) -> Option<Record> {
        match self.scheme.entry(self.node, root) {
            Some(entry) => Some(entry.tree_record()),
            None => None,
        }
    }

    fn label(&self, member: u16) -> Option<&Label> {
        self.scheme.listed(self.node, member)
    }

    fn over(&self, port: u16) -> Option<u16> {
        self.scheme.over(self.node, port)
    }
}

/// The packet that a node sends to an address, by its rows: in its own tree where its directory lists the destination, else
/// in the tree of the landmark that the address names. The address's generation isn't looked at: a packet has that of the
/// rows.
pub fn packet_from<R: NodeRows>(rows: &R, address: &Address) -> Result<Packet, Refused>
    ensures { result ≡ packet_given (R.shown rows.now) (R.place rows.now) address.now }
{
    let nodes = rows.nodes();
    if rows.node() >= nodes || address.node >= nodes {
        return Err(Refused::NoNode);
    }
    if let Some(label) = rows.label(address.node) {
        return Ok(packet_in(rows, address.node, rows.node(), label));
    }
    match &address.home {
        Some(home) => by_home(rows, address.node, home),
        None => Err(Refused::Unreachable),
    }
}

/// The packet for a destination in the tree of a landmark in which the node is.
#[tactic(auto, using(crate::proofs::OnTheWay::RowLemmas::record_there))]
fn by_home<R: NodeRows>(rows: &R, destination: u16, home: &Home) -> Result<Packet, Refused>
    requires { 0 < (R.shown rows.now).nodes }
    ensures { result ≡ cond (is_some ((R.shown rows.now).entry (R.place rows.now) home.now.landmark))
        (Ok (packet_by (R.shown rows.now) destination home.now.landmark home.now.label)) (Err Unreachable) }
{
    match rows.tree_record(home.landmark) {
        Some(_) => Ok(packet_in(rows, destination, home.landmark, &home.label)),
        None => Err(Refused::Unreachable),
    }
}

/// A new packet for a destination, to go in the tree of `root` by the destination's label there.
fn packet_in<R: NodeRows>(rows: &R, destination: u16, root: u16, label: &Label) -> Packet
    requires { 0 < (R.shown rows.now).nodes }
    ensures { result ≡ packet_by (R.shown rows.now) destination root label.now }
{
    Packet {
        generation: rows.generation(),
        destination,
        root,
        label: label.copy(),
        hops_left: rows.nodes() - 1,
    }
}

/// What a node does with a packet, by its rows. The packet's generation isn't looked at, and a packet that goes on keeps it.
#[tactic(auto, using(crate::proofs::OnTheWay::RowLemmas::move_by_record))]
pub fn move_from<R: NodeRows>(rows: &R, packet: &Packet) -> Result<Move, Refused>
    ensures { result ≡ move_given (R.shown rows.now) (R.place rows.now) packet.now }
{
    let nodes = rows.nodes();
    if rows.node() >= nodes {
        return Err(Refused::NoNode);
    }
    if packet.hops_left >= nodes {
        return Err(Refused::Stray);
    }
    let Some(record) = rows.tree_record(packet.root) else {
        return Err(Refused::Stray);
    };
    match step(&record, &packet.label) {
        TreeStep::Arrived => delivered(rows.node(), packet),
        TreeStep::Port(port) => forward(packet, port, rows.over(port)),
        TreeStep::NoParent => Err(Refused::Stray),
        TreeStep::NoLight => Err(Refused::Stray),
    }
}

/// The packet goes on by a port, where a node stands behind it.
fn forward(packet: &Packet, port: u16, behind: Option<u16>) -> Result<Move, Refused>
    ensures { result ≡ forward_over packet.now port behind }
{
    let Some(next) = behind else {
        return Err(Refused::Stray);
    };
    if packet.hops_left == 0 {
        return Err(Refused::Spent);
    }
    Ok(Move::Forward {
        port,
        next,
        packet: one_hop_less(packet),
    })
}

/// The packet with one hop less.
fn one_hop_less(packet: &Packet) -> Packet
    requires { 0 < packet.now.hops_left }
    ensures { result ≡ one_less packet.now }
{
    Packet {
        generation: packet.generation,
        destination: packet.destination,
        root: packet.root,
        label: packet.label.copy(),
        hops_left: packet.hops_left - 1,
    }
}

/// What a node does with a packet whose label is the node's own in the packet's tree.
fn delivered(node: u16, packet: &Packet) -> Result<Move, Refused>
    ensures { result ≡ cond (node == packet.now.destination) (Ok Delivered) (Err Stray) }
{
    if node == packet.destination {
        Ok(Move::Delivered)
    } else {
        Err(Refused::Stray)
    }
}
