// Who a router is and where it is to be found, out of the bytes of its table.
ghost use Rattle.std.specs.Prelude.{◌≡◌, Some, slice_get};
ghost use Rattle.router_table.specs.Table.{address_of};
ghost use Rattle.table_view.specs.Answers.{OfTable, figures_of};

use crate::parts::{head_in, parts_of, port_in};
use byte_forms::u16_at;
use schemes::Address;

/// Who a router is, and how much its table has.
#[derive(Clone, Copy, PartialEq, Eq, Debug, Drop)]
pub struct Figures {
    pub generation: u64,
    /// The number of nodes.
    pub nodes: u16,
    /// The router's own number.
    pub node: u16,
    pub ports: u16,
    pub entries: u16,
    /// How many members its directory has.
    pub members: u16,
}

/// Who the router is, and how much its table has. None where it meets that the bytes spell no table.
pub fn figures_in(table: &[u8]) -> Option<Figures>
    ensures { OfTable table.now (λ a. result ≡ Some (figures_of a)) }
{
    let (head, ports, _, entries, _, directory) = parts_of(table)?;
    let router = head_in(head)?;
    let (members, _) = u16_at(directory)?;
    Some(Figures {
        generation: router.generation,
        nodes: router.nodes,
        node: router.node,
        ports,
        entries,
        members,
    })
}

/// The neighbour behind a port of the router. None where it meets that the bytes spell no table.
pub fn neighbour_in(table: &[u8], port: usize) -> Option<Option<u16>>
    ensures { OfTable table.now (λ a. result ≡ Some (slice_get a.ports port)) }
{
    let (_, count, ports, _, _, _) = parts_of(table)?;
    Some(port_in(ports, count, port))
}

/// Where the router is to be found. None where it meets that the bytes spell no table.
pub fn address_in(table: &[u8]) -> Option<Address>
    ensures { OfTable table.now (λ a. result ≡ Some (address_of a.head)) }
{
    let (head, _, _, _, _, _) = parts_of(table)?;
    let router = head_in(head)?;
    Some(Address {
        generation: router.generation,
        node: router.node,
        home: router.home,
    })
}
