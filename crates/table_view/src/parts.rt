// The bytes of a table in their parts, whatever their values.
ghost use Rattle.std.specs.Prelude.{◌≡◌, ◌+◌, ◌*◌, ◌^◌, ◌<◌, ◌≤◌, length, IfSome, Some};
ghost use Rattle.byte_forms.specs.Reading.{Finds};
ghost use Rattle.router_table.specs.declared.head.Head.{Head};
ghost use Rattle.router_table.specs.Order.{IsHead};
ghost use Rattle.router_table.specs.Spelling.{head_text};
ghost use Rattle.table_view.specs.Parts.{cut_at, items_cut, parts_at, port_of};

use byte_forms::{u16_at, u16_in};
use router_table::{FRONT_SIZE, HEAD_SIZE, Head, head_of};

/// A port.
pub(crate) const PORT_SIZE: usize = 2;

/// An entry.
pub(crate) const ENTRY_SIZE: usize = 13;

/// Where in a head the number of nodes and the node stand.
pub(crate) const NODES_AT: usize = 16;

pub(crate) const NODE_AT: usize = 18;

/// So many bytes, and the bytes behind them.
pub(crate) fn cut(count: usize, bytes: &[u8]) -> Option<(&[u8], &[u8])>
    ensures parts { Finds (λ x. (x.0.now, x.1.now)) result (cut_at count bytes.now) }
    ensures long { IfSome result (λ x. length x.0.now ≡ count) }
    ensures shorter { IfSome result (λ x. length x.1.now + count ≡ length bytes.now) }
{
    if bytes.len() < count {
        return None;
    }
    Some(bytes.split_at(count))
}

/// Of a list whose items have one size: how many there are, their bytes, and the bytes behind them.
#[tactic(auto, unfolding(crate::specs::Parts::items_cut))]
pub(crate) fn cut_items(size: usize, bytes: &[u8]) -> Option<(u16, &[u8], &[u8])>
    requires { size < 2 ^ 16 }
    ensures parts { Finds (λ x. (x.0, x.1.now, x.2.now)) result (items_cut size bytes.now) }
    ensures long { IfSome result (λ x. length x.1.now ≡ size * x.0) }
    ensures shorter { IfSome result (λ x. length x.2.now ≤ length bytes.now) }
{
    let (count, rest) = u16_at(bytes)?;
    let (items, behind) = cut(size * count as usize, rest)?;
    Some((count, items, behind))
}

/// A table's head, how many ports it has and their bytes, how many entries and their bytes, and what stands behind those.
#[tactic(auto, unfolding(crate::specs::Parts::parts_at))]
pub(crate) fn parts_of(bytes: &[u8]) -> Option<(&[u8], u16, &[u8], u16, &[u8], &[u8])>
    ensures parts { Finds (λ x. (x.0.now, x.1, x.2.now, x.3, x.4.now, x.5.now)) result (parts_at bytes.now) }
    ensures head { IfSome result (λ x. length x.0.now ≡ HEAD_SIZE) }
    ensures ports { IfSome result (λ x. length x.2.now ≡ PORT_SIZE * x.1) }
    ensures entries { IfSome result (λ x. length x.4.now ≡ ENTRY_SIZE * x.3) }
    ensures shorter { IfSome result (λ x. length x.5.now + HEAD_SIZE ≤ length bytes.now) }
{
    let (head, rest) = cut(HEAD_SIZE, bytes)?;
    let (port_count, ports, rest) = cut_items(PORT_SIZE, rest)?;
    let (entry_count, entries, rest) = cut_items(ENTRY_SIZE, rest)?;
    Some((head, port_count, ports, entry_count, entries, rest))
}

/// Who the router is, out of the bytes of a head. None where it meets that they are of none.
pub(crate) fn head_in(head: &[u8]) -> Option<Head>
    requires { length head.now ≡ HEAD_SIZE }
    ensures { (h : Head) → IsHead h → head.now ≡ head_text h → result ≡ Some h }
{
    let (_, router) = head.split_at(FRONT_SIZE);
    head_of(router)
}

/// The neighbour behind a port, out of the bytes of so many.
pub(crate) fn port_in(ports: &[u8], count: u16, port: usize) -> Option<u16>
    requires { length ports.now ≡ PORT_SIZE * count }
    ensures { result ≡ port_of ports.now count port }
{
    if port < count as usize {
        Some(u16_in(ports, PORT_SIZE * port))
    } else {
        None
    }
}
