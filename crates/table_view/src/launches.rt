// The packet that a router sends to an address, out of the bytes of its table.
ghost use Rattle.std.specs.Prelude.{◌≡◌, ◌-◌, ℕ, List, Some, option_map};
ghost use Rattle.schemes.specs.declared.parts.Listed.{Listed};
ghost use Rattle.byte_forms.specs.Reading.{Finds, list_at};
ghost use Rattle.router_table.specs.Handing.{launched};
ghost use Rattle.router_table.specs.Items.{item_at};
ghost use Rattle.router_table.specs.MemberForm.{member_at};
ghost use Rattle.table_view.specs.Answers.{OfTable};
ghost use Rattle.table_view.specs.Parts.{member_head_at};

use crate::parts::{PORT_SIZE, cut, head_in, parts_of};
use crate::search::place_of;
use byte_forms::{Form, u8_at, u16_at};
use heavy_labels::{Label, MOST_LIGHTS};
use router_table::{Head, MemberForm};
use schemes::{Address, Packet, Refused};

/// The node of the member at the front, and the bytes behind that member. Its label isn't made.
#[inline(always)]
#[tactic(auto, unfolding(router_table::specs::MemberForm::member_at, router_table::specs::MemberForm::label_at, byte_forms::specs::Reading::short_at))]
fn member_head(bytes: &[u8]) -> Option<(u16, &[u8])>
    ensures { Finds (λ x. (x.0, x.1.now)) result (member_head_at bytes.now) }
{
    let (node, rest) = u16_at(bytes)?;
    let (_, rest) = u16_at(rest)?;
    let (count, rest) = u8_at(rest)?;
    if count as usize > MOST_LIGHTS {
        return None;
    }
    let (_, behind) = cut(PORT_SIZE * count as usize, rest)?;
    Some((node, behind))
}

/// The label of a node in a directory, which is walked from its first member. None where it meets that the bytes are no directory.
fn label_in(directory: &[u8], node: u16) -> Option<Option<Label>>
    ensures { (ms : List Listed) (rest : List ℕ) → list_at member_at directory.now ≡ Some (ms, rest)
        → result ≡ Some (option_map (λ m. m.label) (item_at (λ m. m.node) node ms)) }
{
    let (count, members) = u16_at(directory)?;
    let mut rest = members;
    for _ in 0..count {
        let Some((listed, behind)) = member_head(rest) else {
            return None;
        };
        if listed == node {
            let (member, _) = MemberForm::take(rest)?;
            return Some(Some(member.label));
        }
        rest = behind;
    }
    Some(None)
}

/// A new packet for a destination, to go in the tree of `root` by the destination's label there.
fn packet_in(router: &Head, destination: u16, root: u16, label: &Label) -> Packet
    ensures { result ≡ record {
      generation = router.now.generation;
      destination = destination;
      root = root;
      label = label.now;
      hops_left = router.now.nodes - 1;
    } }
{
    Packet {
        generation: router.generation,
        destination,
        root,
        label: label.copy(),
        hops_left: router.nodes.saturating_sub(1),
    }
}

/// The packet that the router sends to an address, by the bytes of its table. None where it meets that they spell no table.
pub fn launch_in(table: &[u8], to: &Address) -> Option<Result<Packet, Refused>>
    ensures { OfTable table.now (λ a. result ≡ Some (launched a to.now)) }
{
    let (head, _, _, entry_count, entries, directory) = parts_of(table)?;
    let router = head_in(head)?;
    if to.node >= router.nodes {
        return Some(Err(Refused::NoNode));
    }
    let listed = label_in(directory, to.node)?;
    if let Some(label) = listed {
        return Some(Ok(packet_in(&router, to.node, router.node, &label)));
    }
    let Some(home) = &to.home else {
        return Some(Err(Refused::Unreachable));
    };
    let Some(_) = place_of(entries, entry_count, home.landmark, router.nodes) else {
        return Some(Err(Refused::Unreachable));
    };
    Some(Ok(packet_in(&router, to.node, home.landmark, &home.label)))
}
