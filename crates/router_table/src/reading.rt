// Tables out of bytes.
ghost use Rattle.std.specs.Prelude.{◌≡◌, ◌≢◌, ◌≤◌, ◌++◌, MatchOption, MatchResult, length, take};
ghost use Rattle.router_table.specs.Fields.{table_of};
ghost use Rattle.byte_forms.specs.Reading.{Finds, GivesOr};
ghost use Rattle.router_table.specs.Reading.{IsHeadIn, IsHeadWith, IsTableIn, lists_at, numbers_at};
ghost use Rattle.router_table.specs.Order.{IsHead};
ghost use Rattle.router_table.specs.declared.head.Head.{Head};
ghost use Rattle.router_table.specs.Refusals.{IsBodyRefused, refusal_by};
ghost use Rattle.router_table.specs.Spelling.{letters, router_text, version};

use crate::entry_form::EntryForm;
use crate::fields::Fields;
use crate::form::{FRONT_SIZE, HEAD_SIZE};
use crate::head::Head;
use crate::member_form::MemberForm;
use crate::refused::ReadRefused;
use crate::tree_entry::TreeEntry;
use byte_forms::{ReadError, U16, list_of, u16_at, u64_at};
use packet_bytes::Wire;
use schemes::{Address, Listed};
use std::alloc::Global;

/// The three lists of a table, and nothing behind them.
#[tactic(auto, unfolding(crate::specs::Reading::lists_at))]
fn lists_of(
    alloc: Global,
    bytes: &[u8],
) -> Result<(Vec<u16>, Vec<TreeEntry>, Vec<Listed>), ReadError>
    ensures { GivesOr (λ x. (x.0.items, x.1.items, x.2.items)) result (lists_at bytes.now) }
{
    let (ports, rest) = list_of::<U16>(alloc, bytes)?;
    let (entries, rest) = list_of::<EntryForm>(alloc, rest)?;
    let (directory, rest) = list_of::<MemberForm>(alloc, rest)?;
    if !rest.is_empty() {
        return Err(ReadError::Malformed);
    }
    Ok((ports, entries, directory))
}

/// The generation, the number of nodes and the node at the front, and the bytes behind them.
#[tactic(auto, unfolding(crate::specs::Reading::numbers_at))]
pub fn numbers_of(bytes: &[u8]) -> Option<(u64, u16, u16, &[u8])>
    ensures { Finds (λ x. (x.0, x.1, x.2, x.3.now)) result (numbers_at bytes.now) }
{
    let (generation, rest) = u64_at(bytes)?;
    let (nodes, rest) = u16_at(rest)?;
    let (node, rest) = u16_at(rest)?;
    Some((generation, nodes, node, rest))
}

/// Who the router is: the node of the address, which has to be of the same generation.
fn head_with(generation: u64, nodes: u16, node: u16, address: Address) -> Option<Head>
    ensures { MatchOption result ((address.generation ≡ generation → address.node ≡ node → ⊥))
        (IsHeadWith generation nodes node address) }
{
    if address.generation != generation || address.node != node {
        return None;
    }
    Some(Head {
        generation,
        nodes,
        node,
        home: address.home,
    })
}

/// Who the router is, out of the bytes between the version and the lists. None where no head in order has them.
pub fn head_of(bytes: &[u8]) -> Option<Head>
    ensures { MatchOption result ((h : Head) → IsHead h → bytes.now ≢ router_text h) (IsHeadIn bytes.now) }
{
    let Some((generation, nodes, node, rest)) = numbers_of(bytes) else {
        return None;
    };
    match Address::from_bytes(rest) {
        Ok(address) => head_with(generation, nodes, node, address),
        Err(_) => None,
    }
}

/// Why a body is refused whose lists weren't read.
fn refused_by(failed: ReadError) -> ReadRefused
    ensures { result ≡ refusal_by failed }
{
    match failed {
        ReadError::Malformed => ReadRefused::NotInOrder,
        ReadError::Memory => ReadRefused::Memory,
    }
}

/// What a body holds.
pub(crate) fn fields_of(alloc: Global, body: &[u8]) -> Result<Fields, ReadRefused>
    requires long { HEAD_SIZE ≤ length body.now }
    requires front { take FRONT_SIZE body.now ≡ letters ++ version }
    ensures { MatchResult result (λ fields. IsTableIn body.now (table_of fields)) (IsBodyRefused body.now) }
{
    let (front, rest) = body.split_at(HEAD_SIZE);
    let (_, router) = front.split_at(FRONT_SIZE);
    let Some(head) = head_of(router) else {
        return Err(ReadRefused::NotInOrder);
    };
    match lists_of(alloc, rest) {
        Ok((ports, entries, directory)) => Ok(Fields {
            head,
            ports,
            entries,
            directory,
        }),
        Err(failed) => Err(refused_by(failed)),
    }
}
