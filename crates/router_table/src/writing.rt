// Tables as bytes.
ghost use Rattle.std.specs.Prelude.{◌≡◌, ◌++◌, IfOk, OnOk, length};
ghost use Rattle.router_table.specs.Fields.{table_of};
ghost use Rattle.router_table.specs.Order.{IsTable};
ghost use Rattle.router_table.specs.Spelling.{head_text, lists_text, router_text, table_text};
ghost use Rattle.router_table.specs.Table.{address_of};

use crate::entry_form::EntryForm;
use crate::fields::Fields;
use crate::form::{LETTERS, VERSION, digest};
use crate::head::Head;
use crate::member_form::MemberForm;
use byte_forms::{U16, put_list, put_u16, put_u64};
use packet_bytes::Wire;
use schemes::Address;
use std::alloc::{AllocError, Global};

/// The address that a head tells.
pub(crate) fn address_in(head: &Head) -> Address
    ensures { result ≡ address_of head.now }
{
    let home = match &head.home {
        Some(home) => Some(home.copy()),
        None => None,
    };
    Address {
        generation: head.generation,
        node: head.node,
        home,
    }
}

/// Writes who a router is at the end.
#[tactic(auto, unfolding(crate::specs::Spelling::router_text))]
fn put_router(out: &mut Vec<u8>, head: &Head) -> Result<(), AllocError>
    ensures { OnOk result (out.new.items ≡ out.old.items ++ router_text head.now) }
{
    let address = address_in(head).to_bytes();
    put_u64(out, head.generation)?;
    put_u16(out, head.nodes)?;
    put_u16(out, head.node)?;
    out.extend_from_slice(&address)?;
    Ok(())
}

/// Writes a head at the end.
#[tactic(auto, unfolding(crate::specs::Spelling::head_text))]
fn put_head(out: &mut Vec<u8>, head: &Head) -> Result<(), AllocError>
    ensures { OnOk result (out.new.items ≡ out.old.items ++ head_text head.now) }
{
    out.extend_from_slice(&LETTERS)?;
    out.extend_from_slice(&VERSION)?;
    put_router(out, head)?;
    Ok(())
}

/// Writes the three lists at the end.
#[tactic(auto, unfolding(crate::specs::Spelling::lists_text))]
fn put_lists(out: &mut Vec<u8>, fields: &Fields) -> Result<(), AllocError>
    requires { IsTable (table_of fields.now) }
    ensures { OnOk result (out.new.items
        ≡ out.old.items ++ lists_text fields.now.ports.items fields.now.entries.items fields.now.directory.items) }
{
    put_list::<U16>(out, fields.ports.as_slice())?;
    put_list::<EntryForm>(out, fields.entries.as_slice())?;
    put_list::<MemberForm>(out, fields.directory.as_slice())
}

/// The one spelling of a table. An `Err` means that memory was refused.
#[tactic(auto, unfolding(crate::specs::Spelling::body_text))]
pub(crate) fn bytes_of(alloc: Global, fields: &Fields) -> Result<Vec<u8>, AllocError>
    requires { IsTable (table_of fields.now) }
    ensures { IfOk result (λ bytes. bytes.items ≡ table_text (table_of fields.now)) }
{
    let mut out = Vec::new(alloc);
    put_head(&mut out, &fields.head)?;
    put_lists(&mut out, fields)?;
    let digest = digest(out.as_slice());
    out.extend_from_slice(&digest)?;
    Ok(out)
}
