// Entries as bytes.
ghost use Rattle.std.specs.Prelude.{◌≡◌, ◌++◌, ◌==◌, refl, OnOk};
ghost use Rattle.byte_forms.specs.Reading.{Finds};
ghost use Rattle.router_table.specs.EntryForm.{entry_form, entry_is_form, port_from, record_at};
ghost use Rattle.router_table.specs.Records.{record_with};
ghost use Rattle.router_table.specs.Spelling.{port_number, record_text};

use crate::tree_entry::TreeEntry;
use byte_forms::{Form, put_u16, u8_at, u16_at};
use heavy_labels::Record;
use std::alloc::AllocError;

/// What stands for a port that isn't there.
const NO_PORT: u16 = 65535;

/// Entries: the root, and the record.
pub struct EntryForm;

impl Form for EntryForm {
    type Value = TreeEntry;

    ghost form = { entry_form };

    fn put(value: &TreeEntry, out: &mut Vec<u8>) -> Result<(), AllocError> {
        put_u16(out, value.root)?;
        put_record(out, &value.tree_record)
    }

    #[tactic(auto, unfolding(crate::specs::EntryForm::entry_at))]
    fn take(bytes: &[u8]) -> Option<(TreeEntry, &[u8])> {
        let (root, rest) = u16_at(bytes)?;
        let (tree_record, rest) = record_of(rest)?;
        Some((TreeEntry { root, tree_record }, rest))
    }

    ghost is_form = { entry_is_form };
}

/// The number that is written for a port.
fn number_of(port: Option<u16>) -> u16
    ensures { result ≡ port_number port }
{
    match port {
        Some(port) => port,
        None => NO_PORT,
    }
}

/// The port that a number stands for.
fn port_of(number: u16) -> Option<u16>
    ensures { result ≡ port_from number }
{
    if number == NO_PORT {
        None
    } else {
        Some(number)
    }
}

/// Writes a record at the end.
fn put_record(out: &mut Vec<u8>, record: &Record) -> Result<(), AllocError>
    ensures { OnOk result (out.new.items ≡ out.old.items ++ record_text «record».now) }
{
    put_u16(out, record.first)?;
    put_u16(out, record.last)?;
    put_u16(out, record.heavy_last)?;
    put_u16(out, number_of(record.parent_port))?;
    put_u16(out, number_of(record.heavy_port))?;
    Ok(out.push(record.light_depth)?)
}

/// The record of these fields, where there is one.
fn made_of(
    first: u16,
    last: u16,
    heavy_last: u16,
    light_depth: u8,
    parent_port: Option<u16>,
    heavy_port: Option<u16>,
) -> Option<Record>
    ensures { result ≡ record_with first last heavy_last light_depth parent_port heavy_port (first == last) refl }
{
    Record::new(
        first,
        last,
        heavy_last,
        light_depth,
        parent_port,
        heavy_port,
    )
}

/// The record at the front, and the bytes behind it.
#[tactic(auto, unfolding(crate::specs::EntryForm::record_at))]
fn record_of(bytes: &[u8]) -> Option<(Record, &[u8])>
    ensures { Finds (λ x. (x.0, x.1.now)) result (record_at bytes.now) }
{
    let (first, rest) = u16_at(bytes)?;
    let (last, rest) = u16_at(rest)?;
    let (heavy_last, rest) = u16_at(rest)?;
    let (parent, rest) = u16_at(rest)?;
    let (heavy, rest) = u16_at(rest)?;
    let (light_depth, rest) = u8_at(rest)?;
    let made = made_of(
        first,
        last,
        heavy_last,
        light_depth,
        port_of(parent),
        port_of(heavy),
    )?;
    Some((made, rest))
}
