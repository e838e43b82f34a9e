//! The changes behind the checkpoint of a device.
ghost use Rattle.std.specs.Prelude.{◌≡◌, ◌<◌, ◌≤◌, ◌++◌, ◌∷◌, IfErr, IfOk, IsTrue, OnOk, length, string_bytes};
ghost use Rattle.journal.specs.Records.{SpellsNothing};
ghost use Rattle.journal.specs.RequestForm.{request_form};
ghost use Rattle.layout_reader.specs.Refusals.{IsFormatFault, IsFrontFault};
ghost use Rattle.layout_2.specs.Layout.{device_len, journal_of};
ghost use Rattle.layout_2.specs.Loading.{IsNotLoaded, IsNotRead, IsRead};
ghost use Rattle.value_syntax.specs.OpText.{op_text};
ghost use Rattle.device_info.specs.Changes.{AreChangesOf, AreListedIn, change_line, last_lines, left_out, ops_text};

use disk_trait::Disk;
use graph_edits::Op;
use journal::{Journal, ScanRefused};
use layout_2::{OpenRefused, journal_area, load};
use requests::Request;
use std::alloc::{AllocError, Global};

/// The accepted changes that stand in the journal behind the checkpoint in use.
#[derive(Debug, PartialEq, Eq, Drop)]
pub struct RecentChanges {
    /// How many were accepted before them.
    pub before: u64,
    /// In the order in which they were accepted.
    pub requests: Vec<Request>,
}

/// The changes behind the checkpoint of a device. It syncs, reads, and writes nothing.
pub fn changes_of<D: Disk>(alloc: Global, disk: &mut D) -> Result<RecentChanges, OpenRefused>
    ensures read { OnOk result (IsRead (D.view disk.old) (D.view disk.new)) }
    ensures changes { IsTrue (D.view disk.old).keeps_model
        → IfOk result (λ changes. AreChangesOf changes (D.view disk.old).content) }
    ensures refused { IfErr result (IsNotLoaded (D.view disk.old) (D.view disk.new)) }
{
    let loaded = load(alloc, disk)?;
    match requests_in(alloc, disk, loaded.slot) {
        Ok(requests) => Ok(RecentChanges {
            before: loaded.base_count,
            requests,
        }),
        Err(refused) => Err(refused),
    }
}

// The requests that the journal of a slot lists, as it is read anew.
fn requests_in<D: Disk>(
    alloc: Global,
    disk: &mut D,
    slot: usize,
) -> Result<Vec<Request>, OpenRefused>
    requires slot { slot < 2 }
    requires long { length (D.view disk.old).content ≡ device_len }
    ensures read { OnOk result (IsRead (D.view disk.old) (D.view disk.new)) }
    ensures not_read { IfErr result (IsNotRead (D.view disk.old) (D.view disk.new)) }
    ensures later { IfErr result (λ e. ¬ (IsFrontFault e)) }
    ensures listed { IsTrue (D.view disk.old).keeps_model
        → IfOk result (λ requests. AreListedIn slot (D.view disk.old).content requests.items) }
    ensures refused { IsTrue (D.view disk.old).keeps_model
        → IfErr result (λ e. IsFormatFault e → SpellsNothing request_form (journal_of slot) (D.view disk.old).content) }
{
    match Journal::<Request>::scan(alloc, disk, journal_area(slot)) {
        Ok((_, requests)) => Ok(requests),
        Err(ScanRefused::Damaged) => Err(OpenRefused::Damaged),
        Err(ScanRefused::Device) => Err(OpenRefused::Device),
        Err(ScanRefused::Memory) => Err(OpenRefused::Memory),
    }
}

impl RecentChanges {
    /// A line for each of the last changes, of as many as are asked for.
    pub fn text(&self, alloc: Global, last: Option<usize>) -> Result<String, AllocError>
        ensures { IfOk result (λ text. string_bytes text ≡ last_lines last self.now) }
    {
        let mut text = String::new(alloc);
        for index in self.left_out(last)..self.requests.len() {
            let count = self.before as u128 + index as u128 + 1;
            push_change(&mut text, count, &self.requests[index])?;
        }
        Ok(text)
    }

    // How many are left out where only so many are asked for.
    fn left_out(&self, last: Option<usize>) -> usize
        ensures is { result ≡ left_out last self.now.requests.items }
        ensures within { result ≤ length self.now.requests.items }
    {
        match last {
            Some(last) => self.requests.len().saturating_sub(last),
            None => 0,
        }
    }
}

// The line of a request, with which so many changes are accepted.
fn push_change(text: &mut String, count: u128, request: &Request) -> Result<(), AllocError>
    ensures { OnOk result (string_bytes text.new ≡ string_bytes text.old ++ change_line count request.now) }
{
    let (session, ticket) = (request.session, request.ticket);
    write!(text, "count={count} session={session} ticket={ticket}")?;
    push_ops(text, request.change.ops())?;
    writeln!(text, "")
}

fn push_ops(text: &mut String, ops: &[Op]) -> Result<(), AllocError>
    ensures { OnOk result (string_bytes text.new ≡ string_bytes text.old ++ ops_text ops.now) }
{
    for op in ops {
        push_op(text, *op)?;
    }
    Ok(())
}

// An op as `tznode edit` takes it, with a blank before it.
fn push_op(text: &mut String, op: Op) -> Result<(), AllocError>
    ensures { OnOk result (string_bytes text.new ≡ string_bytes text.old ++ 32 ∷ op_text op) }
{
    match op {
        Op::Add(a, b, weight) => write!(text, " add:{a}:{b}:{weight}"),
        Op::Set(a, b, weight) => write!(text, " set:{a}:{b}:{weight}"),
        Op::Cut(a, b) => write!(text, " cut:{a}:{b}"),
    }
}
