//! One record at the front of bytes.
ghost use Rattle.std.specs.Prelude.{◌≡◌, ◌≢◌, ◌≤◌, length, get_or, None, IfOk, IfSome, IsErrOf};
ghost use Rattle.journal.specs.Layout.{open_gate};
ghost use Rattle.journal.specs.Scanning.{IsNextRecord, HasNoRecord};

use crate::entry::Entry;
use crate::group::read_group;
use crate::layout::{OPEN_GATE, RECORD_HEAD};
use byte_forms::{ReadError, u32_at};
use std::alloc::Global;

/// The group whose record the bytes begin with and the record's size; none where the gate is closed. A record counts
/// only if the next gate stands behind it.
pub(crate) fn next_record<E: Entry>(
    alloc: Global,
    bytes: &[u8],
) -> Result<Option<(Vec<E>, usize)>, ReadError>
    requires { 1 ≤ length bytes.now }
    ensures last { IfOk result (λ o. o ≡ None → get_or bytes.now 0 open_gate ≢ open_gate) }
    ensures next { IfOk result (λ o. IfSome o (λ x. IsNextRecord E.form bytes.now x.0.items x.1)) }
    ensures malformed { IsErrOf result ReadError.Malformed → HasNoRecord E.form bytes.now }
    ensures gate { IsErrOf result ReadError.Malformed → get_or bytes.now 0 open_gate ≡ open_gate }
{
    if bytes[0] != OPEN_GATE {
        return Ok(None);
    }
    let Some((len, behind)) = u32_at(&bytes[1..]) else {
        return Err(ReadError::Malformed);
    };
    let len = len as usize;
    if behind.len() <= len {
        return Err(ReadError::Malformed);
    }
    match read_group(alloc, &behind[..len]) {
        Ok(group) => Ok(Some((group, RECORD_HEAD + len))),
        Err(refused) => Err(refused),
    }
}
