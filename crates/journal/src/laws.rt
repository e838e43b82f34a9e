//! Laws of payloads, of areas and of the format's numbers.
ghost use Rattle.std.specs.Prelude.{◌≡◌};
ghost use Rattle.journal.specs.Laws.{OneGroup, PayloadSizes, OneList};
ghost use Rattle.journal.specs.Layout.{open_gate, closed_gate, add_kind, set_kind, cut_kind, length_size, record_head, count_size, change_head, op_size, most_entries, least_change, most_change, request_head, least_request, most_request, most_entry, most_record};

use crate::entry::Entry;
use crate::layout::{
    ADD, CHANGE_HEAD, CLOSED_GATE, COUNT_SIZE, CUT, LEAST_CHANGE, LEAST_REQUEST, LENGTH_SIZE,
    MOST_CHANGE, MOST_ENTRIES, MOST_ENTRY, MOST_RECORD, MOST_REQUEST, OP_SIZE, OPEN_GATE,
    RECORD_HEAD, REQUEST_HEAD, SET,
};

/// A payload spells one group, and an area one list of groups; a payload of changes has 12 to 9,282 bytes, one of
/// requests 21 to 9,858.
pub fn spelling_laws<E: Entry>()
    ensures one_group { OneGroup E.form }
    ensures sizes { PayloadSizes E.form }
    ensures one_list { OneList E.form }
{}

/// The constants are the numbers of the format.
pub fn record_law()
    ensures open_gate { OPEN_GATE ≡ open_gate }
    ensures closed_gate { CLOSED_GATE ≡ closed_gate }
    ensures add_kind { ADD ≡ add_kind }
    ensures set_kind { SET ≡ set_kind }
    ensures cut_kind { CUT ≡ cut_kind }
    ensures length_size { LENGTH_SIZE ≡ length_size }
    ensures record_head { RECORD_HEAD ≡ record_head }
    ensures count_size { COUNT_SIZE ≡ count_size }
    ensures change_head { CHANGE_HEAD ≡ change_head }
    ensures op_size { OP_SIZE ≡ op_size }
    ensures most_entries { MOST_ENTRIES ≡ most_entries }
    ensures least_change { LEAST_CHANGE ≡ least_change }
    ensures most_change { MOST_CHANGE ≡ most_change }
    ensures request_head { REQUEST_HEAD ≡ request_head }
    ensures least_request { LEAST_REQUEST ≡ least_request }
    ensures most_request { MOST_REQUEST ≡ most_request }
    ensures most_entry { MOST_ENTRY ≡ most_entry }
    ensures most_record { MOST_RECORD ≡ most_record }
{}
