// The order of a table in bytes whose form is right.
ghost use Rattle.std.specs.Prelude.{◌≡◌, ◌↔◌, ◌++◌, ◌≤◌, IsTrue, length, take};
ghost use Rattle.router_table.specs.Spelling.{letters, version};
ghost use Rattle.table_view.specs.Listing.{AreListsIn, IsBody};

use crate::item::list_in_order;
use byte_forms::U16;
use router_table::{EntryForm, FRONT_SIZE, HEAD_SIZE, Head, MemberForm, head_of, is_head};

/// Whether the three lists of a table with this head stand in the bytes, in order, and nothing behind them.
fn are_lists(bytes: &[u8], head: &Head) -> bool
    ensures { IsTrue result ↔ AreListsIn bytes.now head.now }
{
    let Some((ports, rest)) = list_in_order::<U16>(bytes, head.nodes, 0) else {
        return false;
    };
    let Some((_, rest)) = list_in_order::<EntryForm>(rest, head.nodes, ports) else {
        return false;
    };
    let Some((_, rest)) = list_in_order::<MemberForm>(rest, head.nodes, ports) else {
        return false;
    };
    rest.is_empty()
}

/// Whether a body is that of a table in order.
pub(crate) fn is_body(body: &[u8]) -> bool
    requires long { HEAD_SIZE ≤ length body.now }
    requires front { take FRONT_SIZE body.now ≡ letters ++ version }
    ensures { IsTrue result ↔ IsBody body.now }
{
    let (front, rest) = body.split_at(HEAD_SIZE);
    let (_, router) = front.split_at(FRONT_SIZE);
    let Some(head) = head_of(router) else {
        return false;
    };
    if !is_head(&head) {
        return false;
    }
    are_lists(rest, &head)
}
