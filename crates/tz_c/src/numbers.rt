// The numbers of refusals, each below 0. docs/FORMATS.md has the list.
ghost use Rattle.std.specs.Prelude.{◌≡◌};
ghost use Rattle.tz_c.specs.Codes.{bytes_code, read_code, table_code, wire_code};

use packet_bytes::WireRefused;
use router_table::ReadRefused;
use schemes::Refused;
use table_view::BytesRefused;

/// The letters of a table don't stand in front.
pub(crate) const NO_TABLE: i32 = -1;

/// The table is of another version.
pub(crate) const UNKNOWN_VERSION: i32 = -2;

/// There are fewer bytes than the counts in them say.
pub(crate) const CUT_SHORT: i32 = -3;

/// There are more bytes than the counts in them say.
pub(crate) const TOO_LONG: i32 = -4;

/// The digest isn't that of the bytes before it.
pub(crate) const DAMAGED: i32 = -5;

/// No table in order is spelled so.
pub(crate) const NOT_IN_ORDER: i32 = -6;

/// A node isn't below the number of nodes.
pub(crate) const NO_NODE: i32 = -7;

/// No tree leads to the destination.
pub(crate) const UNREACHABLE: i32 = -8;

/// The packet isn't one that this node can carry on.
pub(crate) const STRAY: i32 = -9;

/// The packet has no hop left.
pub(crate) const SPENT: i32 = -10;

/// A packet or an address has another length.
pub(crate) const BAD_LENGTH: i32 = -11;

/// An address's flag is neither 0 nor 1, or it is 0 and a later byte isn't.
pub(crate) const BAD_FLAG: i32 = -12;

/// There are more ports than a label has room for.
pub(crate) const BAD_COUNT: i32 = -13;

/// A place for a port that isn't used isn't 0.
pub(crate) const BAD_PADDING: i32 = -14;

/// The place for the answer isn't as long as the answer.
pub(crate) const NO_ROOM: i32 = -15;

/// The node has no such port.
pub(crate) const NO_PORT: i32 = -16;

/// Of bytes that are no table. That memory is refused can't come: reading takes none.
pub(crate) fn of_read(refused: ReadRefused) -> i32
    ensures { result ≡ read_code refused }
{
    match refused {
        ReadRefused::NoTable => NO_TABLE,
        ReadRefused::UnknownVersion => UNKNOWN_VERSION,
        ReadRefused::CutShort => CUT_SHORT,
        ReadRefused::TooLong => TOO_LONG,
        ReadRefused::Damaged => DAMAGED,
        ReadRefused::NotInOrder | ReadRefused::Memory => NOT_IN_ORDER,
    }
}

/// Of what a table refuses.
fn of_table(refused: Refused) -> i32
    ensures { result ≡ table_code refused }
{
    match refused {
        Refused::NoNode => NO_NODE,
        Refused::Unreachable => UNREACHABLE,
        Refused::Stray => STRAY,
        Refused::Spent => SPENT,
    }
}

/// Of bytes that are no packet or no address.
fn of_wire(refused: WireRefused) -> i32
    ensures { result ≡ wire_code refused }
{
    match refused {
        WireRefused::BadLength => BAD_LENGTH,
        WireRefused::BadFlag => BAD_FLAG,
        WireRefused::BadCount => BAD_COUNT,
        WireRefused::BadPadding => BAD_PADDING,
    }
}

/// Of what is refused in bytes.
pub(crate) fn of_bytes(refused: BytesRefused) -> i32
    ensures { result ≡ bytes_code refused }
{
    match refused {
        BytesRefused::NoRoom => NO_ROOM,
        BytesRefused::Wire(refused) => of_wire(refused),
        BytesRefused::NoTable => NOT_IN_ORDER,
        BytesRefused::Table(refused) => of_table(refused),
    }
}
