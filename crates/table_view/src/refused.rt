// Why nothing is answered in bytes.
use packet_bytes::WireRefused;
use schemes::Refused;
use thiserror::Error;

/// Why nothing is answered in bytes, in the order in which the cases are tested.
#[derive(Clone, Copy, Debug, PartialEq, Eq, Drop, Error)]
pub enum BytesRefused {
    /// The place for the answer isn't as long as the answer.
    #[error("no room")]
    NoRoom,
    /// The packet's or the address's bytes are none.
    #[error("{0}")]
    Wire(WireRefused),
    /// The table's bytes spell no table in order.
    #[error("no table")]
    NoTable,
    /// The table refuses it.
    #[error("{0}")]
    Table(Refused),
}
