// What the digits of an address or a packet ask for.
ghost use Rattle.std.specs.Prelude.{◌≡◌, ◌↔◌, IsTrue};
ghost use Rattle.hex.specs.Hex.{is_hex_digit};
ghost use Rattle.live_lines.specs.Lines.{AreHex, AsksJust, HopAsks, LaunchAsks};

use crate::asked::Asked;
use packet_bytes::{ADDRESS_SIZE, HexError, PACKET_SIZE, Wire, WireRefused, bytes_in};
use schemes::{Address, Packet};

/// Whether a byte is a hex digit, in either case.
fn is_digit(byte: u8) -> bool
    ensures { result ≡ is_hex_digit byte }
{
    matches!(byte, b'0'..=b'9' | b'A'..=b'F' | b'a'..=b'f')
}

/// Whether there is a hex digit or more, and nothing else.
pub(crate) fn are_digits(text: &[u8]) -> bool
    ensures { IsTrue result ↔ AreHex text.now }
{
    !text.is_empty() && text.iter().all(|byte| is_digit(*byte))
}

/// What a node is asked for by the digits of an address.
pub(crate) fn launch_of(from: u16, digits: &[u8]) -> Asked
    ensures { AsksJust (LaunchAsks from digits.now) result }
{
    if !are_digits(digits) {
        return Asked::NotUnderstood;
    }
    let bytes = match bytes_in::<ADDRESS_SIZE>(digits) {
        Ok(bytes) => bytes,
        Err(HexError::OtherLength) => return Asked::Unread(WireRefused::BadLength),
        Err(HexError::NoDigits) => return Asked::NotUnderstood,
    };
    match Address::from_bytes(&bytes) {
        Ok(to) => Asked::Launch { from, to },
        Err(refused) => Asked::Unread(refused),
    }
}

/// What a node is asked for by the digits of a packet.
pub(crate) fn hop_of(at: u16, digits: &[u8]) -> Asked
    ensures { AsksJust (HopAsks at digits.now) result }
{
    if !are_digits(digits) {
        return Asked::NotUnderstood;
    }
    let bytes = match bytes_in::<PACKET_SIZE>(digits) {
        Ok(bytes) => bytes,
        Err(HexError::OtherLength) => return Asked::Unread(WireRefused::BadLength),
        Err(HexError::NoDigits) => return Asked::NotUnderstood,
    };
    match Packet::from_bytes(&bytes) {
        Ok(packet) => Asked::Hop { at, packet },
        Err(refused) => Asked::Unread(refused),
    }
}
