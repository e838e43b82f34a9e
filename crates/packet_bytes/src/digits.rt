//! Bytes as hex digits.
ghost use Rattle.packet_bytes.specs.Digits.{IsDecoded};

use hex::FromHex;

/// What digits are not, where they aren't those of so many bytes: too many or too few of them, or no digits at all.
#[derive(Clone, Copy, Drop)]
pub enum HexError {
    OtherLength,
    NoDigits,
}

/// The bytes of so many hex digits.
pub fn bytes_in<const N: usize>(digits: &[u8]) -> Result<[u8; N], HexError>
    ensures { IsDecoded N digits.now result }
{
    if digits.len() % 2 != 0 || digits.len() / 2 != N {
        return Err(HexError::OtherLength);
    }
    match <[u8; N] as FromHex>::from_hex(digits) {
        Ok(bytes) => Ok(bytes),
        Err(_) => Err(HexError::NoDigits),
    }
}
