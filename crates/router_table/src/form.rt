// The form of a table in bytes, whatever its values: letters, version, size and digest.
ghost use Rattle.std.specs.Prelude.{◌≡◌, ◌↔◌, ◌+◌, ◌<◌, ◌≤◌, ◌^◌, length, IfSome, IsTrue, MatchResult};
ghost use Rattle.byte_forms.specs.Reading.{Finds};
ghost use Rattle.router_table.specs.Refusals.{HasLetters, HasVersion, IsBodyOf, IsFormRefused, behind, behind_body, behind_directory, behind_items, behind_members};
ghost use Rattle.router_table.specs.Spelling.{digest_of};

use crate::refused::ReadRefused;
use byte_forms::u16_at;
use sha2::{Digest, Sha256};

/// What stands in front of a table.
pub(crate) const LETTERS: [u8; 6] = *b"TZTABL";

/// The digits of its version.
pub(crate) const VERSION: [u8; 2] = *b"01";

/// The letters and the version.
pub const FRONT_SIZE: usize = LETTERS.len() + VERSION.len();

/// These, and a table's generation, number of nodes, node and address.
pub const HEAD_SIZE: usize = 62;

/// A port.
const PORT_SIZE: usize = 2;

/// An entry.
const ENTRY_SIZE: usize = 13;

/// A member of a directory before its ports.
const MEMBER_SIZE: usize = 5;

/// Where in a member the number of its ports stands.
const COUNT_AT: usize = 4;

/// A digest.
const DIGEST_SIZE: usize = 32;

/// The SHA-256 of bytes.
#[tactic(auto, unfolding(crate::specs::Spelling::digest_of))]
pub(crate) fn digest(bytes: &[u8]) -> [u8; DIGEST_SIZE]
    ensures { result ≡ digest_of bytes.now }
{
    Sha256::digest(bytes)
}

/// The bytes behind so many.
fn past(count: usize, bytes: &[u8]) -> Option<&[u8]>
    ensures rest { Finds (λ rest. rest.now) result (behind count bytes.now) }
    ensures shorter { IfSome result (λ rest. length rest.now + count ≡ length bytes.now) }
{
    if bytes.len() < count {
        return None;
    }
    Some(&bytes[count..])
}

/// The bytes behind a list of items that have one size.
#[tactic(auto, unfolding(crate::specs::Refusals::behind_items))]
fn past_items(size: usize, bytes: &[u8]) -> Option<&[u8]>
    requires { size < 2 ^ 16 }
    ensures rest { Finds (λ rest. rest.now) result (behind_items size bytes.now) }
    ensures shorter { IfSome result (λ rest. length rest.now ≤ length bytes.now) }
{
    let (count, rest) = u16_at(bytes)?;
    past(size * count as usize, rest)
}

/// The bytes behind so many members of a directory.
fn past_members(count: u16, bytes: &[u8]) -> Option<&[u8]>
    ensures rest { Finds (λ rest. rest.now) result (behind_members count bytes.now) }
    ensures shorter { IfSome result (λ rest. length rest.now ≤ length bytes.now) }
{
    let mut rest = bytes;
    for _ in 0..count {
        let Some(ports) = past(MEMBER_SIZE, rest) else {
            return None;
        };
        let Some(next) = past(2 * rest[COUNT_AT] as usize, ports) else {
            return None;
        };
        rest = next;
    }
    Some(rest)
}

/// The bytes behind a directory.
#[tactic(auto, unfolding(crate::specs::Refusals::behind_directory))]
fn past_directory(bytes: &[u8]) -> Option<&[u8]>
    ensures rest { Finds (λ rest. rest.now) result (behind_directory bytes.now) }
    ensures shorter { IfSome result (λ rest. length rest.now ≤ length bytes.now) }
{
    let (count, rest) = u16_at(bytes)?;
    past_members(count, rest)
}

/// The bytes behind a table's body.
#[tactic(auto, unfolding(crate::specs::Refusals::behind_body))]
fn past_body(bytes: &[u8]) -> Option<&[u8]>
    ensures rest { Finds (λ rest. rest.now) result (behind_body bytes.now) }
    ensures shorter { IfSome result (λ rest. length rest.now + HEAD_SIZE ≤ length bytes.now) }
{
    let ports = past(HEAD_SIZE, bytes)?;
    let entries = past_items(PORT_SIZE, ports)?;
    let directory = past_items(ENTRY_SIZE, entries)?;
    past_directory(directory)
}

/// Whether the letters of a table stand in front.
fn has_letters(bytes: &[u8]) -> bool
    ensures { IsTrue result ↔ HasLetters bytes.now }
{
    bytes.len() >= FRONT_SIZE && bytes[..LETTERS.len()] == LETTERS[..]
}

/// Whether the version stands behind the letters.
fn has_version(bytes: &[u8]) -> bool
    requires { HasLetters bytes.now }
    ensures { IsTrue result ↔ HasVersion bytes.now }
{
    bytes[LETTERS.len()..FRONT_SIZE] == VERSION[..]
}

/// Whether a digest is that of a body.
fn is_digest(body: &[u8], found: &[u8]) -> bool
    ensures { IsTrue result ↔ (found.now ≡ digest_of body.now) }
{
    let digest = digest(body);
    digest.as_slice() == found
}

/// The bytes before the digest, or the first thing that is wrong with the form.
pub fn body_of(bytes: &[u8]) -> Result<&[u8], ReadRefused>
    ensures { MatchResult result (λ body. IsBodyOf bytes.now body.now) (IsFormRefused bytes.now) }
{
    if !has_letters(bytes) {
        return Err(ReadRefused::NoTable);
    }
    if !has_version(bytes) {
        return Err(ReadRefused::UnknownVersion);
    }
    let Some(behind) = past_body(bytes) else {
        return Err(ReadRefused::CutShort);
    };
    if behind.len() < DIGEST_SIZE {
        return Err(ReadRefused::CutShort);
    }
    if behind.len() > DIGEST_SIZE {
        return Err(ReadRefused::TooLong);
    }
    let (body, found) = bytes.split_at(bytes.len() - DIGEST_SIZE);
    if !is_digest(body, found) {
        return Err(ReadRefused::Damaged);
    }
    Ok(body)
}
