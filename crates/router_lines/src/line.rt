// What a line asks for.
ghost use Rattle.std.specs.Prelude.{◌≡◌, ◌≢◌, ◌<◌, ◌^◌, ◌++◌, MatchOption, ℕ, List, decimal};
ghost use Rattle.router_lines.specs.Lines.{IsAskedIn, IsLaunch, IsHop, drop_word, load_word};

use itoa::Buffer;
use packet_bytes::{ADDRESS_SIZE, HexError, PACKET_SIZE, Wire, WireRefused, bytes_in};
use schemes::{Address, Packet};

/// What a line asks for.
#[derive(Drop)]
pub enum Asked {
    /// Where the router is to be found.
    Address,
    /// A packet to an address.
    Launch(Address),
    /// What becomes of a packet.
    Hop(Packet),
    /// Which tables there are.
    Tables,
    /// What is to be launched or to hop has no spelling.
    Unread(WireRefused),
    /// Nothing that is known.
    NotUnderstood,
}

/// What stands behind a word at the front of a line.
#[tactic(auto, using(crate::proofs::Fronts::short_front, crate::proofs::Fronts::front_of_other, crate::proofs::Fronts::front_and_rest))]
fn behind<'a>(line: &'a [u8], word: &[u8]) -> Option<&'a [u8]>
    ensures { MatchOption result ((rest : List ℕ) → line.now ≢ word.now ++ rest)
        (λ rest. line.now ≡ word.now ++ rest.now) }
{
    if line.len() < word.len() {
        return None;
    }
    let (front, rest) = line.split_at(word.len());
    if front == word { Some(rest) } else { None }
}

/// The file that a line names behind `load `.
pub fn file_in(line: &[u8]) -> Option<&[u8]>
    ensures { MatchOption result ((file : List ℕ) → line.now ≢ load_word ++ file)
        (λ file. line.now ≡ load_word ++ file.now) }
{
    behind(line, b"load ")
}

/// The number of 64 bits that bytes are the plain decimal form of, without sign and leading zeros.
fn number_in(digits: &[u8]) -> Option<u64>
    ensures { MatchOption result ((number : ℕ) → number < 2 ^ 64 → digits.now ≢ decimal number) (λ number. digits.now ≡ decimal number) }
{
    let Ok(text) = str::from_utf8(digits) else {
        return None;
    };
    let Ok(number) = text.parse::<u64>() else {
        return None;
    };
    let mut buffer = Buffer::new();
    if buffer.format(number) == text {
        Some(number)
    } else {
        None
    }
}

/// The generation that a line names behind `drop `.
pub fn dropped_in(line: &[u8]) -> Option<u64>
    ensures { MatchOption result ((generation : ℕ) → generation < 2 ^ 64 → line.now ≢ drop_word ++ decimal generation)
        (λ generation. line.now ≡ drop_word ++ decimal generation) }
{
    match behind(line, b"drop ") {
        Some(digits) => number_in(digits),
        None => None,
    }
}

/// What is asked for by the digits of an address.
fn launch_of(digits: &[u8]) -> Asked
    ensures { IsLaunch digits.now result }
{
    let bytes = match bytes_in::<ADDRESS_SIZE>(digits) {
        Ok(bytes) => bytes,
        Err(HexError::OtherLength) => return Asked::Unread(WireRefused::BadLength),
        Err(HexError::NoDigits) => return Asked::NotUnderstood,
    };
    match Address::from_bytes(&bytes) {
        Ok(address) => Asked::Launch(address),
        Err(refused) => Asked::Unread(refused),
    }
}

/// What is asked for by the digits of a packet.
fn hop_of(digits: &[u8]) -> Asked
    ensures { IsHop digits.now result }
{
    let bytes = match bytes_in::<PACKET_SIZE>(digits) {
        Ok(bytes) => bytes,
        Err(HexError::OtherLength) => return Asked::Unread(WireRefused::BadLength),
        Err(HexError::NoDigits) => return Asked::NotUnderstood,
    };
    match Packet::from_bytes(&bytes) {
        Ok(packet) => Asked::Hop(packet),
        Err(refused) => Asked::Unread(refused),
    }
}

/// What a line asks for, where it doesn't name a file.
#[tactic(auto, using(crate::proofs::Asking::launch_asked, crate::proofs::Asking::hop_asked, crate::proofs::Asking::nothing_asked))]
pub fn asked_in(line: &[u8]) -> Asked
    ensures { IsAskedIn line.now result }
{
    if line == b"address".as_slice() {
        return Asked::Address;
    }
    if line == b"tables".as_slice() {
        return Asked::Tables;
    }
    if let Some(digits) = behind(line, b"launch ") {
        return launch_of(digits);
    }
    match behind(line, b"hop ") {
        Some(digits) => hop_of(digits),
        None => Asked::NotUnderstood,
    }
}
