// What a forwarder answers by a board.
ghost use Rattle.std.specs.Prelude.{◌≡◌, map, None, Some, MatchOption};
ghost use Rattle.generations.specs.Shelves.{plain};
ghost use Rattle.generations.specs.Boards.{latest_of, scheme_of};
ghost use Rattle.forwarders.specs.Answers.{address_at, hop_at, launch_at};

use crate::refused::{Refused, named_by};
use generations::{Board, Shelved};
use schemes::{Address, Move, Packet, Scheme};

// The number of the last of these.
fn last_number(places: &[Option<Shelved>]) -> Option<u64>
    ensures { result ≡ latest_of (map plain places.now) }
{
    let mut latest = None;
    for place in places {
        if let Some(shelved) = place {
            latest = Some(shelved.number);
        }
    }
    latest
}

// The scheme of this number.
fn scheme_in(places: &[Option<Shelved>], number: u64) -> Option<&Scheme>
    ensures { MatchOption result (scheme_of number (map plain places.now) ≡ None)
        (λ s. scheme_of number (map plain places.now) ≡ Some s.now) }
{
    match places {
        [] => None,
        [Some(shelved), ..] if shelved.number == number => Some(&shelved.scheme),
        [_, rest @ ..] => scheme_in(rest, number),
    }
}

/// The number of the newest generation on the shelf.
pub fn latest_on(board: &Board) -> Option<u64>
    ensures { result ≡ latest_of board.now.shelf }
{
    last_number(board.shelf())
}

/// The address of a node in a generation.
pub fn address_on(board: &Board, generation: u64, v: u16) -> Result<Address, Refused>
    ensures { result ≡ address_at generation v board.now.shelf }
{
    let Some(scheme) = scheme_in(board.shelf(), generation) else {
        return Err(Refused::GenerationGone);
    };
    match scheme.address(v) {
        Ok(address) => Ok(address),
        Err(refused) => Err(named_by(refused)),
    }
}

/// The packet that a node sends to an address, by the scheme of the address's generation.
pub fn launch_on(board: &Board, from: u16, address: &Address) -> Result<Packet, Refused>
    ensures { result ≡ launch_at from address.now board.now.shelf }
{
    let Some(scheme) = scheme_in(board.shelf(), address.generation) else {
        return Err(Refused::GenerationGone);
    };
    match scheme.decide(from, address) {
        Ok(packet) => Ok(packet),
        Err(refused) => Err(named_by(refused)),
    }
}

/// What a node does with a packet, by the scheme of the packet's generation.
pub fn hop_on(board: &Board, at: u16, packet: &Packet) -> Result<Move, Refused>
    ensures { result ≡ hop_at at packet.now board.now.shelf }
{
    let Some(scheme) = scheme_in(board.shelf(), packet.generation) else {
        return Err(Refused::GenerationGone);
    };
    match scheme.node_step(at, packet) {
        Ok(step) => Ok(step),
        Err(refused) => Err(named_by(refused)),
    }
}
