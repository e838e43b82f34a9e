//! Addresses as bytes.
ghost use Rattle.std.specs.Prelude.{◌≡◌, ◌+◌, ◌≤◌, ◌++◌, None, Some, length, MatchResult};
ghost use Rattle.packet_bytes.specs.Refusals.{address_refusal, home_refusal};
ghost use Rattle.packet_bytes.specs.Spelling.{IsHome, SpellsAddress, home_text};

use crate::fields::{put, put_u16, put_u64, split_u16, split_u64};
use crate::layout::{ADDRESS_SIZE, HOME_SIZE, LANDMARK_FLAG};
use crate::ports::{all_zero, put_ports, read_ports};
use crate::wire::{Wire, WireRefused};
use arrayvec::ArrayVec;
use heavy_labels::Label;
use schemes::{Address, Home};

impl Wire for Address {
    type Bytes = [u8; ADDRESS_SIZE];

    ghost bytes_in = { λ bytes. bytes };

    ghost Spells = { SpellsAddress };

    ghost refusal = { address_refusal };

    fn to_bytes(&self) -> [u8; ADDRESS_SIZE] {
        let mut out = ArrayVec::<u8, ADDRESS_SIZE>::new();
        put_u64(&mut out, self.generation);
        put_u16(&mut out, self.node);
        put_home(&mut out, &self.home);
        match out.into_inner() {
            Ok(bytes) => bytes,
            Err(_) => unreachable!(),
        }
    }

    fn from_bytes(bytes: &[u8]) -> Result<Address, WireRefused> {
        if bytes.len() != ADDRESS_SIZE {
            return Err(WireRefused::BadLength);
        }
        let (generation, rest) = split_u64(bytes);
        let (node, rest) = split_u16(rest);
        let home = read_home(rest)?;
        Ok(Address {
            generation,
            node,
            home,
        })
    }
}

// Writes the landmark and label at the end, behind their flag; zeros where there are none.
fn put_home<const N: usize>(out: &mut ArrayVec<u8, N>, home: &Option<Home>)
    requires { length out.old.items + HOME_SIZE ≤ N }
    ensures text { out.new.items ≡ out.old.items ++ home_text home.now }
    ensures len { length out.new.items ≡ length out.old.items + HOME_SIZE }
    ensures fits { IsHome home.now }
{
    let Some(home) = home else {
        return put(out, &[0; HOME_SIZE]);
    };
    out.push(LANDMARK_FLAG);
    put_u16(out, home.landmark);
    put_u16(out, home.label.first());
    put_ports(out, home.label.lights());
}

// The landmark and label that bytes from the flag on spell, or why they spell none.
fn read_home(bytes: &[u8]) -> Result<Option<Home>, WireRefused>
    requires { length bytes.now ≡ HOME_SIZE }
    ensures { MatchResult result
        (λ home. (home_refusal bytes.now ≡ None) × (IsHome home × (bytes.now ≡ home_text home)))
        (λ refused. home_refusal bytes.now ≡ Some refused) }
{
    let flag = bytes[0];
    let rest = &bytes[1..];
    if flag == 0 && all_zero(rest) {
        return Ok(None);
    }
    if flag != LANDMARK_FLAG {
        return Err(WireRefused::BadFlag);
    }
    let (landmark, rest) = split_u16(rest);
    let (first, rest) = split_u16(rest);
    let lights = read_ports(rest)?;
    Ok(Some(Home {
        landmark,
        label: Label::new(first, lights),
    }))
}
