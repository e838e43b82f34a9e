//! The stops of calls.
ghost use Rattle.std.specs.Prelude.{◌≡◌, ◌≤◌, ◌-◌, ◌^◌, ◌++◌, length, min, take, IfOk, OnOk};
ghost use Rattle.crash_trials.specs.Stops.{bytes_of, first_stops, stop_count, stops_at};

use std::alloc::{AllocError, Global};

/// A call of a device.
#[derive(Clone, Copy, Debug, PartialEq, Eq, Drop)]
pub enum Call {
    Read,
    /// A write of so many bytes.
    Write(usize),
    Sync,
}

impl Call {
    /// How many bytes it puts.
    pub fn bytes(self) -> usize
        ensures { result ≡ bytes_of self }
    {
        match self {
            Call::Read | Call::Sync => 0,
            Call::Write(bytes) => bytes,
        }
    }
}

/// The device stops at this call, and puts so many bytes of it.
#[derive(Clone, Copy, Debug, PartialEq, Eq, Drop)]
pub struct Stop {
    /// Counted from 1.
    pub call: u64,
    pub put: usize,
}

/// The first `most` stops of these calls, or all of them where there are no more: of each call in turn none of its bytes is put, one,
/// two, and so on, and at last all of them.
pub fn stops_of(alloc: Global, calls: &[Call], most: usize) -> Result<Vec<Stop>, AllocError>
    ensures { IfOk result (λ stops. stops.items ≡ first_stops most calls.now) }
{
    let mut stops = Vec::new(alloc);
    for i in 0..calls.len() {
        push_stops(&mut stops, i as u64 + 1, calls[i], most)?;
    }
    Ok(stops)
}

// The stops of one call behind the others, as many as there is room for among the first `most`.
fn push_stops(stops: &mut Vec<Stop>, number: u64, call: Call, most: usize) -> Result<(), AllocError>
    requires { length stops.old.items ≤ most }
    ensures { OnOk result (stops.new.items ≡ take most (stops.old.items ++ stops_at number call)) }
{
    let count = call.bytes().saturating_add(1).min(most - stops.len());
    stops.extend((0..count).map(|put| Stop { call: number, put }))?;
    Ok(())
}

/// How many stops these calls have, or the greatest number that there is for that.
pub fn count_stops(calls: &[Call]) -> u64
    ensures { result ≡ min (stop_count calls.now) (2 ^ 64 - 1) }
{
    calls.iter().fold(0, |stops: u64, call| {
        let here = (call.bytes() as u64).saturating_add(1);
        stops.saturating_add(here)
    })
}
