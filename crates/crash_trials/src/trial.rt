//! Trials of the last life that is written.
ghost use Rattle.std.specs.Prelude.{◌≡◌, ◌<◌, ◌≤◌, ◌++◌, [], ◌∷◌, IfOk, IsErrOf, OnOk, length, map};
ghost use Rattle.std.specs.List.{AllByRecursion};
ghost use Rattle.std.specs.String.{string_bytes};
ghost use Rattle.disk_trait.specs.declared.plan.Plan.TheVariants as plans;
ghost use Rattle.rehearsals.specs.Rehearsed.{IsOutOfRange};
ghost use Rattle.crash_trials.specs.Trials.{AreCallsOf, AreCallsUnstopped, IsArmed, IsLivedTo, IsStopFound, IsTrialsText, IsTried};

use crate::found::{is_whole, kind_of};
use crate::kinds::Kind;
use crate::stops::{Call, Stop, count_stops, stops_of};
use crate::texts::trials_text;
use crate::watched::Watched;
use disk_trait::{Disk, MemDisk, Plan};
use life_chain::{Life, lives_on};
use rehearsals::{Rehearsal, RehearseRefused, formatted_device, run_lives};
use std::alloc::{AllocError, Global};

/// What a trial came to whose device stopped here.
#[derive(Clone, Copy, Debug, PartialEq, Eq, Drop)]
pub struct StopFound {
    pub stop: Stop,
    pub kind: Kind,
}

// Gives the life before the last one, which only opens, this plan.
fn arm_last(rehearsal: &mut Rehearsal, plan: Plan)
    requires { 2 ≤ length rehearsal.old.lives.items }
    ensures { IsArmed plan rehearsal.old rehearsal.new }
{
    let last = rehearsal.lives.len() - 2;
    rehearsal.lives[last].plan = plan;
}

/// Runs the written lives, of which the last has a device that doesn't fail, and answers the calls that it made of the device. It is refused
/// where a device can't have so many nodes; or where memory ran out, also in a life.
pub fn calls_of_last(alloc: Global, rehearsal: &mut Rehearsal) -> Result<Vec<Call>, RehearseRefused>
    requires { 2 ≤ length rehearsal.old.lives.items }
    ensures calls { IfOk result (λ calls. AreCallsUnstopped ⟦<Watched as Disk>⟧ rehearsal.old calls.items) }
    ensures armed { IsArmed plans.None rehearsal.old rehearsal.new }
{
    arm_last(rehearsal, Plan::None);
    let written = &rehearsal.lives[..rehearsal.lives.len() - 1];
    calls_of(alloc, rehearsal.nodes, written)
}

// The calls that the last of these lives makes of a new device.
fn calls_of(alloc: Global, nodes: u16, lives: &[Life]) -> Result<Vec<Call>, RehearseRefused>
    ensures { IfOk result (λ calls. AreCallsOf ⟦<Watched as Disk>⟧ nodes lives.now calls.items) }
{
    let disk = formatted_device(alloc, nodes)?;
    let (report, watched) = lives_on(alloc, Watched::new(alloc, disk), lives);
    let report = report?;
    if !is_whole(&report) {
        return Err(RehearseRefused::Memory);
    }
    Ok(watched.into_calls()?)
}

/// Runs the rehearsal's lives on a new device, which stops here in the last life but the one that only opens, and answers what they came
/// to. It is refused where a device can't have so many nodes; or where memory ran out, also in a life.
pub fn try_stop(
    alloc: Global,
    rehearsal: &mut Rehearsal,
    stop: Stop,
) -> Result<StopFound, RehearseRefused>
    requires { 2 ≤ length rehearsal.old.lives.items }
    ensures found { IfOk result (λ found. IsStopFound ⟦<MemDisk as Disk>⟧ rehearsal.old found) }
    ensures stop { IfOk result (λ found. found.stop ≡ stop) }
    ensures armed { IsArmed (plans.Stop stop.call stop.put) rehearsal.old rehearsal.new }
    ensures out_of_range { IsErrOf result RehearseRefused.Nodes → IsOutOfRange rehearsal.old.nodes }
{
    arm_last(rehearsal, Plan::Stop(stop.call, stop.put));
    let kind = lived(alloc, rehearsal.nodes, &rehearsal.lives)?;
    Ok(StopFound { stop, kind })
}

// Runs lives on a new device, and answers what the last two came to.
fn lived(alloc: Global, nodes: u16, lives: &[Life]) -> Result<Kind, RehearseRefused>
    ensures lived { IfOk result (λ kind. IsLivedTo ⟦<MemDisk as Disk>⟧ nodes lives.now kind) }
    ensures out_of_range { IsErrOf result RehearseRefused.Nodes → IsOutOfRange nodes }
{
    let report = run_lives(alloc, nodes, lives)?;
    match kind_of(&report) {
        Some(kind) => Ok(kind),
        None => Err(RehearseRefused::Memory),
    }
}

/// Tries these stops, one after another. Before each trial `told` hears how many there were.
pub fn try_stops<F: Fn(usize)>(
    alloc: Global,
    rehearsal: &mut Rehearsal,
    stops: &[Stop],
    told: F,
) -> Result<Vec<StopFound>, RehearseRefused>
    requires callable { F.IsAlwaysCallable told }
    requires some { 2 ≤ length rehearsal.old.lives.items }
    ensures found { IfOk result (λ tried. AllByRecursion (IsStopFound ⟦<MemDisk as Disk>⟧ rehearsal.old) tried.items) }
    ensures stops { IfOk result (λ tried. map (λ found. found.stop) tried.items ≡ stops.now) }
{
    let mut tried = Vec::new(alloc);
    for stop in stops {
        told(tried.len());
        let found = try_stop(alloc, rehearsal, *stop)?;
        add(&mut tried, found)?;
    }
    Ok(tried)
}

// One trial behind the others.
fn add(tried: &mut Vec<StopFound>, found: StopFound) -> Result<(), AllocError>
    ensures { OnOk result (tried.new.items ≡ tried.old.items ++ found ∷ []) }
{
    Ok(tried.push(found)?)
}

/// Tries the last written life at each stop of its device, at most `most` of them, and answers the lines of what they came to. A rehearsal
/// that writes no life has no stop. Before each trial `told` hears how many there were. It is refused where a device can't have so many
/// nodes; or where memory ran out, also in a life.
pub fn try_every_stop<F: Fn(usize)>(
    alloc: Global,
    rehearsal: &mut Rehearsal,
    most: usize,
    told: F,
) -> Result<String, RehearseRefused>
    requires { F.IsAlwaysCallable told }
    ensures none { length rehearsal.old.lives.items < 2 → IfOk result (λ text. IsTrialsText 0 [] (string_bytes text)) }
    ensures tried { 2 ≤ length rehearsal.old.lives.items →
        IfOk result (λ text. IsTried record { memory = ⟦<MemDisk as Disk>⟧; watched = ⟦<Watched as Disk>⟧ }
        rehearsal.old most (string_bytes text)) }
{
    if rehearsal.lives.len() < 2 {
        return Ok(trials_text(alloc, 0, &[])?);
    }
    let calls = calls_of_last(alloc, rehearsal)?;
    let stops = stops_of(alloc, &calls, most)?;
    let tried = try_stops(alloc, rehearsal, &stops, told)?;
    let text = trials_text(alloc, count_stops(&calls), &tried)?;
    Ok(text)
}
