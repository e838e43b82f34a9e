// The command `landmarks`.
ghost use Rattle.std.specs.Prelude.{◌≡◌, ◌↔◌, ◌≤◌, IfOk, IfSome, decimal, option_map, true};
ghost use Rattle.clap.specs.Walk.{first_of};
ghost use Rattle.lab_landmarks.specs.Asked.{DoesLandmarks, IsStart, IsWanted};
ghost use Rattle.lab_landmarks.specs.Words.{landmarks_app};
ghost use Rattle.lab_parts.specs.Grammar.{IsCommandOf};
ghost use Rattle.lab_parts.specs.Words.{rows_in};
ghost use Rattle.value_syntax.specs.Reading.{IfRead};

use crate::choosing::{Chosen, Wanted, print_choice};
use clap::{ArgMatches, Command};
use lab_parts::{
    Sources, command, device, flag, given, is_given, loaded_of, optional, told, told_memory,
    told_of, usual, value,
};
use landmark_choice::Start;
use std::alloc::{AllocError, Global};
use std::io::{IsTerminal, Write};
use std::sync::Wait;
use std::thread::Threads;

/// Its grammar.
pub fn grammar<'a>(alloc: Global) -> Result<Command<'a>, AllocError>
    ensures { IfOk result (λ command. IsCommandOf command landmarks_app) }
{
    let about =
        "Chooses landmarks under which no node's table is large, and prints them for --words";
    let seed = "The seed of draw, with which the choice is compared, 0 where none is named";
    let start =
        "With which landmarks it begins: none, draw, degree or best, the best of these, as without it";
    let entries =
        "How many entries and members a table may have, else four times the square root of the nodes";
    let most = "How many landmarks there may be, else four times the square root of the nodes";
    let figures = "Prints the figures behind the landmarks, and not on standard error";
    let said = [
        device(),
        value("seed", "S", seed),
        value("start", "START", start),
        value("most-entries", "M", entries),
        value("most", "N", most),
        flag("figures", figures),
    ];
    command(alloc, "landmarks", about, &said)
}

/// Chooses landmarks for the device that these matches name, prints them on `out`, and answers the exit status. What went wrong is told on
/// `err`; where that is a terminal, it also says what is being done.
pub fn run<R, O, E>(rt: &R, found: &ArgMatches<'_>, out: &mut O, err: &mut E) -> u8
where
    R: Sources + AllocGlobal + Threads + Wait + Sync,
    O: Write,
    E: Write + IsTerminal,
    ensures few { result ≤ 2 }
    // 0 only where landmarks that keep the limits were printed, and 2 only where nothing was.
    ensures printed { result ≡ 0 → DoesLandmarks
        record { model = R.Device.Disk; opened = R.opened; closed = R.closed; stands = R.stands } (rows_in found.now)
        record { contents = O.contents; before = out.old; after = out.new } }
    ensures untouched { result ≡ 2 → out.new ≡ out.old }
{
    let Some(path) = given(found, "device") else {
        return 2;
    };
    let wanted = match wanted_in(rt.alloc(), found, err.is_terminal()) {
        Ok(Ok(wanted)) => wanted,
        Ok(Err(text)) => return told(err, 2, text),
        Err(_) => return told_memory(err),
    };
    let mut device = match rt.open_to_read(path) {
        Ok(device) => device,
        Err(refused) => return told_of(err, path, refused),
    };
    let loaded = loaded_of(rt.alloc(), &mut device);
    rt.close(device);
    let loaded = match loaded {
        Ok(loaded) => loaded,
        Err(fault) => return told_of(err, path, fault),
    };
    match print_choice(rt, &loaded.graph, loaded.count, wanted, out, err) {
        Ok(chosen) => tell(&chosen, err),
        Err(refused) => told(err, 1, refused),
    }
}

// Tells of a choice that was printed, and answers the exit status.
fn tell<E: Write>(chosen: &Chosen, err: &mut E) -> u8
    ensures kept { (result ≡ 0) ↔ (chosen.now.is_kept ≡ true) }
    ensures few { result ≤ 1 }
{
    let _told = write!(err, "{}", chosen.told);
    match chosen.is_kept {
        true => 0,
        false => 1,
    }
}

// What the matches ask for, or what in them isn't understood.
fn wanted_in(
    alloc: Global,
    found: &ArgMatches<'_>,
    with_progress: bool,
) -> Result<Result<Wanted, &'static str>, AllocError>
    ensures { IfOk result (λ read. IfOk read (IsWanted (rows_in found.now))) }
{
    let Some(seed) = usual(alloc, found, "seed", u64::MAX, 0)? else {
        return Ok(Err("seed not understood"));
    };
    let Some(start) = start_in(given(found, "start")) else {
        return Ok(Err("--start takes best, none, draw or degree"));
    };
    let Some(most_entries) = limit_in(alloc, found, "most-entries")? else {
        return Ok(Err("--most-entries takes 1 to 65535"));
    };
    let Some(most) = limit_in(alloc, found, "most")? else {
        return Ok(Err("--most takes 1 to 65535"));
    };
    Ok(Ok(Wanted {
        seed,
        start,
        most_entries,
        most,
        with_figures: is_given(found, "figures"),
        with_progress,
    }))
}

// With which landmarks it begins: the best of all, where none is named.
fn start_in(text: Option<&str>) -> Option<Option<Start>>
    ensures { IfSome result (IsStart (option_map (λ text. text.now) text.entry)) }
{
    match text {
        None | Some("best") => Some(None),
        Some("none") => Some(Some(Start::None)),
        Some("draw") => Some(Some(Start::Draw)),
        Some("degree") => Some(Some(Start::Degree)),
        _ => None,
    }
}

// A limit, where one is named. It is at least 1.
fn limit_in(
    alloc: Global,
    found: &ArgMatches<'_>,
    id: &str,
) -> Result<Option<Option<u16>>, AllocError>
    ensures { IfRead result (λ limit. first_of id.now (rows_in found.now) ≡ option_map decimal limit) }
{
    match optional(alloc, found, id, u16::MAX as u64)? {
        Some(None) => Ok(Some(None)),
        Some(Some(limit)) if limit > 0 => Ok(Some(Some(limit as u16))),
        _ => Ok(None),
    }
}
