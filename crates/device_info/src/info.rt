//! The command `info`.
ghost use Rattle.std.specs.Prelude.{◌≡◌, ◌≢◌, ◌≤◌, ◌++◌, IfErr, IfOk, IsTrue, OnOk, flat_map, string_bytes};
ghost use Rattle.layout_2.specs.Loading.{IsRead};
ghost use Rattle.device_suspects.specs.Suspects.{AreSuspects};
ghost use Rattle.lab_parts.specs.Grammar.{IsCommandOf};
ghost use Rattle.lab_parts.specs.Words.{rows_in};
ghost use Rattle.device_info.specs.Commands.{DoesInfo, IsInfoRefused, IsUnseen, PrintsInfo, info_app, text_of_info};
ghost use Rattle.device_info.specs.Lines.{info_lines};
ghost use Rattle.device_info.specs.Present.{suspect_line};

use crate::figures::{DeviceInfo, info_of};
use crate::json::info_json;
use crate::lines::info_text;
use crate::refused::InfoRefused;
use crate::suspects::{are_none, present_of, push_lines};
use clap::{ArgMatches, Command};
use device_suspects::{Suspect, Suspects, suspects_of};
use disk_trait::Disk;
use lab_parts::{PrintRefused, Sources, command, device, flag, given, is_given, print, told_of};
use std::alloc::{AllocError, Global};
use std::io::Write;

/// Its grammar.
pub fn grammar<'a>(alloc: Global) -> Result<Command<'a>, AllocError>
    ensures { IfOk result (λ command. IsCommandOf command info_app) }
{
    let about = "Prints what a device holds, in a few figures";
    let said = [device(), flag("json", "Prints an object of JSON")];
    command(alloc, "info", about, &said)
}

/// Prints what the device that these matches name holds, and answers the exit status.
pub fn run<R, O, E>(rt: &R, found: &ArgMatches<'_>, out: &mut O, err: &mut E) -> u8
where
    R: Sources + AllocGlobal,
    O: Write,
    E: Write,
    ensures few { result ≤ 2 }
    // 0 only where it was printed and no suspect is on the device, and 2 only where nothing was.
    ensures printed { result ≡ 0 → DoesInfo
        record { model = R.Device.Disk; opened = R.opened; closed = R.closed; stands = R.stands } (rows_in found.now)
        record { contents = O.contents; before = out.old; after = out.new } }
    ensures untouched { result ≡ 2 → out.new ≡ out.old }
{
    let Some(path) = given(found, "device") else {
        return 2;
    };
    let as_json = is_given(found, "json");
    let mut device = match rt.open_to_read(path) {
        Ok(device) => device,
        Err(refused) => return told_of(err, path, refused),
    };
    let ended = info_on(rt.alloc(), &mut device, as_json, out);
    rt.close(device);
    match ended {
        Ok(true) => 0,
        Ok(false) => 1,
        Err(refused) => refused.told(err, path),
    }
}

/// Prints what a device holds, and what is on it that no crash leaves: lines, or an object of JSON. It answers whether there is none of these. The
/// device is only read.
pub fn info_on<D: Disk, O: Write>(
    alloc: Global,
    disk: &mut D,
    as_json: bool,
    out: &mut O,
) -> Result<bool, InfoRefused>
    ensures printed { IfOk result (λ is_sound. PrintsInfo as_json is_sound (D.view disk.old) (D.view disk.new)
        record { contents = O.contents; before = out.old; after = out.new }) }
    ensures refused { IfErr result (λ refused. IsInfoRefused (D.view disk.old) (D.view disk.new) refused) }
    ensures untouched { IfErr result (λ refused. refused ≢ InfoRefused.Print PrintRefused.Output → out.new ≡ out.old) }
{
    let info = info_of(alloc, disk)?;
    let suspects = seen_of(alloc, disk)?;
    let found = present_of(alloc, &suspects)?;
    let text = text_of(alloc, &info, &found, as_json)?;
    print(out, text.as_bytes()).map_err(InfoRefused::Print)?;
    Ok(are_none(&found))
}

// What is on a device that no crash leaves.
fn seen_of<D: Disk>(alloc: Global, disk: &mut D) -> Result<Suspects, InfoRefused>
    ensures read { OnOk result (IsRead (D.view disk.old) (D.view disk.new)) }
    ensures seen { IsTrue (D.view disk.old).keeps_model
        → IfOk result (λ suspects. AreSuspects suspects (D.view disk.old).content) }
    ensures refused { IfErr result (λ refused. IsUnseen (D.view disk.old) (D.view disk.new) refused) }
{
    match suspects_of(alloc, disk) {
        Ok(suspects) => Ok(suspects),
        Err(refused) => Err(InfoRefused::Suspects(refused)),
    }
}

fn text_of(
    alloc: Global,
    info: &DeviceInfo,
    suspects: &[Suspect],
    as_json: bool,
) -> Result<String, AllocError>
    ensures { IfOk result (λ text. string_bytes text ≡ text_of_info as_json info.now suspects.now) }
{
    if as_json {
        info_json(alloc, info, suspects)
    } else {
        lines_of(alloc, info, suspects)
    }
}

fn lines_of(alloc: Global, info: &DeviceInfo, suspects: &[Suspect]) -> Result<String, AllocError>
    ensures { IfOk result (λ text. string_bytes text ≡ info_lines info.now ++ flat_map suspect_line suspects.now) }
{
    let mut text = info_text(alloc, info)?;
    push_lines(&mut text, suspects)?;
    Ok(text)
}
