//! The program `tzrouter`: one node of a network, which forwards by its own tables.
//!
//! The whole program is one call, [`run_words`] of the crate `router_commands`, over the words and the standard streams; its page says
//! what is answered. `main` makes the call on the arguments, and ends with the status that it answers. Words that can't be had end it
//! with status 1. Before all that, it sees to it that no file gets the number of a standard stream that is closed.
#![tactic(auto)]

use router_commands::run_words;
use standard_streams::hold_streams;
use std::alloc::AllocError;
use std::env;
use std::io::{self, Write};
use std::process::ExitCode;

fn main(rt: HostRuntime) -> ExitCode {
    let Ok(streams) = hold_streams(&rt) else {
        return ended_by(&rt, "input or output failed");
    };
    let Ok(given) = arguments(&rt) else {
        return ended_by(&rt, "the words can't be had");
    };
    let Ok(words) = borrowed(&rt, &given) else {
        return ended_by(&rt, "out of memory");
    };
    let (mut input, mut out, mut err) = (rt.reader(), rt.stdout(), rt.stderr());
    let status = run_words(&rt, &words, &mut input, &mut out, &mut err);
    drop(streams);
    ExitCode::from(status)
}

fn ended_by(rt: &HostRuntime, text: &str) -> ExitCode {
    let _told = writeln!(rt.stderr(), "tzrouter: {text}");
    ExitCode::from(1)
}

// The program's words, without its name.
fn arguments(rt: &HostRuntime) -> io::Result<Vec<String>> {
    let mut words = Vec::new(rt.alloc());
    for word in env::args(rt)?.skip(1) {
        words.push(word)?;
    }
    Ok(words)
}

fn borrowed<'a>(rt: &HostRuntime, given: &'a [String]) -> Result<Vec<&'a str>, AllocError> {
    let mut words = Vec::new(rt.alloc());
    for word in given {
        words.push(word.as_str())?;
    }
    Ok(words)
}
