//! The program `tzlab`: what the libraries do, tried out on a network of one's own.
//!
//! The whole program is one call, [`run_words`] of the crate `lab_commands`, over the words and the standard streams; its page says what the
//! commands do. `main` makes the call on the arguments, and ends with the status that it answers. Words that can't be had end it with
//! status 1. Before all that, it sees to it that no file gets the number of a standard stream that is closed.
#![tactic(auto)]

use lab_commands::run_words;
use standard_streams::hold_streams;
use std::alloc::AllocError;
use std::env;
use std::io::Write;
use std::process::ExitCode;

fn main(rt: HostRuntime) -> ExitCode {
    let Ok(streams) = hold_streams(&rt) else {
        return ended_by(&rt, "input or output failed");
    };
    let given = match arguments(&rt) {
        Ok(given) => given,
        Err(text) => return ended_by(&rt, text),
    };
    let Ok(words) = borrowed(&rt, &given) else {
        return ended_by(&rt, "out of memory");
    };
    let (mut out, mut err) = (rt.stdout(), rt.stderr());
    let status = run_words(&rt, &words, &mut out, &mut err);
    drop(streams);
    ExitCode::from(status)
}

fn ended_by(rt: &HostRuntime, text: &str) -> ExitCode {
    let _told = writeln!(rt.stderr(), "tzlab: {text}");
    ExitCode::from(1)
}

// The program's words, without its name, or what is told where they can't be had.
fn arguments(rt: &HostRuntime) -> Result<Vec<String>, &'static str> {
    let Ok(given) = env::args(rt) else {
        return Err("the words can't be had");
    };
    let mut words = Vec::new(rt.alloc());
    for word in given.skip(1) {
        if words.push(word).is_err() {
            return Err("out of memory");
        }
    }
    Ok(words)
}

fn borrowed<'a>(rt: &HostRuntime, given: &'a [String]) -> Result<Vec<&'a str>, AllocError> {
    let mut words = Vec::new(rt.alloc());
    for word in given {
        words.push(word.as_str())?;
    }
    Ok(words)
}
