//! The lines of a report.
ghost use Rattle.std.specs.Prelude.{◌≡◌, ◌++◌, IfOk, OnOk};
ghost use Rattle.std.specs.List.{flat_map};
ghost use Rattle.std.specs.String.{string_bytes};
ghost use Rattle.rehearsals.specs.Reports.{answered_lines, crash_line, crashed_line, found_line, held_text, held_tickets, life_lines, opened_line, reply_line, report_text};

use crate::lines::{NotOpenedLine, ReplyLine};
use event_model::Reply;
use life_chain::{LifeReport, LivesReport};
use std::alloc::{AllocError, Global};

/// The lines of a report: all of the first `whole` lives, of those behind them what they opened to, and why the last couldn't open.
pub fn report_text(alloc: Global, whole: usize, report: &LivesReport) -> Result<String, AllocError>
    ensures { IfOk result (λ text. string_bytes text ≡ report_text whole report.now) }
{
    let mut text = String::new(alloc);
    let told = whole.min(report.lives.len());
    push_lives(alloc, &mut text, true, &report.lives[..told])?;
    push_lives(alloc, &mut text, false, &report.lives[told..])?;
    if let Some(refused) = report.refused {
        writeln!(&mut text, "{}", NotOpenedLine { refused })?;
    }
    Ok(text)
}

// The lines of these lives, all or what they opened to.
fn push_lives(
    alloc: Global,
    text: &mut String,
    is_whole: bool,
    lives: &[LifeReport],
) -> Result<(), AllocError>
    ensures { OnOk result (string_bytes text.new ≡ string_bytes text.old ++ flat_map (life_lines is_whole) lives.now) }
{
    for life in lives {
        push_life(alloc, text, is_whole, life)?;
    }
    Ok(())
}

fn push_life(
    alloc: Global,
    text: &mut String,
    is_whole: bool,
    life: &LifeReport,
) -> Result<(), AllocError>
    ensures { OnOk result (string_bytes text.new ≡ string_bytes text.old ++ life_lines is_whole life.now) }
{
    push_opened(alloc, text, life)?;
    if is_whole {
        push_answered(text, life)
    } else {
        Ok(())
    }
}

// What it opened to.
fn push_opened(alloc: Global, text: &mut String, life: &LifeReport) -> Result<(), AllocError>
    ensures { OnOk result (string_bytes text.new ≡ string_bytes text.old ++ opened_line life.now) }
{
    let held = tickets_held(alloc, &life.tickets)?;
    push_found(text, life.count, life.graph.edges(), held.len(), &held)?;
    Ok(())
}

fn push_found(
    text: &mut String,
    count: u64,
    edges: usize,
    tickets: usize,
    held: &[(usize, u64)],
) -> Result<(), AllocError>
    ensures { OnOk result (string_bytes text.new ≡ string_bytes text.old ++ found_line count edges tickets held.now) }
{
    write!(text, "opened count={count} edges={edges} tickets={tickets}")?;
    push_held(text, held)?;
    writeln!(text, "")
}

// The sessions that have a last ticket, each with it.
fn tickets_held(alloc: Global, tickets: &[u64]) -> Result<Vec<(usize, u64)>, AllocError>
    ensures { IfOk result (λ held. held.items ≡ held_tickets tickets.now) }
{
    let each = tickets.iter().copied().enumerate();
    each.filter(|(_, ticket)| *ticket != 0).collect(alloc)
}

fn push_held(text: &mut String, held: &[(usize, u64)]) -> Result<(), AllocError>
    ensures { OnOk result (string_bytes text.new ≡ string_bytes text.old ++ flat_map held_text held.now) }
{
    for (session, ticket) in held {
        write!(text, " {session}:{ticket}")?;
    }
    Ok(())
}

fn push_answered(text: &mut String, life: &LifeReport) -> Result<(), AllocError>
    ensures { OnOk result (string_bytes text.new ≡ string_bytes text.old ++ answered_lines life.now) }
{
    push_reply(text, life.rebuilt)?;
    push_replies(text, &life.replies)?;
    push_crash(text, life)
}

fn push_replies(text: &mut String, replies: &[Reply]) -> Result<(), AllocError>
    ensures { OnOk result (string_bytes text.new ≡ string_bytes text.old ++ flat_map reply_line replies.now) }
{
    for reply in replies {
        push_reply(text, *reply)?;
    }
    Ok(())
}

fn push_reply(text: &mut String, reply: Reply) -> Result<(), AllocError>
    ensures { OnOk result (string_bytes text.new ≡ string_bytes text.old ++ reply_line reply) }
{
    writeln!(text, "{}", ReplyLine { reply })
}

// What stood when its device crashed.
fn push_crash(text: &mut String, life: &LifeReport) -> Result<(), AllocError>
    ensures { OnOk result (string_bytes text.new ≡ string_bytes text.old ++ crash_line life.now) }
{
    let postings = life.stored.postings.len();
    push_crashed(text, life.stored.taken, life.stored.done, postings)?;
    Ok(())
}

fn push_crashed(
    text: &mut String,
    taken: usize,
    done: usize,
    posted: usize,
) -> Result<(), AllocError>
    ensures { OnOk result (string_bytes text.new ≡ string_bytes text.old ++ crashed_line taken done posted) }
{
    writeln!(text, "crash taken={taken} settled={done} postings={posted}")?;
    Ok(())
}
