// Landmarks that are chosen for a network, and printed.
ghost use Rattle.std.specs.Prelude.{◌≡◌, ◌≢◌, ◌++◌, IfErr, IfOk, OnOk, not, string_bytes};
ghost use Rattle.landmark_choice.specs.Choices.{IsChoice};
ghost use Rattle.lab_landmarks.specs.Answers.{AreLimits, HasChosen, IsAnswer, excess_text, where_asked};

use crate::lines::line_of;
use crate::reports::{Asked, Report, report_of};
use graph_edits::Graph;
use lab_parts::{PrintRefused, print};
use landmark_choice::{Balls, Choice, Limits, Start, choose_best, choose_from, default_limit};
use scheme_builds::workers_here;
use std::alloc::AllocError;
use std::io::Write;
use std::sync::Wait;
use std::thread::Threads;
use value_syntax::Draws;

/// What is asked for. A limit that isn't named is four times the square root of the number of nodes.
#[derive(Clone, Copy)]
pub struct Wanted {
    pub seed: u64,
    /// From one start, or the best of all.
    pub start: Option<Start>,
    pub most_entries: Option<u16>,
    pub most: Option<u16>,
    /// Whether the figures stand behind the landmarks. Else they are told.
    pub with_figures: bool,
    /// Whether it is told what is being done.
    pub with_progress: bool,
}

/// What is printed of a choice, what is to be told of it, and whether it keeps the limits.
#[derive(Drop)]
pub struct Chosen {
    pub text: String,
    pub told: String,
    pub is_kept: bool,
}

/// Chooses landmarks for a network of this generation and prints them. What is to be told of them is answered; on `err` it is only told what
/// is being done. Where memory ran out, also where a thread can't be made, nothing was printed.
pub fn print_choice<R, O, E>(
    rt: &R,
    graph: &Graph,
    generation: u64,
    wanted: Wanted,
    out: &mut O,
    err: &mut E,
) -> Result<Chosen, PrintRefused>
where
    R: AllocGlobal + Threads + Wait + Sync,
    O: Write,
    E: Write,
    ensures chosen { IfOk result (HasChosen graph.now generation wanted
        record { contents = O.contents; before = out.old; after = out.new }) }
    ensures untouched { IfErr result (λ refused. refused ≢ PrintRefused.Output → out.new ≡ out.old) }
{
    let answer = answer_of(rt, graph, generation, wanted, err);
    progress(err, wanted, "");
    let chosen = answer?;
    print(out, chosen.text.as_bytes())?;
    Ok(chosen)
}

fn limits_of(wanted: Wanted, nodes: u16) -> Limits
    ensures { AreLimits wanted nodes result }
{
    Limits {
        most_entries: wanted.most_entries.unwrap_or(default_limit(nodes)),
        most: wanted.most.unwrap_or(default_limit(nodes)),
    }
}

fn answer_of<R, E>(
    rt: &R,
    graph: &Graph,
    generation: u64,
    wanted: Wanted,
    err: &mut E,
) -> Result<Chosen, AllocError>
where
    R: AllocGlobal + Threads + Wait + Sync,
    E: Write,
    ensures { IfOk result (IsAnswer graph.now generation wanted) }
{
    let limits = limits_of(wanted, graph.nodes());
    let workers = workers_here(rt, graph.nodes());
    let choice = choice_of(rt, graph, wanted, limits, workers, err)?;
    progress(err, wanted, "building the tables");
    let asked = Asked {
        nodes: &choice.nodes,
        limits,
        seed: wanted.seed,
    };
    let report = report_of(rt, rt.alloc(), graph, generation, &asked, workers)?;
    let mut text = line_of(rt.alloc(), &choice.nodes)?;
    let mut told = String::new(rt.alloc());
    put_figures(
        &mut text,
        &mut told,
        report.figures.as_str(),
        wanted.with_figures,
    )?;
    push_excess(&mut told, &report, limits)?;
    Ok(Chosen {
        text,
        told,
        is_kept: report.is_kept,
    })
}

// Puts figures behind the printed text where they are to stand there, and else behind what is told.
fn put_figures(
    text: &mut String,
    told: &mut String,
    figures: &str,
    with_figures: bool,
) -> Result<(), AllocError>
    ensures text { OnOk result (string_bytes text.new ≡ string_bytes text.old ++ where_asked with_figures figures.now) }
    ensures told { OnOk result (string_bytes told.new ≡ string_bytes told.old ++ where_asked (not with_figures) figures.now) }
{
    if with_figures {
        text.push_str(figures)
    } else {
        told.push_str(figures)
    }
}

fn choice_of<R, E>(
    rt: &R,
    graph: &Graph,
    wanted: Wanted,
    limits: Limits,
    workers: u16,
    err: &mut E,
) -> Result<Choice, AllocError>
where
    R: AllocGlobal + Threads + Sync,
    E: Write,
    ensures { IfOk result (λ choice. IsChoice graph.now.nodes limits.most choice.nodes.items) }
{
    let alloc = rt.alloc();
    progress(err, wanted, "finding the nodes nearest to each");
    let balls = Balls::of(rt, alloc, graph, limits.most_entries, workers)?;
    progress(err, wanted, "choosing landmarks");
    let words = Draws::seeded(wanted.seed).next(alloc, graph.nodes())?;
    match wanted.start {
        Some(start) => choose_from(alloc, &balls, &words, start, limits),
        None => choose_best(rt, alloc, &balls, &words, limits),
    }
}

// Tells a terminal what is being done; nothing clears the line.
fn progress<E: Write>(err: &mut E, wanted: Wanted, what: &str) {
    if wanted.with_progress {
        let _told = write!(err, "\r\x1b[K{what}");
        let _flushed = err.flush();
    }
}

// Says by how much the largest table is over the limit, where the limits aren't kept.
fn push_excess(told: &mut String, report: &Report, limits: Limits) -> Result<(), AllocError>
    ensures { OnOk result (string_bytes told.new ≡ string_bytes told.old ++ excess_text limits report.now) }
{
    if !report.is_kept {
        let (greatest, most) = (report.greatest, limits.most_entries as u64);
        let excess = greatest.saturating_sub(most);
        writeln!(
            told,
            "tzlab: the largest table has {greatest} entries and members, {excess} more than {most}"
        )?;
    }
    Ok(())
}
