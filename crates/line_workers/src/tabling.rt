// The thread that puts tables.
ghost use Rattle.std.specs.Prelude.{◌≡◌, ◌<◌, ◌∷◌, ◌++◌, [], ℕ, IfSome, MatchOption, None, Some, map};
ghost use Rattle.schemes.specs.declared.parts.Parts.{Parts};
ghost use Rattle.generations.specs.Beginnings.{Beginning, GoesOn, board_after};
ghost use Rattle.generations.specs.Boards.{scheme_of};
ghost use Rattle.generations.specs.Shelves.{plain};
ghost use Rattle.line_exchange.specs.OneList.{AnswersBy};
ghost use Rattle.line_workers.specs.Tables.{HasGeneration, HasNode, IsLookedBy, IsLookedOn, IsNewestOn, IsPutStep, IsTabled, IsTablesAnswer};

use crate::workplace::Workplace;
use command_output::Fault;
use forwarders::{Refused, latest_on};
use generations::{Board, BoardReader, History, Shelved};
use line_exchange::{Answered, Ask, Stream};
use live_lines::{Answer, Asked};
use packet_ways::BoardName;
use schemes::Scheme;
use service_actors::StopCause;
use std::alloc::Global;
use std::marker::PhantomData;
use std::sync::Wait;
use std::thread;
use table_files::{TableFile, TableFiles, Totals, file_for};

/// A reader of the board that `B` names, for the thread that puts tables.
#[derive(Drop)]
pub struct TablesReader<B: BoardName> {
    reader: BoardReader,
    of: PhantomData<B>,
    ghost named: { reader.all.opening ≡ B.opening },
}

impl<B: BoardName> TablesReader<B> {
    pub fn new(reader: BoardReader) -> TablesReader<B>
        requires { reader.all.opening ≡ B.opening }
        ensures { result.reader ≡ reader }
    {
        TablesReader {
            reader,
            of: PhantomData,
        }
    }

    // The postings that it saw or was told of.
    fn known(&self) -> History
        ensures { result.opening ≡ B.opening }
    {
        self.reader.known()
    }
}

// The newest generation, and how many nodes it has.
#[derive(Clone, Copy, Drop)]
struct Newest {
    generation: u64,
    nodes: u16,
}

// What comes of a look for the file of a node's table.
#[derive(Drop)]
enum Looked {
    File(TableFile),
    // The generation is on the shelf no more.
    Gone,
    // The board gave no look.
    Shut,
    // Nothing can come of it: all are to stop.
    Halted(StopCause),
}

// What comes of one node's table.
#[derive(Drop)]
enum Step {
    // Its file was put, of so many bytes.
    Put(usize),
    // It wasn't, and this is the answer.
    Ended(Answer),
    // It wasn't, and all stop.
    Stopped,
}

// The scheme of this number.
fn scheme_in(places: &[Option<Shelved>], number: u64) -> Option<&Scheme>
    ensures { MatchOption result (scheme_of number (map plain places.now) ≡ None)
        (λ s. scheme_of number (map plain places.now) ≡ Some s.now) }
{
    match places {
        [] => None,
        [Some(shelved), ..] if shelved.number == number => Some(&shelved.scheme),
        [_, rest @ ..] => scheme_in(rest, number),
    }
}

// The newest generation of a board. None where it has none.
fn newest_on(board: &Board) -> Option<Newest>
    ensures { IfSome result (IsNewestOn board.now.shelf) }
{
    let generation = latest_on(board)?;
    let scheme = scheme_in(board.shelf(), generation)?;
    Some(Newest {
        generation,
        nodes: scheme.parts().nodes,
    })
}

// The newest generation, by one look. None where the board gives none.
fn look_for_newest(reader: BoardReader) -> (BoardReader, Option<Newest>)
    ensures on { GoesOn reader.all result.0.all }
    ensures newest { IfSome result.1 (IsNewestOn (board_after result.0.all).shelf) }
{
    match reader.look() {
        Ok(look) => {
            let newest = newest_on(look.board());
            (look.leave(), newest)
        }
        Err((_, reader)) => (reader, None),
    }
}

// The newest generation, which holds all that was told. None where all stop.
fn newest_now<J: Stream, B: BoardName, R: Wait>(
    here: &Workplace<J, B, R>,
    reader: BoardReader,
) -> (BoardReader, Option<Newest>)
    requires { reader.all.opening ≡ B.opening }
    ensures on { GoesOn reader.all result.0.all }
    ensures newest { IfSome result.1 (IsNewestOn (board_after result.0.all).shelf) }
{
    let mut reader = reader;
    for _ in here.rt.forever() {
        let Some(shown) = here.coordinator.shown(here.rt) else {
            return (reader, None);
        };
        reader.learn(shown.told.told());
        let (back, newest) = look_for_newest(reader);
        match newest {
            Some(newest) => return (back, Some(newest)),
            None => thread::yield_now(),
        }
        reader = back;
    }
    unreachable!()
}

// The file of a node's table, by the scheme that a board has of a generation.
fn file_on(alloc: Global, board: &Board, generation: u64, folder: &str, node: u16) -> Looked
    requires { (p : Parts) → scheme_of generation board.now.shelf ≡ Some p → node < p.nodes }
    ensures { IsLookedOn (scheme_of generation board.now.shelf) folder.now node result }
{
    let Some(scheme) = scheme_in(board.shelf(), generation) else {
        return Looked::Gone;
    };
    match file_for(alloc, scheme, folder, node) {
        Ok(file) => Looked::File(file),
        Err(Fault::Memory) => Looked::Halted(StopCause::Memory),
        Err(Fault::Internal) => Looked::Halted(StopCause::Internal),
        Err(_) => unreachable!(),
    }
}

// The same by one look.
fn look_for_file(
    alloc: Global,
    reader: BoardReader,
    generation: u64,
    folder: &str,
    node: u16,
) -> (BoardReader, Looked)
    requires { HasNode reader.all generation node }
    ensures on { GoesOn reader.all result.0.all }
    ensures looked { IsLookedBy reader.all result.0.all generation folder.now node result.1 }
{
    match reader.look() {
        Ok(look) => {
            let looked = file_on(alloc, look.board(), generation, folder, node);
            (look.leave(), looked)
        }
        Err((_, reader)) => (reader, Looked::Shut),
    }
}

// The same, as soon as the board gives a look. `Shut` where all stop.
fn file_now<J: Stream, B: BoardName, R: Wait>(
    here: &Workplace<J, B, R>,
    reader: BoardReader,
    generation: u64,
    folder: &str,
    node: u16,
) -> (BoardReader, Looked)
    requires { HasNode reader.all generation node }
    ensures on { GoesOn reader.all result.0.all }
    ensures looked { IsLookedBy reader.all result.0.all generation folder.now node result.1 }
{
    let mut reader = reader;
    for _ in here.rt.forever() {
        if here.coordinator.stopped(here.rt) {
            return (reader, Looked::Shut);
        }
        let (back, looked) = look_for_file(here.alloc, reader, generation, folder, node);
        match looked {
            Looked::Shut => thread::yield_now(),
            looked => return (back, looked),
        }
        reader = back;
    }
    unreachable!()
}

// Puts the file of a node's table. The board isn't looked at meanwhile.
fn put_one<J: Stream, T: TableFiles, B: BoardName, R: Wait>(
    here: &Workplace<J, B, R>,
    tables: &mut T,
    reader: BoardReader,
    generation: u64,
    folder: &str,
    node: u16,
) -> (BoardReader, Step)
    requires { HasNode reader.all generation node }
    ensures on { GoesOn reader.all result.0.all }
    ensures step { IsPutStep reader.all result.0.all generation folder.now node
        (T.puts tables.old) (T.puts tables.new) result.1 }
{
    match file_now(here, reader, generation, folder, node) {
        (reader, Looked::File(file)) => {
            let len = file.bytes.len();
            match tables.put(file) {
                Ok(()) => (reader, Step::Put(len)),
                Err(Fault::Memory) => {
                    here.coordinator.stop(here.rt, StopCause::Memory);
                    (reader, Step::Stopped)
                }
                Err(_) => (reader, Step::Ended(Answer::TablesFailed)),
            }
        }
        (reader, Looked::Gone) => (
            reader,
            Step::Ended(Answer::NotCarried(Refused::GenerationGone)),
        ),
        (reader, Looked::Shut) => (reader, Step::Stopped),
        (reader, Looked::Halted(cause)) => {
            here.coordinator.stop(here.rt, cause);
            (reader, Step::Stopped)
        }
    }
}

// Puts the files of all nodes' tables, one after the other. Without an answer all stop.
fn put_each<J: Stream, T: TableFiles, B: BoardName, R: Wait>(
    here: &Workplace<J, B, R>,
    tables: &mut T,
    reader: BoardReader,
    newest: Newest,
    folder: &str,
) -> (BoardReader, Option<Answer>)
    requires { HasGeneration reader.all newest }
    ensures on { GoesOn reader.all result.0.all }
    ensures tabled { IsTabled result.0.all newest folder.now (T.puts tables.old) (T.puts tables.new) result.1 }
{
    let mut reader = reader;
    let mut totals = Totals::none();
    for node in 0..newest.nodes {
        let (back, step) = put_one(here, tables, reader, newest.generation, folder, node);
        match step {
            Step::Put(len) => totals = totals.with(len),
            Step::Ended(answer) => return (back, Some(answer)),
            Step::Stopped => return (back, None),
        }
        reader = back;
    }
    let answer = Answer::Tables {
        generation: newest.generation,
        tables: totals.tables,
        bytes: totals.bytes,
        greatest: totals.greatest,
    };
    (reader, Some(answer))
}

// The answer to who asks for tables, once they are put. Without one all stop.
fn tables_of<J: Stream, T: TableFiles, B: BoardName, R: Wait>(
    here: &Workplace<J, B, R>,
    tables: &mut T,
    reader: TablesReader<B>,
    folder: &str,
) -> (TablesReader<B>, Option<Answer>)
    ensures { IsTablesAnswer reader.reader.all result.0.reader.all folder.now
        (T.puts tables.old) (T.puts tables.new) result.1 }
{
    let TablesReader { reader, of } = reader;
    let (reader, newest) = newest_now(here, reader);
    let Some(newest) = newest else {
        return (TablesReader { reader, of }, None);
    };
    here.coordinator.see(here.rt, newest.generation);
    let (reader, answer) = put_each(here, tables, reader, newest, folder);
    (TablesReader { reader, of }, answer)
}

// The answer to a line that is of tables. Without one all stop.
fn answer_of<J: Stream, T: TableFiles, B: BoardName, R: Wait>(
    here: &Workplace<J, B, R>,
    tables: &mut T,
    reader: TablesReader<B>,
    asked: Asked,
) -> Option<(TablesReader<B>, Answer)>
    ensures { IfSome result (λ r. (known : Beginning) → AnswersBy known asked r.1) }
{
    match asked {
        Asked::Tables { folder } => {
            let (reader, answer) = tables_of(here, tables, reader, &folder);
            Some((reader, answer?))
        }
        _ => {
            here.coordinator.stop(here.rt, StopCause::Internal);
            None
        }
    }
}

// The reader once it has looked behind all answers to the lines before a place. None where all stop.
fn looked_again<J: Stream, B: BoardName, R: Wait>(
    here: &Workplace<J, B, R>,
    reader: TablesReader<B>,
    place: u64,
) -> Option<TablesReader<B>> {
    if !here.await_turn(place) {
        return None;
    }
    let TablesReader { reader, of } = reader;
    let (reader, _newest) = newest_now(here, reader);
    Some(TablesReader { reader, of })
}

// A line, answered. Without an answer all stop.
fn answered<J: Stream, T: TableFiles, B: BoardName, R: Wait>(
    here: &Workplace<J, B, R>,
    tables: &mut T,
    reader: TablesReader<B>,
    ask: Ask<J>,
) -> Option<(TablesReader<B>, Answered<J, B>)> {
    let Ask {
        place,
        asked,
        behind: _,
        of,
    } = ask;
    let (reader, answer) = answer_of(here, tables, reader, asked)?;
    let reader = match answer {
        Answer::NotCarried(Refused::GenerationGone) => looked_again(here, reader, place)?,
        _ => reader,
    };
    let answered = Answered {
        place,
        answer,
        known: reader.known(),
        noted: None,
        of,
        at: PhantomData,
    };
    Some((reader, answered))
}

/// Answers the lines that are of tables, one after the other, until no more comes or all stop.
pub fn table_lines<J: Stream, T: TableFiles + Drop, B: BoardName, R: Wait>(
    here: &Workplace<J, B, R>,
    tables: T,
    reader: TablesReader<B>,
) {
    let (mut tables, mut reader) = (tables, reader);
    for _ in here.rt.forever() {
        let Some(ask) = here.exchange.tables.take(here.rt) else {
            return;
        };
        let Some((back, answered)) = answered(here, &mut tables, reader, ask) else {
            return;
        };
        reader = back;
        let _put = here.exchange.answers.put(here.rt, answered);
    }
}
