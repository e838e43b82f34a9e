// Reading one line.
ghost use Rattle.std.specs.Prelude.{◌≡◌, ◌<◌, ◌≤◌, ◌^◌, ◌∷◌, ◌++◌, [], ℕ, List, IfOk, IsOkAnd, codes, decimal};
ghost use Rattle.disk_trait.specs.declared.plan.Plan.{Plan};
ghost use Rattle.value_syntax.specs.Reading.{texts_of};
ghost use Rattle.value_syntax.specs.WordsText.{words_text};
ghost use Rattle.rehearsal_syntax.specs.Grammar.{AreOfDevice, FitsPlan, IsLife, MayStand, MayStandAnywhere, end_words, life_fields, line_words, pair_words, plan_words};
ghost use Rattle.rehearsal_syntax.specs.Reading.{Finds, IsRead, ReadsEach};

use crate::line::{LifeLine, RehearsalLine};
use crate::refused::Form;
use crate::stage::Stage;
use disk_trait::Plan;
use std::alloc::{AllocError, Global};
use value_syntax::{LandmarkWords, change_in, landmark_words, number};

/// Why a line isn't read.
#[derive(Drop)]
pub(crate) enum NotRead {
    /// No line may stand there that is written so. It should have been this.
    Form(Form),
    /// Memory ran out.
    Memory,
}

impl From<AllocError> for NotRead {
    ghost use Rattle.rehearsal_syntax.specs.declared.line_reading.NotRead.TheVariants.{Memory};

    ghost from_gives = { λ _ e. e ≡ Memory };

    fn from(_: AllocError) -> Self {
        NotRead::Memory
    }
}

/// The line of these words, where one may stand behind what the lines so far have.
pub(crate) fn line_in(alloc: Global, stage: Stage, words: &[&str]) -> Result<RehearsalLine, NotRead>
    ensures found { Finds (MayStand stage) line_words (texts_of words.now) result }
    ensures only { ReadsEach (MayStand stage) line_words (texts_of words.now) result }
{
    let Some((first, rest)) = words.split_first() else {
        return Err(NotRead::Form(Form::Line));
    };
    match stage {
        Stage::Empty if *first == "device" => device_in(alloc, rest),
        Stage::Empty => Err(NotRead::Form(Form::Device)),
        Stage::Made(nodes) if *first == "life" => life_in(alloc, rest, nodes),
        Stage::Made(_) => Err(NotRead::Form(Form::Life)),
        Stage::Living(nodes) => living_in(alloc, *first, rest, nodes),
    }
}

fn device_in(alloc: Global, rest: &[&str]) -> Result<RehearsalLine, NotRead>
    ensures found { Finds (MayStand Stage.Empty) line_words (codes "device" ∷ texts_of rest.now) result }
    ensures only { (n : ℕ) → 1 ≤ n → n ≤ 16384 → texts_of rest.now ≡ decimal n ∷ [] → IsRead result }
{
    let [nodes] = rest else {
        return Err(NotRead::Form(Form::Device));
    };
    let nodes = number_in(alloc, Form::Device, nodes, 1, 16_384)?;
    Ok(RehearsalLine::Device(nodes as u16))
}

// The same behind a life.
fn living_in(alloc: Global, name: &str, rest: &[&str], nodes: u16) -> Result<RehearsalLine, NotRead>
    ensures found { Finds (MayStand (Stage.Living nodes)) line_words (name.now ∷ texts_of rest.now) result }
    ensures only { ReadsEach (MayStand (Stage.Living nodes)) line_words (name.now ∷ texts_of rest.now) result }
{
    match name {
        "life" => life_in(alloc, rest, nodes),
        "submit" => {
            let [session, ticket, ops @ ..] = rest else {
                return Err(NotRead::Form(Form::Submit));
            };
            let session = number_in(alloc, Form::Submit, session, 0, 255)?;
            let ticket = number_in(alloc, Form::Submit, ticket, 0, u64::MAX)?;
            match change_in(alloc, ops)? {
                Some(change) => Ok(RehearsalLine::Submit(session as u8, ticket, change)),
                None => Err(NotRead::Form(Form::Submit)),
            }
        }
        "look" => {
            let [session, at] = rest else {
                return Err(NotRead::Form(Form::Look));
            };
            let session = number_in(alloc, Form::Look, session, 0, 255)?;
            let at = number_in(alloc, Form::Look, at, 0, u64::MAX)?;
            Ok(RehearsalLine::Look(session as u8, at as usize))
        }
        "take" if rest.is_empty() => Ok(RehearsalLine::Take),
        "commit" if rest.is_empty() => Ok(RehearsalLine::Commit),
        "post" if rest.is_empty() => Ok(RehearsalLine::Post),
        "take" | "commit" | "post" => Err(NotRead::Form(Form::Step)),
        "rebuild" => {
            let [words] = rest else {
                return Err(NotRead::Form(Form::Rebuild));
            };
            let words = words_in(alloc, Form::Rebuild, words, nodes)?;
            Ok(RehearsalLine::Rebuild(words))
        }
        "launch" => launch_in(alloc, rest),
        "hop" => {
            let [packet, at] = rest else {
                return Err(NotRead::Form(Form::Hop));
            };
            let packet = number_in(alloc, Form::Hop, packet, 0, u64::MAX)?;
            let at = number_in(alloc, Form::Hop, at, 0, u64::MAX)?;
            Ok(RehearsalLine::Hop(packet as usize, at as usize))
        }
        _ => Err(NotRead::Form(Form::Line)),
    }
}

fn launch_in(alloc: Global, rest: &[&str]) -> Result<RehearsalLine, NotRead>
    ensures found { Finds MayStandAnywhere line_words (codes "launch" ∷ texts_of rest.now) result }
    ensures only { (from to at : ℕ) → from < 2 ^ 16 → to < 2 ^ 16 → at < 2 ^ 64
        → texts_of rest.now ≡ decimal from ∷ pair_words to at → IsRead result }
{
    let [from, to, at] = rest else {
        return Err(NotRead::Form(Form::Launch));
    };
    let from = number_in(alloc, Form::Launch, from, 0, 65_535)?;
    let to = number_in(alloc, Form::Launch, to, 0, 65_535)?;
    let at = number_in(alloc, Form::Launch, at, 0, u64::MAX)?;
    Ok(RehearsalLine::Launch(from as u16, to as u16, at as usize))
}

// A number in decimal, from `least` to `most`.
fn number_in(alloc: Global, form: Form, text: &str, least: u64, most: u64) -> Result<u64, NotRead>
    ensures found { IfOk result (λ n. (text.now ≡ decimal n) × (least ≤ n) × (n ≤ most)) }
    ensures only { (n : ℕ) → least ≤ n → n ≤ most → text.now ≡ decimal n → IsRead result }
{
    match number(alloc, text, most)? {
        Some(n) if n >= least => Ok(n),
        _ => Err(NotRead::Form(form)),
    }
}

// Landmark words of a device of so many nodes.
fn words_in(alloc: Global, form: Form, text: &str, nodes: u16) -> Result<LandmarkWords, NotRead>
    ensures found { Finds (AreOfDevice nodes) words_text text.now result }
    ensures only { ReadsEach (AreOfDevice nodes) words_text text.now result }
{
    match landmark_words(alloc, text)? {
        Some(words) if words.is_within(nodes) => Ok(words),
        _ => Err(NotRead::Form(form)),
    }
}

// ---- a life

fn life_in(alloc: Global, fields: &[&str], nodes: u16) -> Result<RehearsalLine, NotRead>
    ensures found { Finds (MayStand (Stage.Made nodes)) line_words (codes "life" ∷ texts_of fields.now) result }
    ensures only { ReadsEach (IsLife nodes) life_fields (texts_of fields.now) result }
{
    let [sessions, places, words, end @ ..] = fields else {
        return Err(NotRead::Form(Form::Life));
    };
    let sessions = number_in(alloc, Form::Life, behind(sessions, "sessions=")?, 1, 64)? as u8;
    let places = number_in(alloc, Form::Life, behind(places, "places=")?, 1, 64)? as u8;
    let words = words_in(alloc, Form::Life, behind(words, "words=")?, nodes)?;
    let (plan, crash) = end_in(alloc, end)?;
    Ok(RehearsalLine::Life(LifeLine {
        sessions,
        places,
        words,
        plan,
        crash,
    }))
}

// Which call fails, and what the crash leaves.
fn end_in(alloc: Global, fields: &[&str]) -> Result<(Plan, u64), NotRead>
    ensures found { IfOk result (λ p. texts_of fields.now ≡ end_words p.0 p.1) }
    ensures fits { IfOk result (λ p. FitsPlan p.0 × (p.1 < 2 ^ 64)) }
    ensures only { (plan : Plan) (crash : ℕ) → FitsPlan plan → crash < 2 ^ 64
        → texts_of fields.now ≡ end_words plan crash → IsRead result }
{
    match fields {
        [crash] => Ok((Plan::None, crash_in(alloc, crash)?)),
        [plan, crash] => {
            let plan = plan_in(alloc, plan)?;
            Ok((plan, crash_in(alloc, crash)?))
        }
        _ => Err(NotRead::Form(Form::Life)),
    }
}

// The word of a crash.
fn crash_in(alloc: Global, field: &str) -> Result<u64, NotRead>
    ensures found { IfOk result (λ n. (field.now ≡ codes "crash=" ++ decimal n) × (n < 2 ^ 64)) }
    ensures only { (n : ℕ) → n < 2 ^ 64 → field.now ≡ codes "crash=" ++ decimal n → IsRead result }
{
    number_in(alloc, Form::Life, behind(field, "crash=")?, 0, u64::MAX)
}

// Which call fails, of one that does.
fn plan_in(alloc: Global, field: &str) -> Result<Plan, NotRead>
    ensures found { Finds FitsPlan plan_words (field.now ∷ []) result }
    ensures only { ReadsEach FitsPlan plan_words (field.now ∷ []) result }
{
    if let Ok(call) = behind(field, "fail=") {
        return Ok(Plan::Fail(number_in(alloc, Form::Life, call, 0, u64::MAX)?));
    }
    let (call, bytes) = halves(behind(field, "stop=")?)?;
    let call = number_in(alloc, Form::Life, call, 0, u64::MAX)?;
    let bytes = number_in(alloc, Form::Life, bytes, 0, u64::MAX)?;
    Ok(Plan::Stop(call, bytes as usize))
}

// What stands in a field behind its name.
fn behind<'a>(field: &'a str, name: &str) -> Result<&'a str, NotRead>
    ensures found { IfOk result (λ value. field.entry.now ≡ name.now ++ value.now) }
    ensures only { (value : List ℕ) → field.entry.now ≡ name.now ++ value → IsOkAnd result (λ read. read.now ≡ value) }
{
    match field.strip_prefix(name) {
        Some(value) => Ok(value),
        None => Err(NotRead::Form(Form::Life)),
    }
}

// What stands in front of the first colon, and behind it.
fn halves<'a>(text: &'a str) -> Result<(&'a str, &'a str), NotRead>
    ensures found { IfOk result (λ p. text.entry.now ≡ p.0.now ++ 58 ∷ p.1.now) }
    ensures only { (n : ℕ) (rest : List ℕ) → n < 2 ^ 64 → text.entry.now ≡ decimal n ++ 58 ∷ rest
        → IsOkAnd result (λ p. (p.0.now ≡ decimal n) × (p.1.now ≡ rest)) }
{
    match text.split_once(':') {
        Some(parts) => Ok(parts),
        None => Err(NotRead::Form(Form::Life)),
    }
}
