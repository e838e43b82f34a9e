// What is answered to a line, and the line that is printed of it.
ghost use Rattle.std.specs.Prelude.{◌≡◌, ◌++◌, IfOk, OnOk, decimal};
ghost use Rattle.std.specs.String.{string_bytes};
ghost use Rattle.command_output.specs.RouteLines.{route_text, stops_text, tables_text};
ghost use Rattle.live_lines.specs.Answers.{answer_text, not_carried_text, of_edit, script_text, verdict_text, way_text};
ghost use Rattle.live_lines.specs.Metrics.{kind_of, metrics_text, verdict_kind};

use crate::metrics::{Kind, Metrics};
use command_output::{
    AbsentLine, AcceptedLine, Fault, RefusedLine, RouteLine, TablesLine, TicketLine,
    UnreachableLine,
};
use forwarders::Refused;
use generations::{Mark, Verdict};
use graph_edits::Code;
use itoa::Buffer;
use new_devices::BackupRefused;
use packet_bytes::{WireRefused, moved_text, packet_text, told_text, unread_name};
use packet_ways::Carried;
use schemes::{Address, Move, Packet};
use std::alloc::{AllocError, Global};

/// What is answered to a line.
#[derive(Drop)]
pub enum Answer {
    /// What became of an edit: the mark of its session and its ticket.
    Settled(Mark),
    /// This ticket of the session is in, or a later one.
    AlreadyIn {
        session: u8,
        ticket: u64,
    },
    /// This ticket, the session's last one, was refused before: by the op at this place. Nothing was done now.
    RefusedBefore {
        session: u8,
        ticket: u64,
        op: usize,
        code: Code,
    },
    /// This ticket isn't in, and the session has submitted a later one. Nothing was done now.
    OldTicket {
        session: u8,
        ticket: u64,
    },
    /// The last ticket of a session.
    Resumed {
        session: u8,
        ticket: u64,
    },
    /// Which way a packet goes.
    Way(Carried),
    /// The node isn't one of the device's, and has no address.
    NoNode,
    /// Where a node is to be found.
    Told(Address),
    /// The packet that a node sends.
    Sent(Packet),
    /// What becomes of a packet.
    Moved(Move),
    /// Why no packet is sent, it is carried no further, or not all tables are put.
    NotCarried(Refused),
    /// What was to be launched or to hop has no spelling.
    Unread(WireRefused),
    /// How many changes count, the newest generation, and how many edits wait.
    State {
        count: u64,
        generation: u64,
        queue: u64,
    },
    /// The newest generation, in which all changes are that were answered before.
    Waited {
        generation: u64,
    },
    /// So many tables of a generation were put. They have so many bytes in all, and the greatest has so many.
    Tables {
        generation: u64,
        tables: usize,
        bytes: u128,
        greatest: usize,
    },
    /// The file of a table can't be written.
    TablesFailed,
    /// A new device holds the first so many accepted changes and their tickets.
    BackedUp {
        count: u64,
    },
    /// Why there is no such device.
    NoBackup(BackupRefused),
    /// What the service tells a monitor of itself.
    Metrics(Box<Metrics>),
    /// The session that the line names has no editor.
    NoSession,
    /// A word in the place of an op isn't one.
    NotOps,
    /// The line asks for nothing that is known.
    NotUnderstood,
}

/// Of which kind a verdict is.
fn kind_of_verdict(verdict: Verdict) -> Kind
    ensures { result ≡ verdict_kind verdict }
{
    match verdict {
        Verdict::Accepted { .. } => Kind::Accepted,
        Verdict::Refused { .. } => Kind::Refused,
    }
}

/// What a verdict says.
fn verdict_line(alloc: Global, verdict: Verdict) -> Result<String, AllocError>
    ensures { IfOk result (λ text. string_bytes text ≡ verdict_text verdict) }
{
    match verdict {
        Verdict::Accepted { count } => {
            let line = AcceptedLine { count };
            format!(in alloc; "{line}")
        }
        Verdict::Refused { op, code } => {
            let line = RefusedLine { op, code };
            format!(in alloc; "{line}")
        }
    }
}

/// What became of an edit.
fn settled_text(alloc: Global, mark: &Mark) -> Result<String, AllocError>
    ensures { IfOk result (λ text. string_bytes text
        ≡ of_edit mark.now.session mark.now.ticket (verdict_text mark.now.verdict)) }
{
    let Mark {
        session,
        ticket,
        verdict,
    } = *mark;
    let line = verdict_line(alloc, verdict)?;
    format!(in alloc; "{session} {ticket} {line}")
}

/// A route.
fn along_text(
    alloc: Global,
    generation: u64,
    nodes: &[u16],
    length: u64,
) -> Result<String, AllocError>
    ensures { IfOk result (λ text. string_bytes text ≡ route_text generation nodes.now length) }
{
    let line = RouteLine {
        generation,
        nodes,
        length,
    };
    format!(in alloc; "{line}")
}

/// Adds a number to a text.
fn push_number(text: &mut String, number: u64) -> Result<(), AllocError>
    ensures { OnOk result (string_bytes text.new ≡ string_bytes text.old ++ decimal number) }
{
    text.push_str(Buffer::new().format(number))
}

/// Adds the nodes of a route to a text, each behind a space.
fn push_stops(text: &mut String, nodes: &[u16]) -> Result<(), AllocError>
    ensures { OnOk result (string_bytes text.new ≡ string_bytes text.old ++ stops_text nodes.now) }
{
    for node in nodes {
        text.push(' ')?;
        push_number(text, *node as u64)?;
    }
    Ok(())
}

/// Adds a route to a text, as a `RouteLine` writes it.
fn push_route(
    text: &mut String,
    generation: u64,
    nodes: &[u16],
    length: u64,
) -> Result<(), AllocError>
    ensures { OnOk result (string_bytes text.new ≡ string_bytes text.old ++ route_text generation nodes.now length) }
{
    text.push_str("generation=")?;
    push_number(text, generation)?;
    text.push_str(" route")?;
    push_stops(text, nodes)?;
    text.push_str(" length ")?;
    push_number(text, length)
}

/// Adds to a text which way a packet goes.
fn push_way(alloc: Global, text: &mut String, way: &Carried) -> Result<(), AllocError>
    ensures { OnOk result (string_bytes text.new ≡ string_bytes text.old ++ way_text way.now) }
{
    match way {
        Carried::Along {
            generation,
            nodes,
            length,
        } => push_route(text, *generation, nodes, *length),
        Carried::Unreachable { .. } | Carried::NoNode => {
            let line = way_line(alloc, way)?;
            text.push_str(&line)
        }
    }
}

/// Which way a packet goes.
fn way_line(alloc: Global, way: &Carried) -> Result<String, AllocError>
    ensures { IfOk result (λ text. string_bytes text ≡ way_text way.now) }
{
    match way {
        Carried::Along {
            generation,
            nodes,
            length,
        } => along_text(alloc, *generation, nodes, *length),
        Carried::Unreachable { generation } => {
            let line = UnreachableLine {
                generation: *generation,
            };
            format!(in alloc; "{line}")
        }
        Carried::NoNode => format!(in alloc; "{AbsentLine}"),
    }
}

/// Why a packet isn't carried.
fn not_carried(refused: Refused) -> &'static str
    ensures { result.now ≡ not_carried_text refused }
{
    match refused {
        Refused::BoardShut => "board shut",
        Refused::GenerationGone => "generation gone",
        Refused::NoNode => "no node",
        Refused::Unreachable => "unreachable",
        Refused::Stray => "stray",
        Refused::Spent => "spent",
    }
}

/// Tables that were put.
fn tables_line(
    alloc: Global,
    generation: u64,
    tables: usize,
    bytes: u128,
    greatest: usize,
) -> Result<String, AllocError>
    ensures { IfOk result (λ text. string_bytes text ≡ tables_text generation tables bytes greatest) }
{
    let line = TablesLine {
        generation,
        tables,
        bytes,
        greatest,
    };
    format!(in alloc; "{line}")
}

/// What a monitor is told.
fn metrics_line(alloc: Global, metrics: &Metrics) -> Result<String, AllocError>
    ensures { IfOk result (λ text. string_bytes text ≡ metrics_text metrics.now) }
{
    format!(in alloc; "{metrics}")
}

impl Answer {
    /// Of which kind it is.
    pub fn kind(&self) -> Kind
        ensures { result ≡ kind_of self.now }
    {
        match self {
            Answer::Settled(mark) => kind_of_verdict(mark.verdict),
            Answer::AlreadyIn { .. } => Kind::AlreadyIn,
            Answer::RefusedBefore { .. } => Kind::RefusedBefore,
            Answer::OldTicket { .. } => Kind::OldTicket,
            Answer::Resumed { .. } => Kind::Resume,
            Answer::Way(_) => Kind::Route,
            Answer::NoNode | Answer::Told(_) => Kind::Address,
            Answer::Sent(_) => Kind::Launch,
            Answer::Moved(_) => Kind::Hop,
            Answer::NotCarried(Refused::GenerationGone) => Kind::Gone,
            Answer::NotCarried(_) => Kind::NotCarried,
            Answer::Unread(_) => Kind::Unread,
            Answer::State { .. } => Kind::State,
            Answer::Waited { .. } => Kind::Wait,
            Answer::Tables { .. } | Answer::TablesFailed => Kind::Tables,
            Answer::BackedUp { .. } | Answer::NoBackup(_) => Kind::Backup,
            Answer::Metrics(_) => Kind::Metrics,
            Answer::NoSession | Answer::NotOps | Answer::NotUnderstood => Kind::NotUnderstood,
        }
    }

    /// The line of the answer. An `Err` means that memory was refused.
    pub fn text(&self, alloc: Global) -> Result<String, AllocError>
        ensures { IfOk result (λ text. string_bytes text ≡ answer_text self.now) }
    {
        match self {
            Answer::Settled(mark) => settled_text(alloc, mark),
            Answer::AlreadyIn { session, ticket } => {
                format!(in alloc; "{session} {ticket} already in")
            }
            Answer::RefusedBefore {
                session,
                ticket,
                op,
                code,
            } => {
                let mark = Mark {
                    session: *session,
                    ticket: *ticket,
                    verdict: Verdict::Refused {
                        op: *op,
                        code: *code,
                    },
                };
                settled_text(alloc, &mark)
            }
            Answer::OldTicket { session, ticket } => {
                format!(in alloc; "{session} {ticket} old ticket")
            }
            Answer::Resumed { session, ticket } => {
                let line = TicketLine {
                    session: *session,
                    ticket: *ticket,
                };
                format!(in alloc; "{line}")
            }
            Answer::Way(way) => way_line(alloc, way),
            Answer::NoNode => format!(in alloc; "{AbsentLine}"),
            Answer::Told(address) => told_text(alloc, address),
            Answer::Sent(packet) => packet_text(alloc, packet),
            Answer::Moved(moved) => moved_text(alloc, moved),
            Answer::NotCarried(refused) => String::from_str(alloc, not_carried(*refused)),
            Answer::Unread(refused) => String::from_str(alloc, unread_name(*refused)),
            Answer::State {
                count,
                generation,
                queue,
            } => format!(in alloc; "count={count} generation={generation} queue={queue}"),
            Answer::Waited { generation } => format!(in alloc; "generation={generation}"),
            Answer::Tables {
                generation,
                tables,
                bytes,
                greatest,
            } => tables_line(alloc, *generation, *tables, *bytes, *greatest),
            Answer::TablesFailed => String::from_str(alloc, Fault::TableFile.text()),
            Answer::BackedUp { count } => format!(in alloc; "count={count}"),
            Answer::NoBackup(refused) => String::from_str(alloc, refused.text()),
            Answer::Metrics(metrics) => metrics_line(alloc, metrics),
            Answer::NoSession => String::from_str(alloc, "no session"),
            Answer::NotOps => String::from_str(alloc, Fault::Op.text()),
            Answer::NotUnderstood => String::from_str(alloc, "not understood"),
        }
    }
    /// The line of an answer to a script: it tells no session and no ticket. An `Err` means that memory was refused.
    pub fn script_text(&self, alloc: Global) -> Result<String, AllocError>
        ensures { IfOk result (λ text. string_bytes text ≡ script_text self.now) }
    {
        match self {
            Answer::Settled(mark) => verdict_line(alloc, mark.verdict),
            _ => self.text(alloc),
        }
    }

    /// Adds the line of an answer to a script to a text: a route in place, since most answers are routes. An `Err` means that memory was
    /// refused.
    pub fn push_script_text(&self, alloc: Global, text: &mut String) -> Result<(), AllocError>
        ensures { OnOk result (string_bytes text.new ≡ string_bytes text.old ++ script_text self.now) }
    {
        match self {
            Answer::Way(way) => push_way(alloc, text, way),
            _ => {
                let line = self.script_text(alloc)?;
                text.push_str(&line)
            }
        }
    }
}
