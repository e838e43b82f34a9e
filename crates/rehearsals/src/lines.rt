//! Replies and refused openings, as they are shown.
ghost use Rattle.std.specs.Prelude.{Some};
ghost use Rattle.rehearsals.specs.Reports.{not_opened_text, words_of};

use checkpoint::OpenRefused;
use command_output::{AcceptedLine, RefusedLine};
use event_model::Reply;
use forwarders::Refused as RouteRefused;
use group_commit::DeskRefused;
use intake::{Outcome, SubmitRefused};
use std::fmt;

/// A reply, in words of the service.
#[derive(Drop)]
pub struct ReplyLine {
    pub reply: Reply,
}

impl fmt::Display for ReplyLine {
    ghost output = { λ x. Some (words_of x.reply) };

    fn fmt<W: fmt::Write>(&self, f: &mut fmt::Formatter<W>) -> fmt::Result {
        match self.reply {
            Reply::Submitted { ticket } => write!(f, "submitted ticket={ticket}"),
            Reply::NotSubmitted(SubmitRefused::BoardShut) => write!(f, "refused board shut"),
            Reply::NotSubmitted(SubmitRefused::Busy) => write!(f, "refused busy"),
            Reply::NotSubmitted(SubmitRefused::AlreadyIn) => write!(f, "refused already in"),
            Reply::NotSubmitted(SubmitRefused::OldTicket) => write!(f, "refused old ticket"),
            Reply::NotSubmitted(SubmitRefused::Worn) => write!(f, "refused worn"),
            Reply::NotSubmitted(SubmitRefused::QueueFull) => write!(f, "refused queue full"),
            Reply::Looked(Outcome::Nothing) => write!(f, "looked nothing"),
            Reply::Looked(Outcome::Waiting) => write!(f, "looked pending"),
            Reply::Looked(Outcome::Accepted { count, .. }) => {
                write!(f, "looked {}", AcceptedLine { count })
            }
            Reply::Looked(Outcome::Refused { op, code, .. }) => {
                write!(f, "looked {}", RefusedLine { op, code })
            }
            Reply::Looked(Outcome::Down) => write!(f, "looked down"),
            Reply::Taken { session, ticket } => {
                write!(f, "taken session={session} ticket={ticket}")
            }
            Reply::Committed { accepted } => write!(f, "committed accepted={accepted}"),
            Reply::NotCommitted(DeskRefused::Device) => write!(f, "not committed device"),
            Reply::NotCommitted(DeskRefused::Down) => write!(f, "not committed down"),
            Reply::NotCommitted(DeskRefused::Memory) => write!(f, "not committed memory"),
            Reply::NotCommitted(DeskRefused::Worn) => write!(f, "not committed worn"),
            Reply::Rebuilt { generation } => write!(f, "rebuilt generation={generation}"),
            Reply::Launched { packet } => write!(f, "launched packet={packet}"),
            Reply::NotRouted(RouteRefused::BoardShut) => write!(f, "board shut"),
            Reply::NotRouted(RouteRefused::GenerationGone) => write!(f, "generation gone"),
            Reply::NotRouted(RouteRefused::NoNode) => write!(f, "no node"),
            Reply::NotRouted(RouteRefused::Unreachable) => write!(f, "unreachable"),
            Reply::NotRouted(RouteRefused::Stray) => write!(f, "stray packet"),
            Reply::NotRouted(RouteRefused::Spent) => write!(f, "no hop left"),
            Reply::Forwarded { port, next } => write!(f, "forwarded port={port} next={next}"),
            Reply::Posted => write!(f, "posted"),
            Reply::NotRebuilt => write!(f, "not rebuilt"),
            Reply::Delivered => write!(f, "delivered"),
            Reply::Idle => write!(f, "idle"),
            Reply::NoActor => write!(f, "no actor"),
            Reply::Memory => write!(f, "out of memory"),
        }
    }
}

/// A life that couldn't open, and why: `not opened device`.
#[derive(Drop)]
pub struct NotOpenedLine {
    pub refused: OpenRefused,
}

impl fmt::Display for NotOpenedLine {
    ghost output = { λ x. Some (not_opened_text x.refused) };

    fn fmt<W: fmt::Write>(&self, f: &mut fmt::Formatter<W>) -> fmt::Result {
        match self.refused {
            OpenRefused::NotFormatted => write!(f, "not opened not formatted"),
            OpenRefused::BadVersion => write!(f, "not opened layout not known"),
            OpenRefused::Damaged => write!(f, "not opened damaged"),
            OpenRefused::Device => write!(f, "not opened device"),
            OpenRefused::Memory => write!(f, "not opened memory"),
        }
    }
}
