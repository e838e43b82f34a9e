//! The lines that `format`, `show`, `edit`, `resume` and `migrate` print.
ghost use Rattle.std.specs.Prelude.{◌≡◌, Some};
ghost use Rattle.command_output.specs.Lines.{accepted_text, code_number, edge_text, formatted_text, migrated_text, refused_text, ticket_text, totals_text};

use graph_edits::Code;
use std::fmt;

/// A device that was made: `formatted nodes=N`.
#[derive(Drop)]
pub struct Formatted {
    pub nodes: u16,
}

impl fmt::Display for Formatted {
    ghost output = { λ x. Some (formatted_text x.nodes) };

    fn fmt<W: fmt::Write>(&self, f: &mut fmt::Formatter<W>) -> fmt::Result {
        write!(f, "formatted nodes={}", self.nodes)
    }
}

/// What a device holds: `count=C edges=E`.
#[derive(Drop)]
pub struct Totals {
    pub count: u64,
    pub edges: usize,
}

impl fmt::Display for Totals {
    ghost output = { λ x. Some (totals_text x.count x.edges) };

    fn fmt<W: fmt::Write>(&self, f: &mut fmt::Formatter<W>) -> fmt::Result {
        write!(f, "count={} edges={}", self.count, self.edges)
    }
}

/// An edge: `a b w`.
#[derive(Drop)]
pub struct EdgeLine {
    pub a: u16,
    pub b: u16,
    pub weight: u32,
}

impl fmt::Display for EdgeLine {
    ghost output = { λ x. Some (edge_text x.a x.b x.weight) };

    fn fmt<W: fmt::Write>(&self, f: &mut fmt::Formatter<W>) -> fmt::Result {
        write!(f, "{} {} {}", self.a, self.b, self.weight)
    }
}

/// A change that counts: `accepted count=C`.
#[derive(Drop)]
pub struct AcceptedLine {
    pub count: u64,
}

impl fmt::Display for AcceptedLine {
    ghost output = { λ x. Some (accepted_text x.count) };

    fn fmt<W: fmt::Write>(&self, f: &mut fmt::Formatter<W>) -> fmt::Result {
        write!(f, "accepted count={}", self.count)
    }
}

/// A change of which an op is refused: `refused op=I code=K`.
#[derive(Drop)]
pub struct RefusedLine {
    /// The place of the first op that is refused, counted from 0.
    pub op: usize,
    pub code: Code,
}

impl fmt::Display for RefusedLine {
    ghost output = { λ x. Some (refused_text x.op x.code) };

    fn fmt<W: fmt::Write>(&self, f: &mut fmt::Formatter<W>) -> fmt::Result {
        write!(f, "refused op={} code={}", self.op, number_of(self.code))
    }
}

/// The last ticket of a session: `session=S ticket=T`.
#[derive(Drop)]
pub struct TicketLine {
    pub session: u8,
    pub ticket: u64,
}

impl fmt::Display for TicketLine {
    ghost output = { λ x. Some (ticket_text x.session x.ticket) };

    fn fmt<W: fmt::Write>(&self, f: &mut fmt::Formatter<W>) -> fmt::Result {
        write!(f, "session={} ticket={}", self.session, self.ticket)
    }
}

/// A device that was brought over: `migrated count=C edges=E`.
#[derive(Drop)]
pub struct MigratedLine {
    pub count: u64,
    pub edges: usize,
}

impl fmt::Display for MigratedLine {
    ghost output = { λ x. Some (migrated_text x.count x.edges) };

    fn fmt<W: fmt::Write>(&self, f: &mut fmt::Formatter<W>) -> fmt::Result {
        write!(f, "migrated count={} edges={}", self.count, self.edges)
    }
}

/// The number that a code is printed as.
fn number_of(code: Code) -> u8
    ensures { result ≡ code_number code }
{
    code as u8
}
