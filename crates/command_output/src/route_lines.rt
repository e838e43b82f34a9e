//! The lines that `route`, `check` and `tables` print.
ghost use Rattle.std.specs.Prelude.{Some, option_map};
ghost use Rattle.command_output.specs.RouteLines.{absent_text, broken_text, checked_text, route_text, stops_text, tables_text, unreachable_text};

use std::fmt;

/// A route: `generation=G route 0 1 2 length L`.
#[derive(Drop)]
pub struct RouteLine<'a> {
    pub generation: u64,
    pub nodes: &'a [u16],
    pub length: u64,
}

impl<'a> fmt::Display for RouteLine<'a> {
    ghost output = { λ x. Some (route_text x.generation x.nodes.now x.length) };

    fn fmt<W: fmt::Write>(&self, f: &mut fmt::Formatter<W>) -> fmt::Result {
        let nodes = Stops { nodes: self.nodes };
        write!(
            f,
            "generation={} route{nodes} length {}",
            self.generation, self.length
        )
    }
}

// The nodes of a route, each behind a space.
#[derive(Drop)]
struct Stops<'a> {
    nodes: &'a [u16],
}

impl<'a> fmt::Display for Stops<'a> {
    ghost output = { λ x. Some (stops_text x.nodes.now) };

    fn fmt<W: fmt::Write>(&self, f: &mut fmt::Formatter<W>) -> fmt::Result {
        for node in self.nodes {
            write!(f, " {node}")?;
        }
        Ok(())
    }
}

/// No route: `generation=G unreachable`.
#[derive(Drop)]
pub struct UnreachableLine {
    pub generation: u64,
}

impl fmt::Display for UnreachableLine {
    ghost output = { λ x. Some (unreachable_text x.generation) };

    fn fmt<W: fmt::Write>(&self, f: &mut fmt::Formatter<W>) -> fmt::Result {
        write!(f, "generation={} unreachable", self.generation)
    }
}

/// A node that isn't there: `no node`.
#[derive(Drop)]
pub struct AbsentLine;

impl fmt::Display for AbsentLine {
    ghost output = { λ _. Some absent_text };

    fn fmt<W: fmt::Write>(&self, f: &mut fmt::Formatter<W>) -> fmt::Result {
        write!(f, "no node")
    }
}

/// A scheme of which all checks hold: `ok generation=G landmarks=K`.
#[derive(Drop)]
pub struct CheckedLine {
    pub generation: u64,
    pub landmarks: usize,
}

impl fmt::Display for CheckedLine {
    ghost output = { λ x. Some (checked_text x.generation x.landmarks) };

    fn fmt<W: fmt::Write>(&self, f: &mut fmt::Formatter<W>) -> fmt::Result {
        write!(
            f,
            "ok generation={} landmarks={}",
            self.generation, self.landmarks
        )
    }
}

/// Tables that were put: `generation=G tables=K bytes=B greatest=M`.
#[derive(Drop)]
pub struct TablesLine {
    pub generation: u64,
    pub tables: usize,
    /// How many bytes all have together.
    pub bytes: u128,
    /// How many the greatest has.
    pub greatest: usize,
}

impl fmt::Display for TablesLine {
    ghost output = { λ x. Some (tables_text x.generation x.tables x.bytes x.greatest) };

    fn fmt<W: fmt::Write>(&self, f: &mut fmt::Formatter<W>) -> fmt::Result {
        write!(
            f,
            "generation={} tables={} bytes={} greatest={}",
            self.generation, self.tables, self.bytes, self.greatest
        )
    }
}

/// The first check that doesn't hold, by whatever shows its name: `fault K4`.
#[derive(Drop)]
pub struct BrokenLine<F> {
    pub check: F,
}

impl<F: fmt::Display> fmt::Display for BrokenLine<F> {
    ghost output = { λ x. option_map broken_text (F.output x.check) };

    fn fmt<W: fmt::Write>(&self, f: &mut fmt::Formatter<W>) -> fmt::Result {
        write!(f, "fault {}", self.check)
    }
}
