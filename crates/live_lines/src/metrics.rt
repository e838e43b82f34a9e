//! What a service tells a monitor of itself.
ghost use Rattle.std.specs.Prelude.{◌≡◌, Some, map};
ghost use Rattle.std.specs.List.{flat_map};
ghost use Rattle.live_lines.specs.Metrics.{metrics_text, named, pair_text, pairs_of, place_of, told};

use std::fmt;

/// Of which kind an answer is, in the order in which metrics tell how many there are.
#[derive(Clone, Copy, Drop)]
pub enum Kind {
    Accepted,
    Refused,
    AlreadyIn,
    RefusedBefore,
    OldTicket,
    Resume,
    Route,
    Address,
    Launch,
    Hop,
    NotCarried,
    Gone,
    State,
    Wait,
    Tables,
    Backup,
    Metrics,
    Unread,
    NotUnderstood,
}

/// How many kinds there are.
pub const KINDS: usize = 19;

/// The commits since the start, and the least, the median and the greatest time of the last ones, in microseconds.
#[derive(Clone, Copy, Drop)]
pub struct CommitFigures {
    pub count: u64,
    pub least: u64,
    pub median: u64,
    pub greatest: u64,
}

/// What a service tells a monitor of itself.
#[derive(Clone, Copy, Drop)]
pub struct Metrics {
    /// How many answers were printed before this one, and how many of each kind.
    pub answers: u64,
    pub counted: [u64; KINDS],
    /// How many changes count, the newest generation, and how many edits wait.
    pub count: u64,
    pub generation: u64,
    pub queue: u64,
    pub commits: CommitFigures,
    /// The microseconds of the last build of tables.
    pub build: u64,
    /// How many lines behind this one were read.
    pub waiting: u64,
}

impl Kind {
    /// Its place among the counts.
    pub fn place(self) -> usize
        ensures { result ≡ place_of self }
    {
        self as usize
    }
}

impl Metrics {
    // How many answers of a kind there are.
    fn told(&self, kind: Kind) -> u64
        ensures { result ≡ told self.now kind }
    {
        self.counted[kind.place()]
    }

    // What is told behind the number of answers, in its order: each number under its name.
    fn pairs(&self) -> [(&'static str, u64); 29]
        ensures { map named result ≡ pairs_of self.now }
    {
        let CommitFigures {
            count,
            least,
            median,
            greatest,
        } = self.commits;
        [
            ("accepted", self.told(Kind::Accepted)),
            ("refused", self.told(Kind::Refused)),
            ("already_in", self.told(Kind::AlreadyIn)),
            ("refused_before", self.told(Kind::RefusedBefore)),
            ("old_ticket", self.told(Kind::OldTicket)),
            ("resume", self.told(Kind::Resume)),
            ("route", self.told(Kind::Route)),
            ("address", self.told(Kind::Address)),
            ("launch", self.told(Kind::Launch)),
            ("hop", self.told(Kind::Hop)),
            ("not_carried", self.told(Kind::NotCarried)),
            ("gone", self.told(Kind::Gone)),
            ("state", self.told(Kind::State)),
            ("wait", self.told(Kind::Wait)),
            ("tables", self.told(Kind::Tables)),
            ("backup", self.told(Kind::Backup)),
            ("metrics", self.told(Kind::Metrics)),
            ("unread", self.told(Kind::Unread)),
            ("not_understood", self.told(Kind::NotUnderstood)),
            ("count", self.count),
            ("generation", self.generation),
            ("lacks", self.count.saturating_sub(self.generation)),
            ("queue", self.queue),
            ("commits", count),
            ("commit_least_us", least),
            ("commit_median_us", median),
            ("commit_greatest_us", greatest),
            ("build_us", self.build),
            ("waiting", self.waiting),
        ]
    }
}

impl fmt::Display for Metrics {
    ghost output = { λ metrics. Some (metrics_text metrics) };

    fn fmt<W: fmt::Write>(&self, f: &mut fmt::Formatter<W>) -> fmt::Result {
        let pairs = self.pairs();
        write!(
            f,
            "{{\"answers\": {}{}}}",
            self.answers,
            Pairs { pairs: &pairs }
        )
    }
}

// Numbers, each under its name and behind another one.
#[derive(Drop)]
struct Pairs<'a> {
    pairs: &'a [(&'static str, u64)],
}

impl<'a> fmt::Display for Pairs<'a> {
    ghost output = { λ x. Some (flat_map pair_text (map named x.pairs.now)) };

    fn fmt<W: fmt::Write>(&self, f: &mut fmt::Formatter<W>) -> fmt::Result {
        for (name, number) in self.pairs {
            write!(f, ", \"{name}\": {number}")?;
        }
        Ok(())
    }
}
