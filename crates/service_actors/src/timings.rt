// How long commits and builds took.

/// Of how many commits the times are kept: the last ones.
const KEPT: usize = 1_000;

/// How long the last commits and the last build took, in microseconds. It takes no memory.
#[derive(Clone, Copy, Drop)]
pub struct Timings {
    /// How many commits there were.
    pub commits: u64,
    // The time of the k-th commit stands at k modulo their number.
    micros: [u64; KEPT],
    /// The last build's.
    pub build: u64,
}

/// The least, the median and the greatest of some times, each 0 where there is none.
#[derive(Clone, Copy, Drop)]
pub struct TimeSpan {
    pub least: u64,
    pub median: u64,
    pub greatest: u64,
}

impl Timings {
    /// Before any commit.
    pub fn new() -> Timings {
        Timings {
            commits: 0,
            micros: [0; KEPT],
            build: 0,
        }
    }

    /// A commit more, which took so long.
    pub fn add(&mut self, micros: u64) {
        let place = (self.commits % KEPT as u64) as usize;
        self.micros[place] = micros;
        self.commits = self.commits.saturating_add(1);
    }

    /// The times of the last commits. The median is the least one that at least half of them don't pass.
    pub fn span(&self) -> TimeSpan {
        let mut sorted = self.micros;
        let kept = self.commits.min(KEPT as u64) as usize;
        let times = &mut sorted[..kept];
        times.sort_unstable();
        let (Some(least), Some(greatest)) = (times.first(), times.last()) else {
            return TimeSpan {
                least: 0,
                median: 0,
                greatest: 0,
            };
        };
        TimeSpan {
            least: *least,
            median: times[(kept - 1) / 2],
            greatest: *greatest,
        }
    }
}
