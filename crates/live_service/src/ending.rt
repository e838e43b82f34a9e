// What the engine's threads leave that nothing stopped.
ghost use Rattle.std.specs.Prelude.{◌≡◌, IsTrue};
ghost use Rattle.live_service.specs.Noting.{AreSamePuts};

use generations::History;
use line_exchange::Tally;
use put_lines::PutLines;
use requests::SESSIONS;

/// What editors noted of the requests that were put: the editors of so many sessions came back, and how many each session has.
#[derive(Drop)]
pub struct Joined {
    pub count: usize,
    pub puts: [u64; SESSIONS],
    pub lines: PutLines,
}

/// What was posted, and what editors noted of the requests: how many each session has, and which lines put them.
#[derive(Drop)]
pub struct Ending {
    pub board: History,
    pub puts: [u64; SESSIONS],
    pub lines: PutLines,
}

impl Ending {
    #[tactic(auto, using(crate::proofs::Noting::same_puts))]
    /// Whether each session was told as many verdicts as its editor noted lines.
    pub fn was_told(&self, tally: &Tally) -> bool
        requires { tally.now.lines.book ≡ self.now.lines.book }
        ensures { IsTrue result → AreSamePuts tally.now self.now }
    {
        let _all = self.lines.learn(&tally.lines);
        self.puts == tally.puts
    }
}
