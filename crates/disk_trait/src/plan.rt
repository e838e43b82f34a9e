//! Which call of a disk in memory is to fail.
ghost use Rattle.std.specs.Prelude.{◌≡◌, ◌↔◌, ℕ, min, IsTrue, IsSome, IfSome, IfNone};

/// Which calls fail. The first call behind the setting of a plan is number 1.
#[derive(Clone, Copy, Debug, PartialEq, Eq, Drop)]
pub enum Plan {
    /// No call fails.
    None,
    /// This call fails, and puts nothing.
    Fail(u64),
    /// This call fails, and every later one. If it is a write, it puts at most so many bytes first.
    Stop(u64, usize),
}

impl Plan {
    ghost use Rattle.disk_trait.specs.Plans.{fails_now, next_plan, bytes_put};

    // One call more. Where it fails, the answer is how many bytes it puts at most.
    pub(crate) fn turn(&mut self) -> Option<usize>
        ensures plan { self.new ≡ next_plan self.old }
        ensures fails { IsSome result ↔ IsTrue (fails_now self.old) }
        ensures puts { IfSome result (λ most. (n : ℕ) → bytes_put self.old n ≡ min most n) }
        ensures whole { IfNone result ((n : ℕ) → bytes_put self.old n ≡ n) }
    {
        match *self {
            Plan::None => None,
            Plan::Fail(call) => {
                *self = Plan::Fail(call.saturating_sub(1));
                if call == 1 { Some(0) } else { None }
            }
            Plan::Stop(call, bytes) => {
                if call == 1 {
                    *self = Plan::Stop(1, 0);
                    return Some(bytes);
                }
                *self = Plan::Stop(call.saturating_sub(1), bytes);
                None
            }
        }
    }
}
