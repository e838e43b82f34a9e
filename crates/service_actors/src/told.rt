// What was told of the one list of postings, across locks and threads.
ghost use Rattle.std.specs.Prelude.{◌≡◌};

use generations::Told;
use packet_ways::BoardName;
use std::marker::{Model, PhantomData};

/// What was told of the board that `J` names. Contracts see it as a beginning of that board's list.
#[derive(Drop)]
pub struct KnownPostings<J: BoardName> {
    told: Told,
    of: PhantomData<J>,
}

impl<J: BoardName> Model for KnownPostings<J> {
    ghost use Rattle.std.specs.Prelude.{◌≡◌};
    ghost use Rattle.generations.specs.Beginnings.{Beginning};

    ghost Value = { Beginning };

    ghost view = { λ t. t.told };

    ghost invariant = { λ t. t.told.opening ≡ J.opening };
}

impl<J: BoardName> KnownPostings<J> {
    pub fn new(told: Told) -> KnownPostings<J>
        requires { told.opening ≡ J.opening }
        ensures { result ≡ told }
    {
        KnownPostings {
            told,
            of: PhantomData,
        }
    }

    /// The same again.
    pub fn again(&self) -> KnownPostings<J>
        ensures { result ≡ self.now }
    {
        KnownPostings {
            told: self.told.again(),
            of: PhantomData,
        }
    }

    /// What readers learn.
    pub fn told(&self) -> &Told
        ensures same { result.now ≡ self.now }
        ensures of { result.now.opening ≡ J.opening }
    {
        &self.told
    }
}
