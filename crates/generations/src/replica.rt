// One of the two copies that readers and the writer share: a board, and the beginning of the list that it is the fold of.

use crate::fold::Board;
use crate::history::History;
use crate::posting::Posting;
use left_right::Absorb;
use std::alloc::AllocError;

#[derive(Drop)]
pub struct Replica {
    pub board: Board,
    pub history: History,
}

/// A posting, with the list that ends with it.
#[derive(Drop)]
pub struct Update {
    pub posting: Posting,
    pub history: History,
}

impl Absorb<Update> for Replica {
    type State = Replica;

    ghost use Rattle.generations.specs.Boards.{after};
    ghost use Rattle.generations.specs.Notices.{notice_of};

    ghost state = { λ r. r };

    ghost applied = { λ r u. record { board = after r.board (notice_of u.posting); history = u.history } };

    fn absorb_first(&mut self, update: &Update, _other: &Replica) -> Result<(), AllocError> {
        self.board.fold(&update.posting)?;
        self.history = update.history.again();
        Ok(())
    }
}
