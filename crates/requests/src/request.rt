// Requests.
ghost use Rattle.std.specs.Prelude.{◌≡◌};

use graph_edits::{Change, Op};

/// A change that a session asks for, under the session's own number for it.
#[derive(Debug, PartialEq, Eq, Drop)]
pub struct Request {
    /// Who asks. Sessions are numbered from 0.
    pub session: u8,
    /// The session's number for it. A session's tickets rise.
    pub ticket: u64,
    /// What is asked for, to be made whole or not at all.
    pub change: Change,
}

impl Request {
    /// An equal request. It takes no memory.
    pub fn copy(&self) -> Request
        ensures { result ≡ self.now }
    {
        Request {
            session: self.session,
            ticket: self.ticket,
            change: self.change.copy(),
        }
    }
}

// What fills the unused places of a list with a fixed room.
impl Default for Request {
    fn default() -> Self {
        match Change::new(&[Op::Cut(0, 0)]) {
            Ok(change) => Request {
                session: 0,
                ticket: 0,
                change,
            },
            Err(_) => unreachable!(),
        }
    }
}
