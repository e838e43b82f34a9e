//! Accepted requests as entries, each with its session and ticket: the journal of layout 2.
ghost use Rattle.std.specs.Prelude.{◌≡◌, length};
ghost use Rattle.journal.specs.RequestForm.{request_form, request_is_form};

use crate::entry::Entry;
use crate::layout::{OP_SIZE, REQUEST_HEAD};
use crate::ops::{put_change, read_change};
use byte_forms::{put_u64, u8_at, u64_at};
use requests::Request;
use std::alloc::AllocError;

impl Entry for Request {
    ghost form = { request_form };

    fn text_len(&self) -> usize {
        REQUEST_HEAD + OP_SIZE * self.change.ops().len()
    }

    fn put(&self, out: &mut Vec<u8>) -> Result<(), AllocError> {
        let (session, ticket) = (self.session, self.ticket);
        out.push(session)?;
        put_u64(out, ticket)?;
        put_change(out, &self.change)
    }

    #[tactic(auto, unfolding(crate::specs::RequestForm::request_at))]
    fn read(bytes: &[u8]) -> Option<(Request, &[u8])> {
        let (session, rest) = u8_at(bytes)?;
        let (ticket, rest) = u64_at(rest)?;
        let (change, rest) = read_change(rest)?;
        let request = Request {
            session,
            ticket,
            change,
        };
        Some((request, rest))
    }

    ghost is_form = { request_is_form };
}
