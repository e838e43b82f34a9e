//! Accepted changes as entries: the journal of layout 1.
ghost use Rattle.std.specs.Prelude.{◌≡◌, length};
ghost use Rattle.journal.specs.ChangeForm.{change_form, change_is_form};

use crate::entry::Entry;
use crate::layout::{CHANGE_HEAD, OP_SIZE};
use crate::ops::{put_change, read_change};
use graph_edits::Change;
use std::alloc::AllocError;

impl Entry for Change {
    ghost form = { change_form };

    fn text_len(&self) -> usize {
        CHANGE_HEAD + OP_SIZE * self.ops().len()
    }

    fn put(&self, out: &mut Vec<u8>) -> Result<(), AllocError> {
        put_change(out, self)
    }

    fn read(bytes: &[u8]) -> Option<(Change, &[u8])> {
        read_change(bytes)
    }

    ghost is_form = { change_is_form };
}
