//! What the list of an area is made of.
ghost use Rattle.std.specs.Prelude.{◌≡◌, ◌≤◌, ◌++◌, length, OnOk};
ghost use Rattle.byte_forms.specs.Reading.{Finds};
ghost use Rattle.journal.specs.Forms.{EntryForm, IsForm, bytes_form};

use crate::layout::MOST_ENTRY;
use byte_forms::Form;
use std::alloc::AllocError;
use std::marker::PhantomData;

/// One element of the list that an area spells. It has one text, which shows where it ends.
///
/// Whoever writes an impl gives the form (text, what an entry may be, reading, least and greatest size) and proves
/// that what is read has this text, and that what has this text is read.
pub trait Entry: Drop + Sized {
    /// The form of its texts.
    ghost form: { EntryForm Self };

    /// How long its text is.
    fn text_len(&self) -> usize
        ensures len { result ≡ length (form.text self.now) }
        ensures most { result ≤ MOST_ENTRY };

    /// Puts its text at the end.
    fn put(&self, out: &mut Vec<u8>) -> Result<(), AllocError>
        ensures text { OnOk result (out.new.items ≡ out.old.items ++ form.text self.now) }
        ensures is_entry { OnOk result (form.IsEntry self.now) };

    /// The entry at the front, and the bytes after it. It takes no memory.
    fn read(bytes: &[u8]) -> Option<(Self, &[u8])>
        ensures { Finds (λ x. (x.0, x.1.now)) result (form.at bytes.now) };

    /// Reading gives back exactly the text, and only that.
    ghost is_form: { IsForm form };
}

/// Entries as bytes.
pub(crate) struct Entries<E> {
    of: PhantomData<E>,
}

impl<E: Entry> Form for Entries<E> {
    type Value = E;

    ghost form = { bytes_form E.form };

    fn put(value: &E, out: &mut Vec<u8>) -> Result<(), AllocError> {
        value.put(out)
    }

    fn take(bytes: &[u8]) -> Option<(E, &[u8])> {
        E::read(bytes)
    }

    ghost is_form = { E.is_form.reader };
}
