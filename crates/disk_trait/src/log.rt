//! A history that only proofs read. It takes no memory, and its methods do nothing at run time.
ghost use Rattle.std.specs.Prelude.{◌≡◌, List, [], ◌∷◌, ◌++◌};
ghost use Rattle.std.specs.Borrow.{ftrue};

use std::marker::{Model, PhantomData};

/// A list of entries that contracts read as `items`, and that has no bytes.
///
/// `log = log.with_entry(&x);` puts the value that contracts see of `x` at its end. What is logged is as
/// true as the calls that log it: a clause has to tie it to something, as `MemDisk`'s do.
#[derive(Drop)]
pub struct Log<A> {
    of: PhantomData<A>,
    pub ghost items: { List A },
}

impl<A> Model for Log<A> {
    ghost also_owns = { λ _. ftrue };
}

impl<A> Log<A> {
    /// No entry.
    pub fn new() -> Log<A>
        ensures { result.items ≡ [] }
    {
        Log { of: PhantomData }
    }

    /// The same entries, and one more at the end.
    pub fn with_entry(&self, entry: &A) -> Log<A>
        ensures { result.items ≡ self.now.items ++ entry.now ∷ [] }
    {
        Log { of: PhantomData }
    }
}
