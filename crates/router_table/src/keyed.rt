// What stands in the lists of a table: each under a number of its own.
ghost use Rattle.std.specs.Prelude.{◌≡◌, ℕ};

use crate::tree_entry::TreeEntry;
use schemes::Listed;

/// What stands under a number.
pub(crate) trait Keyed: Sized + Drop {
    // The number under which it stands.
    ghost key: { Self → ℕ };

    /// The number under which it stands.
    fn key(&self) -> u16
        ensures { result ≡ key self.now };
}

impl Keyed for u16 {
    ghost key = { λ port. port };

    fn key(&self) -> u16 {
        *self
    }
}

impl Keyed for TreeEntry {
    ghost key = { λ e. e.root };

    fn key(&self) -> u16 {
        self.root
    }
}

impl Keyed for Listed {
    ghost key = { λ m. m.node };

    fn key(&self) -> u16 {
        self.node
    }
}
