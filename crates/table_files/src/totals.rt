//! How much was put.
ghost use Rattle.std.specs.Prelude.{◌≡◌, ◌≤◌, ◌<◌, ◌+◌, ◌*◌, ◌^◌, max};

/// How many tables were put, how many bytes they have in all, and how many the greatest has.
#[derive(Clone, Copy, Debug, PartialEq, Eq, Drop)]
pub struct Totals {
    pub tables: usize,
    pub bytes: u128,
    pub greatest: usize,
}

impl Totals {
    /// Nothing was put.
    pub fn none() -> Totals
        ensures tables { result.tables ≡ 0 }
        ensures bytes { result.bytes ≡ 0 }
        ensures greatest { result.greatest ≡ 0 }
    {
        Totals {
            tables: 0,
            bytes: 0,
            greatest: 0,
        }
    }

    /// One table more, of so many bytes.
    pub fn with(self, len: usize) -> Totals
        requires few { self.tables + 1 < 2 ^ 64 }
        requires room { self.bytes ≤ self.tables * 2 ^ 64 }
        ensures tables { result.tables ≡ self.tables + 1 }
        ensures bytes { result.bytes ≡ self.bytes + len }
        ensures greatest { result.greatest ≡ max self.greatest len }
    {
        Totals {
            tables: self.tables + 1,
            bytes: self.bytes + len as u128,
            greatest: self.greatest.max(len),
        }
    }
}
