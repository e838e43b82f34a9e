// The numbers by which the lists of a scheme are searched, apart from what stands with them.
ghost use Rattle.std.specs.Prelude.{◌≡◌, IfOk, map};
ghost use Rattle.schemes.specs.Apart.{AreApart, AreEighths, AreEighthsOf};
ghost use Rattle.schemes.specs.Tables.{items_at};

use crate::parts::Parts;
use crate::search::Keyed;
use std::alloc::{AllocError, Global};

/// The root of every eighth of a node's entries, two bytes a number, so that a search by halving reads few lines of memory.
#[derive(Drop)]
pub(crate) struct KeyColumns {
    roots: Vec<Vec<u16>>,
}

impl KeyColumns {
    /// The numbers of these tables. An `Err` means that memory was refused.
    pub(crate) fn of(alloc: Global, parts: &Parts) -> Result<KeyColumns, AllocError>
        ensures { IfOk result (λ apart. AreApart parts.now apart) }
    {
        let roots = all_eighths(alloc, parts.entries.as_slice())?;
        Ok(KeyColumns { roots })
    }

    /// The roots of a node's entries.
    pub(crate) fn roots_at(&self, x: u16) -> &[u16]
        ensures { result.now ≡ items_at self.now.roots.items x }
    {
        numbers_at(self.roots.as_slice(), x)
    }
}

/// Every eighth of the numbers of a list, apart.
fn eighths_of<T: Keyed>(alloc: Global, items: &[T]) -> Result<Vec<u16>, AllocError>
    ensures { IfOk result (λ eighths. AreEighths (map T.key items.now) eighths.items) }
{
    let many = items.len() / 8;
    let mut eighths = Vec::with_capacity(alloc, many)?;
    for i in 0..many {
        eighths.push(items[8 * i + 7].key())?;
    }
    Ok(eighths)
}

/// Every eighth of the numbers of each list, apart.
fn all_eighths<T: Keyed>(alloc: Global, lists: &[Vec<T>]) -> Result<Vec<Vec<u16>>, AllocError>
    ensures { IfOk result (λ all. AreEighthsOf T.key lists.now all.items) }
{
    let mut all = Vec::with_capacity(alloc, lists.len())?;
    for x in 0..lists.len() {
        all.push(eighths_of(alloc, lists[x].as_slice())?)?;
    }
    Ok(all)
}

/// The numbers at a place, none where it isn't there.
fn numbers_at(all: &[Vec<u16>], x: u16) -> &[u16]
    ensures { result.now ≡ items_at all.now x }
{
    match all.get(x as usize) {
        Some(numbers) => numbers.as_slice(),
        None => &[],
    }
}
