// The lines of a scheme's tables.
ghost use Rattle.std.specs.Prelude.{◌≡◌, ◌++◌, IfOk, OnOk, Some, codes, max, sum, fold, string_bytes};
ghost use Rattle.lab_landmarks.specs.Sizes.{kept};
ghost use Rattle.lab_landmarks.specs.Tables.{landmarks_text, line_text, mean_of, mean_text, part_text, tables_text};

use crate::sizes::{directory_lengths, entry_counts, landmark_count, table_lengths};
use schemes::Scheme;
use std::alloc::{AllocError, Global};
use std::fmt::{self, Write};

/// Adds how many landmarks a scheme has, and the mean and the greatest of its entries, its directories and the bytes of its tables, a line each
/// under a name that begins so.
pub(crate) fn push_tables(
    alloc: Global,
    text: &mut String,
    name: &str,
    scheme: &Scheme,
) -> Result<(), AllocError>
    ensures { OnOk result (string_bytes text.new ≡ string_bytes text.old ++ tables_text name.now scheme.now) }
{
    push_landmarks(text, name, scheme)?;
    push_part(
        text,
        name,
        "entries",
        &entry_counts(alloc, scheme)?,
        "entries",
    )?;
    push_part(
        text,
        name,
        "directory",
        &directory_lengths(alloc, scheme)?,
        "members",
    )?;
    push_part(text, name, "table", &table_lengths(alloc, scheme)?, "bytes")?;
    Ok(())
}

fn push_landmarks(text: &mut String, name: &str, scheme: &Scheme) -> Result<(), AllocError>
    ensures { OnOk result (string_bytes text.new ≡ string_bytes text.old ++ landmarks_text name.now scheme.now) }
{
    writeln!(
        text,
        "{name}_landmarks={} unit=nodes",
        landmark_count(scheme)
    )
}

// The mean and the greatest of numbers.
fn push_part(
    text: &mut String,
    name: &str,
    part: &str,
    numbers: &[u64],
    unit: &str,
) -> Result<(), AllocError>
    ensures { OnOk result (string_bytes text.new
        ≡ string_bytes text.old ++ part_text name.now part.now numbers.now unit.now) }
{
    writeln!(
        text,
        "{name}_{part}_mean={} unit={unit}",
        Mean(mean_of(numbers))
    )?;
    writeln!(
        text,
        "{name}_{part}_greatest={} unit={unit}",
        greatest_of(numbers)
    )
}

// Thousandths, shown with three digits behind the point, or that there are none.
#[derive(Clone, Copy)]
struct Mean(Option<u64>);

impl fmt::Display for Mean {
    ghost output = { λ x. Some (mean_text x.0) };

    fn fmt<W: fmt::Write>(&self, f: &mut fmt::Formatter<W>) -> fmt::Result {
        match self.0 {
            None => write!(f, "none"),
            Some(all) => write!(
                f,
                "{}.{}{}{}",
                all / 1000,
                all / 100 % 10,
                all / 10 % 10,
                all % 10
            ),
        }
    }
}

// The mean of numbers in thousandths, a half up. One past a u64 stays at the greatest.
fn mean_of(numbers: &[u64]) -> Option<u64>
    ensures { result ≡ mean_of numbers.now }
{
    let count = numbers.len() as u128;
    if count == 0 {
        return None;
    }
    let exact = (1000 * sum_of(numbers) as u128 + count / 2) / count;
    Some(exact.min(u64::MAX as u128) as u64)
}

// The sum of numbers. One past a u64 stays at the greatest.
fn sum_of(numbers: &[u64]) -> u64
    ensures { result ≡ kept (sum numbers.now) }
{
    let mut all: u64 = 0;
    for number in numbers {
        all = all.saturating_add(*number);
    }
    all
}

// The greatest number, 0 where there is none.
fn greatest_of(numbers: &[u64]) -> u64
    ensures { result ≡ fold max 0 numbers.now }
{
    numbers
        .iter()
        .fold(0, |greatest: u64, number| greatest.max(*number))
}
