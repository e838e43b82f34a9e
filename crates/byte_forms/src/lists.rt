//! Lists: so many items, one after the other.
ghost use Rattle.std.specs.Prelude.{◌≡◌, ◌++◌, ◌<◌, ◌≤◌, ◌^◌, IfSome, OnOk, length};
ghost use Rattle.std.specs.List.{flat_map};
ghost use Rattle.byte_forms.specs.Forms.{list_text, short_text};
ghost use Rattle.byte_forms.specs.Reading.{Finds, GivesOr, items_at, list_at, short_at};

use crate::form::Form;
use crate::numbers::{put_u16, u8_at, u16_at};
use crate::read_error::ReadError;
use arrayvec::ArrayVec;
use std::alloc::{AllocError, Global};

/// Writes items at the end.
pub fn put_items<F: Form>(out: &mut Vec<u8>, items: &[F::Value]) -> Result<(), AllocError>
    ensures { OnOk result (out.new.items ≡ out.old.items ++ flat_map F.form.text items.now) }
{
    for item in items {
        F::put(item, out)?;
    }
    Ok(())
}

/// Writes a list at the end: how many items there are, and each of them.
pub fn put_list<F: Form>(out: &mut Vec<u8>, items: &[F::Value]) -> Result<(), AllocError>
    requires { length items.now < 2 ^ 16 }
    ensures { OnOk result (out.new.items ≡ out.old.items ++ list_text F.form.text items.now) }
{
    put_u16(out, items.len() as u16)?;
    put_items::<F>(out, items)
}

/// Writes a short list at the end: how many items there are, in one byte, and each of them.
pub fn put_short<F: Form>(out: &mut Vec<u8>, items: &[F::Value]) -> Result<(), AllocError>
    requires { length items.now < 2 ^ 8 }
    ensures { OnOk result (out.new.items ≡ out.old.items ++ short_text F.form.text items.now) }
{
    out.push(items.len() as u8)?;
    put_items::<F>(out, items)
}

/// So many items from the front, and the bytes behind them.
pub fn items_of<F: Form>(
    alloc: Global,
    count: usize,
    bytes: &[u8],
) -> Result<(Vec<F::Value>, &[u8]), ReadError>
    ensures { GivesOr (λ x. (x.0.items, x.1.now)) result (items_at F.form.at count bytes.now) }
{
    let mut items = Vec::new(alloc);
    let mut rest = bytes;
    for _ in 0..count {
        let Some((item, after)) = F::take(rest) else {
            return Err(ReadError::Malformed);
        };
        items.push(item)?;
        rest = after;
    }
    Ok((items, rest))
}

/// The list at the front, and the bytes behind it.
#[tactic(auto, unfolding(crate::specs::Reading::list_at))]
pub fn list_of<F: Form>(alloc: Global, bytes: &[u8]) -> Result<(Vec<F::Value>, &[u8]), ReadError>
    ensures { GivesOr (λ x. (x.0.items, x.1.now)) result (list_at F.form.at bytes.now) }
{
    let Some((count, rest)) = u16_at(bytes) else {
        return Err(ReadError::Malformed);
    };
    items_of::<F>(alloc, count as usize, rest)
}

/// So many items from the front, in no memory but their own, and the bytes behind them.
pub fn few_of<F: Form, const N: usize>(
    count: usize,
    bytes: &[u8],
) -> Option<(ArrayVec<F::Value, N>, &[u8])>
where
    F::Value: Default,
    requires { count ≤ N }
    ensures items { Finds (λ x. (x.0.items, x.1.now)) result (items_at F.form.at count bytes.now) }
    ensures len { IfSome result (λ x. length x.0.items ≡ count) }
{
    let mut items = ArrayVec::new();
    let mut rest = bytes;
    for _ in 0..count {
        let Some((item, after)) = F::take(rest) else {
            return None;
        };
        items.push(item);
        rest = after;
    }
    Some((items, rest))
}

/// The short list at the front, which has no fewer items than this and no more than there is room for, and the bytes behind it.
#[tactic(auto, unfolding(crate::specs::Reading::short_at))]
pub fn short_of<F: Form, const N: usize>(
    least: usize,
    bytes: &[u8],
) -> Option<(ArrayVec<F::Value, N>, &[u8])>
where
    F::Value: Default,
    ensures items { Finds (λ x. (x.0.items, x.1.now)) result (short_at F.form.at least N bytes.now) }
    ensures least { IfSome result (λ x. least ≤ length x.0.items) }
{
    let (count, rest) = u8_at(bytes)?;
    let count = count as usize;
    if count < least || count > N {
        return None;
    }
    few_of::<F, N>(count, rest)
}
