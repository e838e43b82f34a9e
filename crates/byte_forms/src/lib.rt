//! Values as bytes: numbers, lists, and forms put together from them. Each number begins with its highest byte.
//!
//! A [`Form`] says how values of one kind are spelled. Its spelling is a function of the value, and its one reading answers the value at the front
//! of bytes and the bytes behind it. Each form has the spelling law (`IsForm` of `specs/Forms`): what is read is spelled so and fits its
//! place, and what fits and is spelled so is read, whatever stands behind it. So bytes spell at most one value.
//!
//! Given here are the numbers [`U16`], [`U32`] and [`U64`] and lists that begin with their length, in two bytes or, of a short one, in one. A crate that has a format writes a
//! form for each of its items: the function that reads it, the one that writes it, and its law out of the laws of its
//! parts (`then_is_form`, `made_is_form`, `short_is_form` and `list_is_form` of `specs/FormLaws`).
//!
//! ```text
//! let (count, rest) = u16_at(bytes)?;                  // a number, and the bytes behind it
//! let (items, rest) = list_of::<U16>(alloc, bytes)?;   // how many there are, and each of them
//! put_list::<U16>(&mut out, &items)?;                  // the same bytes
//! ```
#![tactic(auto)]

mod form;
mod lists;
mod numbers;
mod read_error;

pub use form::{Form, U16, U32, U64};
pub use lists::{few_of, items_of, list_of, put_items, put_list, put_short, short_of};
pub use numbers::{put_u16, put_u32, put_u64, u8_at, u16_at, u16_in, u32_at, u64_at};
pub use read_error::ReadError;
