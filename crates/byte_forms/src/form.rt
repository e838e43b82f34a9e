//! What is spelled in bytes.
ghost use Rattle.std.specs.Prelude.{◌≡◌, ◌++◌, OnOk};
ghost use Rattle.byte_forms.specs.Forms.{FormOf, IsForm};
ghost use Rattle.byte_forms.specs.Reading.{Finds};
ghost use Rattle.byte_forms.specs.FormLaws.{u16_form, u16_is_form, u32_form, u32_is_form, u64_form, u64_is_form};

use crate::numbers::{put_u16, put_u32, put_u64, u16_at, u32_at, u64_at};
use std::alloc::AllocError;

/// The form of values of one kind.
///
/// Whoever writes an impl gives the form (spelling, what fits, reading) and the proof of the spelling law.
pub trait Form {
    type Value: Drop;

    // How values are spelled, which of them fit their places, and what is read.
    ghost form: { FormOf Self.Value };

    /// Writes a value at the end.
    fn put(value: &Self::Value, out: &mut Vec<u8>) -> Result<(), AllocError>
        ensures { OnOk result (out.new.items ≡ out.old.items ++ form.text value.now) };

    /// Reads a value from the front, and answers the bytes behind it. None where the bytes don't begin so.
    fn take(bytes: &[u8]) -> Option<(Self::Value, &[u8])>
        ensures { Finds (λ x. (x.0, x.1.now)) result (form.at bytes.now) };

    // The spelling law.
    ghost is_form: { IsForm form };
}

/// Numbers of two bytes.
pub struct U16;

impl Form for U16 {
    type Value = u16;

    ghost form = { u16_form };

    fn put(value: &u16, out: &mut Vec<u8>) -> Result<(), AllocError> {
        put_u16(out, *value)
    }

    fn take(bytes: &[u8]) -> Option<(u16, &[u8])> {
        u16_at(bytes)
    }

    ghost is_form = { u16_is_form };
}

/// Numbers of four bytes.
pub struct U32;

impl Form for U32 {
    type Value = u32;

    ghost form = { u32_form };

    fn put(value: &u32, out: &mut Vec<u8>) -> Result<(), AllocError> {
        put_u32(out, *value)
    }

    fn take(bytes: &[u8]) -> Option<(u32, &[u8])> {
        u32_at(bytes)
    }

    ghost is_form = { u32_is_form };
}

/// Numbers of eight bytes.
pub struct U64;

impl Form for U64 {
    type Value = u64;

    ghost form = { u64_form };

    fn put(value: &u64, out: &mut Vec<u8>) -> Result<(), AllocError> {
        put_u64(out, *value)
    }

    fn take(bytes: &[u8]) -> Option<(u64, &[u8])> {
        u64_at(bytes)
    }

    ghost is_form = { u64_is_form };
}
