//! Ops and changes, and their bytes.
ghost use Rattle.std.specs.Prelude.{◌≡◌, ◌++◌, OnOk};
ghost use Rattle.byte_forms.specs.Reading.{Finds};
ghost use Rattle.journal.specs.ChangeForm.{op_of, op_at, op_form, op_is_form, ops_form};

use crate::layout::{ADD, CUT, SET};
use byte_forms::{Form, put_u16, put_u32, short_of, u8_at, u16_at, u32_at};
use graph_edits::{Change, MOST_OPS, Op};
use std::alloc::AllocError;

/// Ops: the kind, two nodes, and the weight.
pub(crate) struct OpForm;

impl Form for OpForm {
    type Value = Op;

    ghost form = { op_form };

    fn put(value: &Op, out: &mut Vec<u8>) -> Result<(), AllocError> {
        put_op(out, *value)
    }

    #[tactic(auto, unfolding(crate::specs::ChangeForm::op_at))]
    fn take(bytes: &[u8]) -> Option<(Op, &[u8])> {
        let (kind, rest) = u8_at(bytes)?;
        let (a, rest) = u16_at(rest)?;
        let (b, rest) = u16_at(rest)?;
        let (weight, rest) = u32_at(rest)?;
        Some((op_from(kind, a, b, weight)?, rest))
    }

    ghost is_form = { op_is_form };
}

fn op_from(kind: u8, a: u16, b: u16, weight: u32) -> Option<Op>
    ensures { result ≡ op_of kind a b weight }
{
    match kind {
        ADD => Some(Op::Add(a, b, weight)),
        SET => Some(Op::Set(a, b, weight)),
        CUT if weight == 0 => Some(Op::Cut(a, b)),
        _ => None,
    }
}

fn put_op(out: &mut Vec<u8>, op: Op) -> Result<(), AllocError>
    ensures text { OnOk result (out.new.items ≡ out.old.items ++ op_form.text op) }
    ensures is_op { op_form.Fits op }
{
    let (kind, a, b, weight) = match op {
        Op::Add(a, b, weight) => (ADD, a, b, weight),
        Op::Set(a, b, weight) => (SET, a, b, weight),
        Op::Cut(a, b) => (CUT, a, b, 0),
    };
    out.push(kind)?;
    put_u16(out, a)?;
    put_u16(out, b)?;
    put_u32(out, weight)
}

/// The change at the front, and the bytes after it.
pub(crate) fn read_change(bytes: &[u8]) -> Option<(Change, &[u8])>
    ensures { Finds (λ x. (x.0, x.1.now)) result (ops_form.at bytes.now) }
{
    let (ops, rest) = short_of::<OpForm, MOST_OPS>(1, bytes)?;
    match Change::new(ops.as_slice()) {
        Ok(change) => Some((change, rest)),
        Err(_) => None,
    }
}

/// Puts the text of a change at the end.
pub(crate) fn put_change(out: &mut Vec<u8>, change: &Change) -> Result<(), AllocError>
    ensures text { OnOk result (out.new.items ≡ out.old.items ++ ops_form.text change.now) }
    ensures is_change { OnOk result (ops_form.Fits change.now) }
{
    let ops = change.ops();
    out.push(ops.len() as u8)?;
    for op in ops {
        put_op(out, *op)?;
    }
    Ok(())
}
