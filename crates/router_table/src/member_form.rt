// Members of a directory as bytes.
ghost use Rattle.std.specs.Prelude.{◌≡◌, ◌++◌, OnOk};
ghost use Rattle.byte_forms.specs.Reading.{Finds};
ghost use Rattle.router_table.specs.MemberForm.{label_at, member_form, member_is_form};
ghost use Rattle.router_table.specs.Spelling.{label_text};

use byte_forms::{Form, U16, put_short, put_u16, short_of, u16_at};
use heavy_labels::{Label, MOST_LIGHTS};
use schemes::Listed;
use std::alloc::AllocError;

/// Members of a directory: the node, and its label.
pub struct MemberForm;

impl Form for MemberForm {
    type Value = Listed;

    ghost form = { member_form };

    fn put(value: &Listed, out: &mut Vec<u8>) -> Result<(), AllocError> {
        put_u16(out, value.node)?;
        put_label(out, &value.label)
    }

    #[tactic(auto, unfolding(crate::specs::MemberForm::member_at))]
    fn take(bytes: &[u8]) -> Option<(Listed, &[u8])> {
        let (node, rest) = u16_at(bytes)?;
        let (label, rest) = label_of(rest)?;
        Some((Listed { node, label }, rest))
    }

    ghost is_form = { member_is_form };
}

/// Writes a label at the end.
fn put_label(out: &mut Vec<u8>, label: &Label) -> Result<(), AllocError>
    ensures { OnOk result (out.new.items ≡ out.old.items ++ label_text label.now) }
{
    put_u16(out, label.first())?;
    put_short::<U16>(out, label.lights())
}

/// The label at the front, and the bytes behind it.
#[tactic(auto, unfolding(crate::specs::MemberForm::label_at))]
fn label_of(bytes: &[u8]) -> Option<(Label, &[u8])>
    ensures { Finds (λ x. (x.0, x.1.now)) result (label_at bytes.now) }
{
    let (first, rest) = u16_at(bytes)?;
    let (lights, rest) = short_of::<U16, MOST_LIGHTS>(0, rest)?;
    Some((Label::new(first, lights), rest))
}
