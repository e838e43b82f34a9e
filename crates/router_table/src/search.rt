// Look-ups by halving.
ghost use Rattle.std.specs.Prelude.{map};
ghost use Rattle.std.specs.List.Sorted.{IsStrictlyIncreasing};
ghost use Rattle.router_table.specs.Items.{item_at};
ghost use Rattle.byte_forms.specs.Reading.{Finds};

use crate::keyed::Keyed;

/// The item under a number, in a list whose numbers strictly ascend.
pub(crate) fn find<T: Keyed>(items: &[T], number: u16) -> Option<&T>
    requires { IsStrictlyIncreasing (map T.key items.now) }
    ensures { Finds (λ x. x.now) result (item_at T.key number items.now) }
{
    match items.binary_search_by_key(&number, |item| item.key()) {
        Ok(place) => Some(&items[place]),
        Err(_) => None,
    }
}
