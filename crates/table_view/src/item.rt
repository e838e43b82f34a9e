// Lists of a table in bytes that are in order.
ghost use Rattle.std.specs.Prelude.{◌≡◌, ◌↔◌, ◌<◌, ◌≤◌, ℕ, IsTrue, List, MatchOption};
ghost use Rattle.packet_bytes.specs.Spelling.{IsLabel};
ghost use Rattle.router_table.specs.Order.{IsRecord};
ghost use Rattle.table_view.specs.Listing.{IsListIn};

use byte_forms::{Form, U16, u16_at};
use router_table::{EntryForm, MemberForm, TreeEntry, is_label, is_record};
use schemes::Listed;

/// The form of a list's items.
pub(crate) trait Item: Form {
    // The number under which an item stands.
    ghost key: { Self.Value → ℕ };

    // Whether a node with so many ports may have it.
    ghost IsGood: { ℕ → Self.Value → Type 0 };

    /// The number under which an item stands.
    fn key(value: &Self::Value) -> u16
        ensures { result ≡ key value.now };

    /// Whether a node with so many ports may have it.
    fn is_good(value: &Self::Value, ports: u16) -> bool
        ensures { IsTrue result ↔ IsGood ports value.now };
}

impl Item for U16 {
    ghost key = { λ port. port };

    ghost IsGood = { λ ports port. Unit {0} };

    fn key(value: &u16) -> u16 {
        *value
    }

    fn is_good(_value: &u16, _ports: u16) -> bool {
        true
    }
}

impl Item for EntryForm {
    ghost key = { λ e. e.root };

    ghost IsGood = { λ ports e. IsRecord ports e.tree_record };

    fn key(value: &TreeEntry) -> u16 {
        value.root
    }

    fn is_good(value: &TreeEntry, ports: u16) -> bool {
        is_record(&value.tree_record, ports as usize)
    }
}

impl Item for MemberForm {
    ghost key = { λ m. m.node };

    ghost IsGood = { λ ports m. IsLabel m.label };

    fn key(value: &Listed) -> u16 {
        value.node
    }

    fn is_good(value: &Listed, _ports: u16) -> bool {
        is_label(&value.label)
    }
}

/// Whether an item may come next, where no number may be below the least one, in a node with so many ports.
fn may_come<F: Item>(item: &F::Value, least: u32, limit: u16, ports: u16) -> bool
    ensures { IsTrue result ↔ ((least ≤ F.key item.now) × (F.key item.now < limit) × F.IsGood ports item.now) }
{
    let key = F::key(item);
    key as u32 >= least && key < limit && F::is_good(item, ports)
}

/// Whether a list stands at the front whose numbers strictly ascend, below a limit, and whose items a node with so many ports may have:
/// how many items it has, and the bytes behind it.
pub(crate) fn list_in_order<F: Item>(bytes: &[u8], limit: u16, ports: u16) -> Option<(u16, &[u8])>
    ensures { MatchOption result
        ((n : ℕ) (rest : List ℕ) → IsListIn F.form.at F.key (F.IsGood ports) limit bytes.now n rest → ⊥)
        (λ x. IsListIn F.form.at F.key (F.IsGood ports) limit bytes.now x.0 x.1.now) }
{
    let Some((count, items)) = u16_at(bytes) else {
        return None;
    };
    let mut rest = items;
    let mut least: u32 = 0;
    for _ in 0..count {
        let Some((item, after)) = F::take(rest) else {
            return None;
        };
        if !may_come::<F>(&item, least, limit, ports) {
            return None;
        }
        let key = F::key(&item);
        least = key as u32 + 1;
        rest = after;
    }
    Some((count, rest))
}
