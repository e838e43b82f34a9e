// Lists of entries whose keys strictly rise, as the row of a node.
ghost use Rattle.std.specs.Prelude.{◌≡◌, ℕ, ◌+◌, ◌-◌, ◌<◌, ◌≤◌, T, not, Option, None, length, vec_len, vec_capacity, IfOk, IfErr, OnOk};
ghost use Rattle.std.specs.Ordering.{eq_by_cmp};
ghost use Rattle.std.specs.FinMap.{find, put, is_sorted};
ghost use Rattle.std.specs.FinMap.Entries.{where_key};
ghost use Rattle.graph_edits.specs.Rows.{place, HasAt, MissesAt};

use std::alloc::AllocError;

/// Up to so many entries a scan is no slower than halving.
const SHORT: usize = 16;

/// The place of the first entry whose key is not below `key`.
fn place_of<K: Ord + Copy, V>(entries: &[(K, V)], key: K) -> usize
    requires { T (is_sorted K.cmp entries.now) }
    ensures place { result ≡ place K.cmp key entries.now }
    ensures within { result ≤ length entries.now }
{
    let mut low = 0;
    let mut high = entries.len();
    while low < high && SHORT < high - low {
        let middle = low + (high - low) / 2;
        if entries[middle].0.cmp(&key).is_lt() {
            low = middle + 1;
            continue;
        }
        high = middle;
    }
    while low < high && entries[low].0.cmp(&key).is_lt() {
        low += 1;
    }
    low
}

/// The place of the entry with the key, or where it would be inserted.
pub(crate) fn find_place<K: Ord + Copy, V>(entries: &[(K, V)], key: K) -> Result<usize, usize>
    requires { T (is_sorted K.cmp entries.now) }
    ensures found { IfOk result (λ i. HasAt K.cmp entries.now key i) }
    ensures missing { IfErr result (λ i. MissesAt K.cmp entries.now key i) }
{
    let i = place_of(entries, key);
    if i < entries.len() && key.cmp(&entries[i].0).is_eq() {
        return Ok(i);
    }
    Err(i)
}

/// The value of the key, if it has one.
pub(crate) fn value_of<K: Ord + Copy, V: Copy>(entries: &[(K, V)], key: K) -> Option<V>
    requires { T (is_sorted K.cmp entries.now) }
    ensures { result ≡ find K.cmp key entries.now }
{
    match find_place(entries, key) {
        Ok(i) => Some(entries[i].1),
        Err(_) => None,
    }
}

/// Gives the key a value. There is room where the key is new.
pub(crate) fn put_entry<K: Ord + Copy, V: Drop>(entries: &mut Vec<(K, V)>, key: K, value: V)
    requires sorted { T (is_sorted K.cmp entries.old.items) }
    requires room { find K.cmp key entries.old.items ≡ None → vec_len entries.old < vec_capacity entries.old }
    ensures items { entries.new.items ≡ put K.cmp key value entries.old.items }
    ensures len { vec_len entries.new ≤ vec_len entries.old + 1 }
    ensures capacity { vec_capacity entries.old ≤ vec_capacity entries.new }
{
    match find_place(entries, key) {
        Ok(i) => entries[i].1 = value,
        Err(i) => {
            if entries.insert(i, (key, value)).is_err() {
                unreachable!()
            }
        }
    }
}

/// Takes out the entry with the key, if there is one.
pub(crate) fn cut_entry<K: Ord + Copy, V: Drop>(entries: &mut Vec<(K, V)>, key: K)
    requires { T (is_sorted K.cmp entries.old.items) }
    ensures items { entries.new.items ≡ where_key K.cmp (λ x. not (eq_by_cmp K.cmp key x)) entries.old.items }
    ensures len { vec_len entries.new ≤ vec_len entries.old }
    ensures capacity { vec_capacity entries.old ≤ vec_capacity entries.new }
{
    if let Ok(i) = find_place(entries, key) {
        let _ = entries.remove(i);
    }
}
