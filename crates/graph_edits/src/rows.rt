// One node's row: its neighbours with the weights of the edges, in ascending order.
ghost use Rattle.std.specs.Prelude.{◌≡◌, ◌≢◌, ℕ, ◌+◌, ◌<◌, ◌≤◌, T, not, Option, None, length, vec_len, vec_capacity, IfOk, IfErr, OnOk, OnErr, Some, ◌↔◌};
ghost use Rattle.std.specs.Ordering.{nat_cmp, eq_by_cmp};
ghost use Rattle.std.specs.FinMap.{find, put, is_sorted};
ghost use Rattle.std.specs.FinMap.Entries.{where_key};
ghost use Rattle.std.specs.List.{slice_get};
ghost use Rattle.std.specs.Option.{option_map};
ghost use Rattle.graph_edits.specs.Changes.{first_node, second_node, op_weight, HasEndsIn};
ghost use Rattle.graph_edits.specs.Placed.{rows_with};
ghost use Rattle.graph_edits.specs.Rows.{lists, row_of, cut_both, put_both};

use crate::edits::Op;
use crate::table::{self, find_place};
use std::alloc::{AllocError, Global};

/// The port that leads to `node`.
pub(crate) fn port_of(row: &[(u16, u32)], node: u16) -> Option<u16>
    requires { T (is_sorted nat_cmp row.now) }
    ensures { (port : ℕ) → (result ≡ Some port) ↔ (option_map (λ e. e.0) (slice_get row.now port) ≡ Some node) }
{
    match find_place(row, node) {
        Ok(port) => Some(port as u16),
        Err(_) => None,
    }
}

/// The node to which a port leads.
pub(crate) fn behind(row: &[(u16, u32)], port: u16) -> Option<u16>
    ensures { result ≡ option_map (λ e. e.0) (slice_get row.now port) }
{
    let entry = row.get(port as usize)?;
    Some(entry.0)
}

/// A row of its own with the same entries.
pub(crate) fn copy_of(alloc: Global, row: &[(u16, u32)]) -> Result<Vec<(u16, u32)>, AllocError>
    ensures { IfOk result (λ copy. copy.items ≡ row.now) }
{
    let mut copy = Vec::with_capacity(alloc, row.len())?;
    copy.extend_from_slice(row)?;
    Ok(copy)
}

/// The same with room for one entry more.
pub(crate) fn copy_with_room(
    alloc: Global,
    row: &[(u16, u32)],
) -> Result<Vec<(u16, u32)>, AllocError>
    ensures { IfOk result (λ copy. copy.items ≡ row.now) }
{
    let mut copy = Vec::with_capacity(alloc, row.len() + 1)?;
    copy.extend_from_slice(row)?;
    Ok(copy)
}

/// Gives the edge to a neighbour a weight.
pub(crate) fn put_neighbour(
    row: &mut Vec<(u16, u32)>,
    neighbour: u16,
    weight: u32,
) -> Result<(), AllocError>
    requires { T (is_sorted nat_cmp row.old.items) }
    ensures ok { OnOk result (row.new.items ≡ put nat_cmp neighbour weight row.old.items) }
    ensures unchanged { OnErr result (row.new.items ≡ row.old.items) }
{
    row.reserve(1)?;
    table::put_entry(row, neighbour, weight);
    Ok(())
}

/// Gives the edge between two nodes a weight, in the rows of both.
pub(crate) fn put_both(
    rows: &mut Vec<Vec<(u16, u32)>>,
    a: u16,
    b: u16,
    weight: u32,
) -> Result<(), AllocError>
    requires first { a < length rows.old.items }
    requires second { b < length rows.old.items }
    requires apart { a ≢ b }
    requires sorted { (x : ℕ) → T (is_sorted nat_cmp (row_of (lists rows.old.items) x)) }
    ensures ok { OnOk result (lists rows.new.items ≡ put_both (lists rows.old.items) a b weight) }
    ensures unchanged { OnErr result (lists rows.new.items ≡ lists rows.old.items) }
{
    rows[b as usize].reserve(1)?;
    put_neighbour(&mut rows[a as usize], b, weight)?;
    table::put_entry(&mut rows[b as usize], a, weight);
    Ok(())
}

/// Cuts the edge between two nodes, in the rows of both.
pub(crate) fn cut_both(rows: &mut Vec<Vec<(u16, u32)>>, a: u16, b: u16)
    requires first { a < length rows.old.items }
    requires second { b < length rows.old.items }
    requires apart { a ≢ b }
    requires sorted { (x : ℕ) → T (is_sorted nat_cmp (row_of (lists rows.old.items) x)) }
    ensures { lists rows.new.items ≡ cut_both (lists rows.old.items) a b }
{
    table::cut_entry(&mut rows[a as usize], b);
    table::cut_entry(&mut rows[b as usize], a);
}

/// Makes an op in the rows of its two nodes.
pub(crate) fn write_both(rows: &mut Vec<Vec<(u16, u32)>>, op: Op) -> Result<(), AllocError>
    requires ends { HasEndsIn (length rows.old.items) op }
    requires apart { first_node op ≢ second_node op }
    requires sorted { (x : ℕ) → T (is_sorted nat_cmp (row_of (lists rows.old.items) x)) }
    ensures ok { OnOk result (lists rows.new.items
        ≡ rows_with (lists rows.old.items) (first_node op) (second_node op) (op_weight op)) }
    ensures unchanged { OnErr result (lists rows.new.items ≡ lists rows.old.items) }
{
    let (a, b) = op.ends();
    match op.weight() {
        Some(weight) => put_both(rows, a, b, weight),
        None => {
            cut_both(rows, a, b);
            Ok(())
        }
    }
}
