// New rows for the nodes that changes touch, made beside the graph's own.
ghost use Rattle.std.specs.Prelude.{◌≡◌, ◌≢◌, ℕ, ◌+◌, ◌<◌, ◌≤◌, T, None, Ok, IfOk, IsOk, OnOk, length, slice_set};
ghost use Rattle.std.specs.Ordering.{nat_cmp};
ghost use Rattle.std.specs.FinMap.{put, is_sorted};
ghost use Rattle.graph_edits.specs.Changes.{after, err_of, first_node, second_node, op_weight, HasEndsIn};
ghost use Rattle.graph_edits.specs.Rows.{lists, row_of, edges_from, cut_row, HasAt, AreRows};
ghost use Rattle.graph_edits.specs.Placed.{placed, rows_with, edited_edges, AreSlots};

use crate::edits::{Change, Op};
use crate::graph::Graph;
use crate::overlay::edges_then;
use crate::{rows, table};
use std::alloc::{AllocError, Global};
use std::marker::Model;
use std::snapshot::Snapshot;

/// What a graph needs to become another without taking memory: the new rows of the nodes that changes touch.
#[derive(Drop)]
pub struct Prepared {
    pub(crate) rows: Vec<(u16, Vec<(u16, u32)>)>,
    pub(crate) edges: usize,
    pub(crate) before: Snapshot<Graph>,
}

impl Model for Prepared {
    ghost use Rattle.graph_edits.specs.Rows.{network_of};
    ghost use Rattle.graph_edits.specs.Placed.{Preparation, preparation_code, placed, rows_of, IsPrepared};

    ghost Value = { Preparation };

    ghost coded = { preparation_code };

    ghost view = { λ p. record { before = p.before.value; after = network_of (placed (rows_of p.before.value) p.rows.items) } };

    ghost invariant = { λ p. IsPrepared p.before.value p.rows.items p.edges };
}

impl Prepared {
    /// What the graph needs to take one more change, which it accepts after those before.
    ///
    /// It is made of what was prepared, which is gone where memory is short: then begin anew.
    pub fn take(self, alloc: Global, graph: &Graph, change: &Change) -> Result<Prepared, AllocError>
        requires of_this { self.before ≡ graph.now }
        requires accepted { IsOk (after self.after change.now) }
        ensures before { IfOk result (λ prepared. prepared.before ≡ self.before) }
        ensures after { IfOk result (λ prepared. after self.after change.now ≡ Ok prepared.after) }
    {
        let Prepared {
            mut rows,
            mut edges,
            before,
        } = self;
        rewrite_all(alloc, &graph.rows, &mut rows, &mut edges, change.ops())?;
        Ok(Prepared {
            rows,
            edges,
            before,
        })
    }
}

/// Makes ops of which none is refused in the new rows.
fn rewrite_all(
    alloc: Global,
    base: &[Vec<(u16, u32)>],
    rows: &mut Vec<(u16, Vec<(u16, u32)>)>,
    edges: &mut usize,
    ops: &[Op],
) -> Result<(), AllocError>
    requires slots { AreSlots (length base.now) rows.old.items }
    requires rows { AreRows (placed (lists base.now) rows.old.items) edges.old }
    requires accepted { err_of (edited_edges (length base.now) (placed (lists base.now) rows.old.items) ops.now)
        ≡ None }
    ensures slots { OnOk result (AreSlots (length base.now) rows.new.items) }
    ensures rows { OnOk result (AreRows (placed (lists base.now) rows.new.items) edges.new) }
    ensures edges { OnOk result (edited_edges (length base.now) (placed (lists base.now) rows.old.items) ops.now
        ≡ Ok (edges_from 0 (placed (lists base.now) rows.new.items))) }
{
    for op in ops {
        rewrite(alloc, base, rows, *op)?;
        *edges = edges_then(*edges, *op);
    }
    Ok(())
}

/// Makes one op in the new rows of its two nodes.
fn rewrite(
    alloc: Global,
    base: &[Vec<(u16, u32)>],
    rows: &mut Vec<(u16, Vec<(u16, u32)>)>,
    op: Op,
) -> Result<(), AllocError>
    requires slots { AreSlots (length base.now) rows.old.items }
    requires sorted { (x : ℕ) → T (is_sorted nat_cmp (row_of (placed (lists base.now) rows.old.items) x)) }
    requires ends { HasEndsIn (length base.now) op }
    requires apart { first_node op ≢ second_node op }
    ensures slots { OnOk result (AreSlots (length base.now) rows.new.items) }
    ensures rows { OnOk result (placed (lists base.now) rows.new.items
        ≡ rows_with (placed (lists base.now) rows.old.items) (first_node op) (second_node op) (op_weight op)) }
{
    let (a, b) = op.ends();
    match op.weight() {
        Some(weight) => {
            put_half(alloc, base, rows, a, b, weight)?;
            put_half(alloc, base, rows, b, a, weight)
        }
        None => {
            cut_half(alloc, base, rows, a, b)?;
            cut_half(alloc, base, rows, b, a)
        }
    }
}

/// Gives the edge to a neighbour a weight in the new row of a node.
fn put_half(
    alloc: Global,
    base: &[Vec<(u16, u32)>],
    rows: &mut Vec<(u16, Vec<(u16, u32)>)>,
    node: u16,
    neighbour: u16,
    weight: u32,
) -> Result<(), AllocError>
    requires node { node < length base.now }
    requires slots { AreSlots (length base.now) rows.old.items }
    requires sorted { T (is_sorted nat_cmp (row_of (placed (lists base.now) rows.old.items) node)) }
    ensures slots { OnOk result (AreSlots (length base.now) rows.new.items) }
    ensures rows { OnOk result (placed (lists base.now) rows.new.items
        ≡ slice_set (placed (lists base.now) rows.old.items) node
        (put nat_cmp neighbour weight (row_of (placed (lists base.now) rows.old.items) node))) }
{
    let i = slot_of(alloc, base, rows, node)?;
    rows::put_neighbour(&mut rows[i].1, neighbour, weight)?;
    Ok(())
}

/// Cuts the edge to a neighbour in the new row of a node.
fn cut_half(
    alloc: Global,
    base: &[Vec<(u16, u32)>],
    rows: &mut Vec<(u16, Vec<(u16, u32)>)>,
    node: u16,
    neighbour: u16,
) -> Result<(), AllocError>
    requires node { node < length base.now }
    requires slots { AreSlots (length base.now) rows.old.items }
    requires sorted { T (is_sorted nat_cmp (row_of (placed (lists base.now) rows.old.items) node)) }
    ensures slots { OnOk result (AreSlots (length base.now) rows.new.items) }
    ensures rows { OnOk result (placed (lists base.now) rows.new.items
        ≡ slice_set (placed (lists base.now) rows.old.items) node
        (cut_row neighbour (row_of (placed (lists base.now) rows.old.items) node))) }
{
    let i = slot_of(alloc, base, rows, node)?;
    table::cut_entry(&mut rows[i].1, neighbour);
    Ok(())
}

/// The place of a node's new row, which is a copy of the graph's where there was none.
fn slot_of(
    alloc: Global,
    base: &[Vec<(u16, u32)>],
    rows: &mut Vec<(u16, Vec<(u16, u32)>)>,
    node: u16,
) -> Result<usize, AllocError>
    requires node { node < length base.now }
    requires slots { AreSlots (length base.now) rows.old.items }
    ensures slots { OnOk result (AreSlots (length base.now) rows.new.items) }
    ensures rows { OnOk result (placed (lists base.now) rows.new.items ≡ placed (lists base.now) rows.old.items) }
    ensures place { IfOk result (λ i. HasAt nat_cmp rows.new.items node i) }
{
    match table::find_place(rows, node) {
        Ok(i) => Ok(i),
        Err(i) => {
            let row = rows::copy_with_room(alloc, &base[node as usize])?;
            rows.insert(i, (node, row))?;
            Ok(i)
        }
    }
}
