// The checks in their order.
ghost use Rattle.std.specs.Prelude.{◌≡◌, ◌+◌, ◌<◌, ◌↔◌, ℕ, IfErr, IsTrue, OnOk};
ghost use Rattle.certificate.specs.Words.{IsSound, Holds, IsChecked, IsFirstFault, number_of, Serves, tables};
ghost use Rattle.certificate.specs.Entries.{IsFramed};
ghost use Rattle.certificate.specs.Faults.{IsExact, rule_of};
ghost use Rattle.certificate.specs.Rules.{HoldsAt, HoldsBefore, HoldsTo};

use crate::directories::has_directory;
use crate::edges::{is_closed, is_tight};
use crate::fault::Fault;
use crate::labels::has_labels_at;
use crate::nearest::{is_nearest, is_strict};
use crate::records::{fits_root, is_swept_alone};
use crate::shape::{is_entry_shaped_alone, is_framed};
use crate::swift::are_trees_right;
use graph_edits::Graph;
use schemes::Scheme;

/// The fault whose number is one more.
fn fault_at(i: u8) -> Fault
    ensures { i < 8 → number_of (rule_of result) ≡ i + 1 }
{
    match i {
        0 => Fault::Shape,
        1 => Fault::Edges,
        2 => Fault::Parents,
        3 => Fault::Strict,
        4 => Fault::Nearest,
        5 => Fault::Records,
        6 => Fault::Labels,
        _ => Fault::Directories,
    }
}

/// Whether a rule holds at a node, where all before it hold.
fn holds_at(graph: &Graph, scheme: &Scheme, fault: Fault, x: u16) -> bool
    requires sound { IsSound graph.now }
    requires inside { x < graph.now.nodes }
    requires before { HoldsBefore graph.now scheme.now (rule_of fault) }
    ensures { IsTrue result ↔ HoldsAt graph.now scheme.now (rule_of fault) x }
{
    let mut entries = scheme.entries_of(x).iter();
    match fault {
        Fault::Shape => entries.all(|entry| is_entry_shaped_alone(graph, scheme, x, entry)),
        Fault::Edges => entries.all(|entry| is_closed(graph, scheme, x, entry)),
        Fault::Parents => entries.all(|entry| is_tight(graph, scheme, x, entry)),
        Fault::Strict => entries.all(|entry| is_strict(scheme, x, entry)),
        Fault::Nearest => is_nearest(scheme, x),
        Fault::Records => fits_root(scheme, x)
            && entries.all(|entry| is_swept_alone(graph, scheme, x, entry)),
        Fault::Labels => has_labels_at(graph, scheme, x),
        Fault::Directories => has_directory(scheme, x),
    }
}

/// Whether a rule holds, where all before it hold.
fn holds(graph: &Graph, scheme: &Scheme, fault: Fault) -> bool
    requires framed { IsFramed graph.now scheme.now }
    requires before { HoldsBefore graph.now scheme.now (rule_of fault) }
    ensures { IsTrue result ↔ Holds graph.now scheme.now (rule_of fault) }
{
    for x in 0..graph.nodes() {
        if !holds_at(graph, scheme, fault, x) {
            return false;
        }
    }
    true
}

/// What [`check`] answers. Where the rules aren't known to hold, each is tested by itself, and the first that fails is named.
pub(crate) fn answer(graph: &Graph, scheme: &Scheme, is_sound: bool) -> Result<(), Fault>
    requires { IsTrue is_sound → IsChecked graph.now scheme.now }
    ensures ok { OnOk result (IsChecked graph.now scheme.now) }
    ensures fault { IfErr result (λ fault. IsFirstFault graph.now scheme.now (rule_of fault)) }
    ensures exact { IsExact graph.now scheme.now result }
    ensures serves { OnOk result (Serves graph.now (tables scheme.now)) }
{
    // It tells that the graph is sound.
    let _sound = graph.nodes();
    if is_sound {
        return Ok(());
    }
    if !is_framed(graph, scheme) {
        return Err(Fault::Shape);
    }
    for i in 0..8 {
        let fault = fault_at(i);
        if !holds(graph, scheme, fault) {
            return Err(fault);
        }
    }
    Ok(())
}

/// Whether the swift pass finds no fault: then all rules hold.
fn is_sound(graph: &Graph, scheme: &Scheme) -> bool
    ensures { IsTrue result → IsChecked graph.now scheme.now }
{
    is_framed(graph, scheme) && are_trees_right(graph, scheme, 0, graph.nodes())
}

/// Whether a scheme keeps all eight rules for a graph; else the first that it breaks. It takes no memory and answers for
/// any scheme, also one assembled of anything. What passes serves the graph.
pub fn check(graph: &Graph, scheme: &Scheme) -> Result<(), Fault>
    ensures ok { OnOk result (IsChecked graph.now scheme.now) }
    ensures fault { IfErr result (λ fault. IsFirstFault graph.now scheme.now (rule_of fault)) }
    ensures exact { IsExact graph.now scheme.now result }
    ensures serves { OnOk result (Serves graph.now (tables scheme.now)) }
{
    answer(graph, scheme, is_sound(graph, scheme))
}
