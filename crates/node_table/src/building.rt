// Schemes out of graphs.
ghost use Rattle.std.specs.Prelude.{◌≡◌, ◌<◌, ◌≤◌, ◌+◌, ◌++◌, ◌∷◌, ◌==◌, [], ℕ, None, cond, All, IfOk, OnOk, length, map, nat_eq};
ghost use Rattle.std.specs.List.{IsDistinct};
ghost use Rattle.std.specs.List.Sorted.{IsNonDecreasingBy, IsPermutation};
ghost use Rattle.node_table.specs.Building.{AgreeBut, GrowBy, IsDirectoryAfter, IsDirectoryOf, IsComplete, IsWith, IsBuiltFrom, entries_for, has_home, home_after, home_by, limit_for, listed_member, CanBuild};
ghost use Rattle.node_table.specs.Columns.{AreRowsWithin};
ghost use Rattle.schemes.specs.Ports.{neighbours};
ghost use Rattle.node_table.specs.RowLists.{AreReached, nodes_numbered, rows_by};
ghost use Rattle.schemes.specs.Schemes.{IsSchemeUnder};
ghost use Rattle.schemes.specs.Tables.{value_at, items_at};

use crate::columns::{entry_of, number_reached};
use crate::numbering::{ByLists, ByTrees, Numbering};
use crate::partial::PartialScheme;
use crate::survey::Survey;
use clusters::cluster_in;
use distances::{Linked, Nearest, Workspace, from_landmarks};
use graph_edits::Graph;
use heavy_labels::{Label, Numbered, NumberedMember};
use landmarks::Landmarks;
use schemes::{Entry, Listed, Near, Parts, Scheme, graph_is_sound};
use std::alloc::{AllocError, Allocator, Global};

/// For how many entries a list has room at first. A node is in many trees, so a smaller list would only grow more often.
const LEAST_ROOM: usize = 4;

/// A list with an entry more. A full list grows by a quarter: where it doubles, a third of what the lists take lies unused.
fn push_entry(list: &mut Vec<Entry>, entry: Entry) -> Result<(), AllocError>
    ensures { OnOk result (list.new.items ≡ list.old.items ++ entry ∷ []) }
{
    if list.len() == list.capacity() {
        list.reserve_exact(list.len() / 4 + LEAST_ROOM)?;
    }
    list.push(entry)?;
    Ok(())
}

/// The lists with an entry more at one place.
fn push_at(lists: &mut Vec<Vec<Entry>>, at: usize, entry: Entry) -> Result<(), AllocError>
    requires { at < length lists.old.items }
    ensures { OnOk result (GrowBy lists.old.items lists.new.items (λ x. cond (at == x) (entry ∷ []) [])) }
{
    push_entry(&mut lists[at], entry)?;
    Ok(())
}

/// The entry of each numbered member for the root, at the end of its node's.
fn add_entries(
    entries: &mut Vec<Vec<Entry>>,
    root: u16,
    reached: &[Linked],
    places: &[u16],
    numbered: &[NumberedMember],
) -> Result<(), AllocError>
    requires entries { All (λ n. n.node < length entries.old.items) numbered.now }
    requires reached { AreReached reached.now places.now numbered.now }
    ensures { OnOk result (GrowBy entries.old.items entries.new.items
        (λ x. entries_for x (rows_by root reached.now places.now numbered.now))) }
{
    for member in numbered {
        let entry = entry_of(root, reached, places, member);
        push_at(entries, member.node as usize, entry)?;
    }
    Ok(())
}

/// A numbered member's node with its label.
fn listed(member: NumberedMember) -> Listed
    ensures { result ≡ listed_member member }
{
    let NumberedMember { node, label, .. } = member;
    Listed { node, label }
}

/// The nodes of numbered members with their labels, in the same order.
fn listed_members(alloc: Global, numbered: Numbered) -> Result<Vec<Listed>, AllocError>
    ensures { IfOk result (λ all. all.items ≡ map listed_member numbered.items) }
{
    let mut all = Vec::with_capacity(alloc, numbered.len())?;
    for member in numbered {
        all.push(listed(member))?;
    }
    Ok(all)
}

/// Sorts a directory by node.
fn sort_by_node(directory: &mut Vec<Listed>)
    ensures same { IsPermutation directory.old.items directory.new.items }
    ensures ascend { IsNonDecreasingBy (λ e. e.node) directory.new.items }
{
    directory.sort_unstable_by_key(|listed| listed.node);
}

/// The directory of a root out of its numbered members.
fn directory(alloc: Global, numbered: Numbered) -> Result<Vec<Listed>, AllocError>
    requires { IsDistinct nat_eq (nodes_numbered numbered.items) }
    ensures { IfOk result (λ all. IsDirectoryOf (map listed_member numbered.items) all.items) }
{
    let mut all = listed_members(alloc, numbered)?;
    sort_by_node(&mut all);
    Ok(all)
}

/// Whether a node's nearest landmark is this one.
fn is_home(near: Option<Near>, root: u16) -> bool
    ensures { result ≡ has_home near root }
{
    match near {
        Some(near) => near.landmark == root,
        None => false,
    }
}

/// The home label of a node, if its nearest landmark is the root of the tree in which it has that label.
fn set_home(homes: &mut [Option<Label>], at: usize, near: Option<Near>, root: u16, label: &Label)
    requires { at < length homes.old }
    ensures { (v : ℕ) → value_at homes.new v
        ≡ cond (at == v) (home_by near root label.now (value_at homes.old v)) (value_at homes.old v) }
{
    if !is_home(near, root) {
        return;
    }
    homes[at] = Some(label.copy());
}

/// The home labels of the numbered members whose nearest landmark is the root.
fn set_homes(
    homes: &mut [Option<Label>],
    nearest: &[Option<Near>],
    root: u16,
    numbered: &[NumberedMember],
)
    requires homes { All (λ n. n.node < length homes.old) numbered.now }
    requires nearest { All (λ n. n.node < length nearest.now) numbered.now }
    ensures { (v : ℕ) → value_at homes.new v
        ≡ home_after (value_at nearest.now v) root (map listed_member numbered.now) v (value_at homes.old v) }
{
    for member in numbered {
        let at = member.node as usize;
        set_home(homes, at, nearest[at], root, &member.label);
    }
}

/// The directory of a root that is no landmark.
fn set_directory(
    alloc: Global,
    directories: &mut Vec<Vec<Listed>>,
    root: u16,
    landmark: bool,
    numbered: Numbered,
) -> Result<(), AllocError>
    requires root { root < length directories.old.items }
    requires apart { IsDistinct nat_eq (nodes_numbered numbered.items) }
    ensures length { OnOk result (length directories.new.items ≡ length directories.old.items) }
    ensures here { OnOk result (IsDirectoryAfter landmark (map listed_member numbered.items)
        (items_at directories.old.items root) (items_at directories.new.items root)) }
    ensures others { OnOk result (AgreeBut root (items_at directories.old.items) (items_at directories.new.items)) }
{
    if landmark {
        return Ok(());
    }
    directories[root as usize] = directory(alloc, numbered)?;
    Ok(())
}

/// The rows of a root's tree, in the tables: each numbered member has its entry and its label. The places tell where it was
/// reached.
fn add_rows(
    alloc: Global,
    parts: &mut Parts,
    root: u16,
    reached: &[Linked],
    places: &[u16],
    numbered: Numbered,
) -> Result<(), AllocError>
    requires landmarks { root < length parts.old.landmarks.items }
    requires directories { root < length parts.old.directories.items }
    requires entries { All (λ n. n.node < length parts.old.entries.items) numbered.items }
    requires homes { All (λ n. n.node < length parts.old.homes.items) numbered.items }
    requires nearest { All (λ n. n.node < length parts.old.nearest.items) numbered.items }
    requires reached { AreReached reached.now places.now numbered.items }
    requires apart { IsDistinct nat_eq (nodes_numbered numbered.items) }
    ensures { OnOk result (IsWith parts.old root
        (rows_by root reached.now places.now numbered.items) (map listed_member numbered.items) parts.new) }
{
    let members = numbered.as_slice();
    add_entries(&mut parts.entries, root, reached, places, members)?;
    let landmark = parts.landmarks[root as usize];
    set_homes(
        parts.homes.as_mut_slice(),
        parts.nearest.as_slice(),
        root,
        members,
    );
    set_directory(alloc, &mut parts.directories, root, landmark, numbered)
}

/// The numbered members of a root's tree: what a landmark reaches, or the cluster of another node. The workspace then holds
/// what was reached, and the places tell where.
fn root_members<N: Numbering>(
    alloc: Global,
    survey: &Survey<'_>,
    workspace: &mut Workspace,
    places: &mut [u16],
    root: u16,
    numbering: &N,
) -> Result<Numbered, AllocError>
    requires inside { root < survey.now.graph.now.nodes }
    requires known { IsComplete survey.now }
    requires workspace { workspace.old.nodes ≡ survey.now.graph.now.nodes }
    requires places { length places.old ≡ survey.now.graph.now.nodes }
    ensures workspace { workspace.new.nodes ≡ workspace.old.nodes }
    ensures apart { IfOk result (λ numbered. IsDistinct nat_eq (nodes_numbered numbered.items)) }
    ensures inside { IfOk result (λ numbered. All (λ n. n.node < survey.now.graph.now.nodes) numbered.items) }
    ensures reached { IfOk result (λ numbered. AreReached workspace.new.members places.new numbered.items) }
    ensures column { IfOk result (λ numbered.
        AreRowsWithin survey.now.graph.now (limit_for survey.now.landmarks.now survey.now.nearest.now.nearest root) root
        (rows_by root workspace.new.members places.new numbered.items)) }
{
    let graph = survey.graph;
    graph_is_sound(graph);
    if survey.landmarks.holds(root) {
        workspace.from_root(graph, root)?;
        return number_reached(alloc, graph, root, workspace.members(), places, numbering);
    }
    cluster_in(workspace, graph, survey.nearest, root)?;
    number_reached(alloc, graph, root, workspace.members(), places, numbering)
}

fn ports_of(alloc: Global, graph: &Graph, x: u16) -> Result<Vec<u16>, AllocError>
    requires { x < graph.now.nodes }
    ensures { IfOk result (λ ports. ports.items ≡ neighbours graph.now x) }
{
    graph.neighbours(x).iter().map(|edge| edge.0).collect(alloc)
}

/// The neighbours of each node.
fn all_ports(alloc: Global, graph: &Graph) -> Result<Vec<Vec<u16>>, AllocError>
    ensures length { IfOk result (λ all. length all.items ≡ graph.now.nodes) }
    ensures each { IfOk result (λ all. (x : ℕ) → x < graph.now.nodes → items_at all.items x ≡ neighbours graph.now x) }
{
    let nodes = graph.nodes();
    let mut all = Vec::with_capacity(alloc, nodes as usize)?;
    for x in 0..nodes {
        all.push(ports_of(alloc, graph, x)?)?;
    }
    Ok(all)
}

/// An empty list for each node.
fn empty_lists<T: Drop>(alloc: Global, nodes: u16) -> Result<Vec<Vec<T>>, AllocError>
    ensures length { IfOk result (λ all. length all.items ≡ nodes) }
    ensures empty { IfOk result (λ all. (x : ℕ) → items_at all.items x ≡ []) }
{
    let mut all = Vec::with_capacity(alloc, nodes as usize)?;
    for _x in 0..nodes {
        all.push(Vec::new(alloc))?;
    }
    Ok(all)
}

/// No home label for any node.
fn no_homes(alloc: Global, nodes: u16) -> Result<Vec<Option<Label>>, AllocError>
    ensures length { IfOk result (λ all. length all.items ≡ nodes) }
    ensures none { IfOk result (λ all. (v : ℕ) → value_at all.items v ≡ None) }
{
    let mut all = Vec::with_capacity(alloc, nodes as usize)?;
    for _x in 0..nodes {
        all.push(None)?;
    }
    Ok(all)
}

/// The nearest landmark of each node.
fn nearest_list(
    alloc: Global,
    nodes: u16,
    nearest: &Nearest,
) -> Result<Vec<Option<Near>>, AllocError>
    requires { length nearest.now.nearest ≡ nodes }
    ensures { IfOk result (λ all. all.items ≡ nearest.now.nearest) }
{
    let mut all = Vec::with_capacity(alloc, nodes as usize)?;
    for v in 0..nodes {
        all.push(nearest.of(v))?;
    }
    Ok(all)
}

fn flag_list(alloc: Global, landmarks: &Landmarks) -> Result<Vec<bool>, AllocError>
    ensures { IfOk result (λ all. all.items ≡ landmarks.now) }
{
    let flags = landmarks.flags();
    let mut all = Vec::with_capacity(alloc, flags.len())?;
    for flag in flags {
        all.push(*flag)?;
    }
    Ok(all)
}

/// The tables without a tree: what a range of roots that begins with this one has at first.
fn empty_parts(alloc: Global, survey: &Survey<'_>, first: u16) -> Result<Parts, AllocError>
    requires { IsComplete survey.now }
    ensures { IfOk result (λ parts. IsBuiltFrom survey.now parts first first) }
{
    let nodes = survey.graph.nodes();
    Ok(Parts {
        nodes,
        generation: survey.generation,
        landmarks: flag_list(alloc, survey.landmarks)?,
        ports: all_ports(alloc, survey.graph)?,
        nearest: nearest_list(alloc, nodes, survey.nearest)?,
        entries: empty_lists(alloc, nodes)?,
        directories: empty_lists(alloc, nodes)?,
        homes: no_homes(alloc, nodes)?,
    })
}

/// The trees of the roots from the first to below the last, one after the other, over one workspace: the members of each are
/// numbered, and their rows put into the tables.
fn add_roots<N: Numbering>(
    alloc: Global,
    survey: &Survey<'_>,
    parts: &mut Parts,
    first: u16,
    last: u16,
    numbering: &N,
) -> Result<(), AllocError>
    requires range { CanBuild survey.now first last }
    requires built { IsBuiltFrom survey.now parts.old first first }
    ensures { OnOk result (IsBuiltFrom survey.now parts.new first last) }
{
    let nodes = survey.graph.nodes();
    let mut workspace = Workspace::new(alloc, nodes)?;
    let mut room = vec![in alloc; 0; nodes as usize]?;
    let places = room.as_mut_slice();
    for root in first..last {
        let numbered = root_members(alloc, survey, &mut workspace, places, root, numbering)?;
        add_rows(alloc, parts, root, workspace.members(), places, numbered)?;
    }
    Ok(())
}

/// What a build has of the roots from the first to below the last: their trees. They are numbered over lists, as
/// [`build_by_lists`] does it, and nothing of the scratch is kept. An `Err` means that memory was refused.
pub fn build_between<A: Allocator + Clone>(
    alloc: Global,
    survey: &Survey<'_>,
    first: u16,
    last: u16,
    scratch: A,
) -> Result<PartialScheme, AllocError>
    requires { CanBuild survey.now first last }
    ensures { IfOk result (λ partial. IsBuiltFrom survey.now partial first last) }
{
    let mut parts = empty_parts(alloc, survey, first)?;
    let lists = ByLists { scratch };
    add_roots(alloc, survey, &mut parts, first, last, &lists)?;
    Ok(PartialScheme::of(parts, first, last))
}

/// The scheme of all roots, whose trees are numbered one after the other.
fn build_by<N: Numbering>(
    alloc: Global,
    graph: &Graph,
    landmarks: &Landmarks,
    generation: u64,
    numbering: &N,
) -> Result<Scheme, AllocError>
    requires same_size { length landmarks.now ≡ graph.now.nodes }
    ensures { IfOk result (λ scheme. IsSchemeUnder graph.now landmarks.now generation scheme) }
{
    let nearest = from_landmarks(alloc, graph, landmarks)?;
    let survey = Survey {
        graph,
        landmarks,
        nearest: &nearest,
        generation,
    };
    let mut parts = empty_parts(alloc, &survey, 0)?;
    add_roots(alloc, &survey, &mut parts, 0, graph.nodes(), numbering)?;
    let scheme = PartialScheme::of(parts, 0, graph.nodes()).finish(alloc, graph)?;
    Ok(scheme)
}

/// The scheme of a graph with these landmarks: all eight rules hold of it, so it serves the graph. Each root's tree is grown
/// in an arena made for it over the scratch; the scheme keeps nothing of that, and is the same for every scratch. Trees are as
/// deep as the graph has nodes, so a large graph needs a thread with a large stack. An `Err` means that memory was refused.
pub fn build<A: Allocator + Clone>(
    alloc: Global,
    graph: &Graph,
    landmarks: &Landmarks,
    generation: u64,
    scratch: A,
) -> Result<Scheme, AllocError>
    requires same_size { length landmarks.now ≡ graph.now.nodes }
    ensures { IfOk result (λ scheme. IsSchemeUnder graph.now landmarks.now generation scheme) }
{
    build_by(alloc, graph, landmarks, generation, &ByTrees { scratch })
}

/// The same scheme, made without trees: each root's members are numbered over a few lists, which lie in an arena made for them
/// over the scratch. It takes less time than [`build`], and any stack will do. An `Err` means that memory was refused.
pub fn build_by_lists<A: Allocator + Clone>(
    alloc: Global,
    graph: &Graph,
    landmarks: &Landmarks,
    generation: u64,
    scratch: A,
) -> Result<Scheme, AllocError>
    requires same_size { length landmarks.now ≡ graph.now.nodes }
    ensures { IfOk result (λ scheme. IsSchemeUnder graph.now landmarks.now generation scheme) }
{
    build_by(alloc, graph, landmarks, generation, &ByLists { scratch })
}
