// The second checker: the eight rules, one after the other, each at all nodes; and the tree of a root, made as the parents give it.
use certificate::Fault;
use heavy_labels::{Label, Record};
use sample_networks::PlainGraph;
use schemes::{Entry, Near, Parts};
use std::alloc::{AllocError, Global};

/// The list of a node.
pub(crate) fn list<T>(lists: &[Vec<T>], x: u16) -> &[T] {
    match lists.get(x as usize) {
        Some(list) => list.as_slice(),
        None => &[],
    }
}

/// A node's entry for a root.
pub(crate) fn entry(parts: &Parts, x: u16, root: u16) -> Option<&Entry> {
    let mut entries = list(&parts.entries, x).iter();
    entries.find(|entry| entry.root() == root)
}

pub(crate) fn is_landmark(parts: &Parts, x: u16) -> bool {
    parts.landmarks.get(x as usize).copied() == Some(true)
}

/// A node's nearest landmark.
pub(crate) fn nearest(parts: &Parts, x: u16) -> Option<Near> {
    parts.nearest.get(x as usize).copied().flatten()
}

/// The tree of a root, by what is known of each node.
#[derive(Drop)]
pub(crate) struct PlainTree {
    nodes: u16,
    /// The nodes on the way up to the root, itself the first.
    ways: Vec<Vec<u16>>,
    /// How many nodes stand at it and below it.
    sizes: Vec<usize>,
    /// The child of the greatest size, the smallest-numbered of those that are as great.
    heavy: Vec<Option<u16>>,
}

impl PlainTree {
    /// The tree of a root.
    pub(crate) fn made(
        alloc: Global,
        nodes: u16,
        parts: &Parts,
        root: u16,
    ) -> Result<PlainTree, AllocError> {
        let mut tree = PlainTree {
            nodes,
            ways: Vec::new(alloc),
            sizes: Vec::new(alloc),
            heavy: Vec::new(alloc),
        };
        for x in 0..nodes {
            let way = way_up(alloc, nodes, parts, root, x)?;
            tree.ways.push(way)?;
        }
        for y in 0..nodes {
            let size = tree.ways.iter().filter(|way| way.contains(&y)).count();
            tree.sizes.push(size)?;
        }
        for x in 0..nodes {
            let heavy = tree.heaviest(x);
            tree.heavy.push(heavy)?;
        }
        Ok(tree)
    }

    fn parent(&self, x: u16) -> Option<u16> {
        list(&self.ways, x).get(1).copied()
    }

    fn size(&self, x: u16) -> usize {
        self.sizes.get(x as usize).copied().unwrap_or(0)
    }

    fn heaviest(&self, x: u16) -> Option<u16> {
        let mut heavy: Option<u16> = None;
        for y in 0..self.nodes {
            let is_child = self.parent(y) == Some(x);
            if is_child && heavy.is_none_or(|other| self.size(other) < self.size(y)) {
                heavy = Some(y);
            }
        }
        heavy
    }

    fn heavy_child(&self, x: u16) -> Option<u16> {
        self.heavy.get(x as usize).copied().flatten()
    }

    /// Whether a node is a child that isn't the heavy one.
    fn is_light(&self, x: u16) -> bool {
        self.parent(x)
            .is_some_and(|above| self.heavy_child(above) != Some(x))
    }

    /// Whether a node comes before another child of its parent: the heavy child before all, the others in ascending order.
    fn comes_before(&self, y: u16, x: u16) -> bool {
        self.parent(y) == self.parent(x) && self.is_light(x) && (!self.is_light(y) || y < x)
    }

    /// A member's number: one for each node above it, and as many as stand at and below what comes before those on its way.
    fn number(&self, x: u16) -> usize {
        let mut number: usize = 0;
        for at in list(&self.ways, x) {
            if self.parent(*at).is_some() {
                number = number.saturating_add(1);
                for y in (0..self.nodes).filter(|y| self.comes_before(*y, *at)) {
                    number = number.saturating_add(self.size(y));
                }
            }
        }
        number
    }

    /// The greatest number at a member and below it.
    fn last(&self, x: u16) -> usize {
        let behind = self.number(x).saturating_add(self.size(x));
        behind.saturating_sub(1)
    }

    /// Whether a record is that of a member. A member without a heavy child is its own last one.
    pub(crate) fn is_record(&self, graph: &PlainGraph, x: u16, record: Record) -> bool {
        let (heavy, way) = (self.heavy_child(x), list(&self.ways, x));
        let depth = way.iter().filter(|at| self.is_light(**at)).count();
        self.number(x) == record.first as usize
            && self.last(x) == record.last as usize
            && self.last(heavy.unwrap_or(x)) == record.heavy_last as usize
            && depth == record.light_depth as usize
            && self.parent(x).and_then(|y| port(graph, x, y)) == record.parent_port
            && heavy.and_then(|y| port(graph, x, y)) == record.heavy_port
    }

    /// Whether a label is that of a member: its number, and the port of each light edge on the way from the root.
    pub(crate) fn is_label(&self, graph: &PlainGraph, x: u16, label: &Label) -> bool {
        let mut given = label.lights().iter();
        for at in list(&self.ways, x).iter().rev() {
            if self.is_light(*at) {
                let light = self.parent(*at).and_then(|y| port(graph, y, *at));
                if given.next().copied() != light {
                    return false;
                }
            }
        }
        given.next().is_none() && self.number(x) == label.first() as usize
    }
}

/// A node and those above it, as far as the parents lead.
fn way_up(
    alloc: Global,
    nodes: u16,
    parts: &Parts,
    root: u16,
    x: u16,
) -> Result<Vec<u16>, AllocError> {
    let mut way = vec![in alloc; x]?;
    let mut at = x;
    for _ in 0..nodes {
        let Some(above) = entry(parts, at, root).and_then(|entry| entry.parent()) else {
            break;
        };
        way.push(above)?;
        at = above;
    }
    Ok(way)
}

/// The port of a node to a neighbour: how many of its neighbours have smaller numbers.
fn port(graph: &PlainGraph, x: u16, y: u16) -> Option<u16> {
    graph.weight(x, y)?;
    let before = (0..y).filter(|z| graph.weight(x, *z).is_some()).count();
    u16::try_from(before).ok()
}

/// The rules, by what is said where one is broken.
pub(crate) const RULES: [Fault; 8] = [
    Fault::Shape,
    Fault::Edges,
    Fault::Parents,
    Fault::Strict,
    Fault::Nearest,
    Fault::Records,
    Fault::Labels,
    Fault::Directories,
];

/// Tables for a graph, and the tree of each root as their parents give it.
#[derive(Drop)]
struct Judged<'a> {
    graph: &'a PlainGraph,
    parts: &'a Parts,
    trees: Vec<PlainTree>,
}

/// The first rule that tables break for a graph, none where they keep all.
pub(crate) fn first_fault(
    alloc: Global,
    graph: &PlainGraph,
    parts: &Parts,
) -> Result<Option<Fault>, AllocError> {
    let mut trees = Vec::new(alloc);
    for root in 0..graph.nodes {
        trees.push(PlainTree::made(alloc, graph.nodes, parts, root)?)?;
    }
    let judged = Judged {
        graph,
        parts,
        trees,
    };
    let broken = |rule: &&Fault| (0..graph.nodes).any(|x| !judged.keeps(**rule, x));
    Ok(RULES.iter().find(broken).copied())
}

impl Judged<'_> {
    /// Whether a rule is kept at a node.
    fn keeps(&self, rule: Fault, x: u16) -> bool {
        let mut entries = list(&self.parts.entries, x).iter();
        match rule {
            Fault::Shape => self.has_places() && self.is_shaped(x),
            Fault::Nearest => self.has_nearest(x),
            Fault::Labels => self.has_labels(x),
            Fault::Directories => self.has_directory(x),
            _ => entries.all(|here| self.is_kept_by(rule, x, here)),
        }
    }

    /// Whether an entry of a node keeps a rule of entries.
    fn is_kept_by(&self, rule: Fault, x: u16, here: &Entry) -> bool {
        match rule {
            Fault::Edges => self.is_closed(x, here),
            Fault::Parents => here.parent().is_none() || here.parent() == self.first_giver(x, here),
            Fault::Strict => {
                let near = nearest(self.parts, x);
                let is_nearer = near.is_none_or(|near| here.distance() < near.distance);
                is_landmark(self.parts, here.root()) || is_nearer
            }
            _ => {
                let tree = self.trees.get(here.root() as usize);
                tree.is_some_and(|tree| tree.is_record(self.graph, x, here.tree_record()))
            }
        }
    }

    fn has_places(&self) -> bool {
        let n = self.graph.nodes as usize;
        let parts = self.parts;
        parts.nodes == self.graph.nodes
            && parts.landmarks.len() == n
            && parts.ports.len() == n
            && parts.nearest.len() == n
            && parts.entries.len() == n
            && parts.directories.len() == n
            && parts.homes.len() == n
    }

    fn is_shaped(&self, x: u16) -> bool {
        let entries = list(&self.parts.entries, x);
        self.has_ports(x)
            && entries.is_sorted_by(|before, after| before.root() < after.root())
            && entry(self.parts, x, x).is_some()
            && entries.iter().all(|here| self.is_entry_shaped(x, here))
    }

    /// Whether the ports of a node are the ascending list of its neighbours.
    fn has_ports(&self, x: u16) -> bool {
        let mut ports = list(&self.parts.ports, x).iter();
        for y in 0..self.graph.nodes {
            if self.graph.weight(x, y).is_some() && ports.next().copied() != Some(y) {
                return false;
            }
        }
        ports.next().is_none()
    }

    fn is_entry_shaped(&self, x: u16, here: &Entry) -> bool {
        if here.root() == x {
            return x < self.graph.nodes && here.distance() == 0 && here.parent().is_none();
        }
        let is_behind = |y: u16| {
            self.graph.weight(x, y).is_some() && entry(self.parts, y, here.root()).is_some()
        };
        here.root() < self.graph.nodes && here.parent().is_some_and(is_behind)
    }

    /// Whether over each edge the other node is within the distance of an entry.
    fn is_closed(&self, x: u16, here: &Entry) -> bool {
        (0..self.graph.nodes).all(|y| {
            self.graph.weight(x, y).is_none_or(|weight| {
                let most = here.distance() as u128 + weight as u128;
                self.is_within(here.root(), y, most)
            })
        })
    }

    /// Whether y is within a distance of the root, or of a landmark where y has no entry and the root is no landmark.
    fn is_within(&self, root: u16, y: u16, most: u128) -> bool {
        if let Some(there) = entry(self.parts, y, root) {
            return there.distance() as u128 <= most;
        }
        match nearest(self.parts, y) {
            Some(near) => !is_landmark(self.parts, root) && near.distance as u128 <= most,
            None => false,
        }
    }

    /// The smallest-numbered neighbour whose distance and edge give the distance of an entry.
    fn first_giver(&self, x: u16, here: &Entry) -> Option<u16> {
        let gives = |y: &u16| match (self.graph.weight(x, *y), entry(self.parts, *y, here.root())) {
            (Some(weight), Some(there)) => {
                there.distance() as u128 + weight as u128 == here.distance() as u128
            }
            _ => false,
        };
        (0..self.graph.nodes).find(gives)
    }

    /// Whether the nearest landmark is the least of a node's entries for landmarks, of several the one for the smallest landmark.
    fn has_nearest(&self, x: u16) -> bool {
        let mut least: Option<(u64, u16)> = None;
        for here in list(&self.parts.entries, x) {
            let found = (here.distance(), here.root());
            if is_landmark(self.parts, here.root()) && least.is_none_or(|least| found < least) {
                least = Some(found);
            }
        }
        least == nearest(self.parts, x).map(|near| (near.distance, near.landmark))
    }

    fn has_labels(&self, u: u16) -> bool {
        let mut directory = list(&self.parts.directories, u).iter();
        let listed = directory.all(|listed| {
            entry(self.parts, listed.node, u).is_none()
                || self.is_label_in(u, listed.node, &listed.label)
        });
        match (self.home(u), nearest(self.parts, u)) {
            (Some(label), Some(near)) => listed && self.is_label_in(near.landmark, u, label),
            _ => listed,
        }
    }

    fn is_label_in(&self, root: u16, x: u16, label: &Label) -> bool {
        let tree = self.trees.get(root as usize);
        tree.is_some_and(|tree| tree.is_label(self.graph, x, label))
    }

    /// A node's label in the tree of its nearest landmark.
    fn home(&self, v: u16) -> Option<&Label> {
        self.parts.homes.get(v as usize)?.as_ref()
    }

    /// Whether a directory is exactly the ascending list of the nodes with an entry for its root, or empty at a landmark, and there is
    /// a label for the nearest landmark where there is one.
    fn has_directory(&self, u: u16) -> bool {
        let directory = list(&self.parts.directories, u);
        let mut count = 0usize;
        for v in 0..self.graph.nodes {
            if !is_landmark(self.parts, u) && entry(self.parts, v, u).is_some() {
                if directory.get(count).is_none_or(|listed| listed.node != v) {
                    return false;
                }
                count = count.saturating_add(1);
            }
        }
        count == directory.len() && self.home(u).is_some() == nearest(self.parts, u).is_some()
    }
}
