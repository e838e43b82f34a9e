// Routes in a network with landmarks.
ghost use Rattle.std.specs.Prelude.{◌≡◌, ◌<◌, IfOk, MatchOption, length};
ghost use Rattle.distances.specs.Nearest.{KnowsNearest};
ghost use Rattle.single_route.specs.Answers.{IsAnswer};
ghost use Rattle.single_route.specs.LandmarkTrails.{IsApart, IsTrailBetween};

use crate::no_trail::NoTrail;
use crate::paths::path_between;
use crate::trees::find_tree;
use crate::ways::trail_over;
use distances::{Nearest, Workspace, from_landmarks};
use graph_edits::Graph;
use landmarks::Landmarks;
use schemes::Trail;
use std::alloc::{AllocError, Global};
use std::marker::Model;

/// Routes in one network with the same landmarks: the nearest landmark of each node, which is searched once, and room for the
/// searches of one route after another. It takes memory for the network's nodes and for what waits in a search; a route takes
/// that of the ways up from both its ends, and of its trail.
#[derive(Drop)]
pub struct Routes<'g> {
    alloc: Global,
    graph: &'g Graph,
    landmarks: &'g Landmarks,
    nearest: Nearest,
    workspace: Workspace,
}

impl<'g> Model for Routes<'g> {
    ghost use Rattle.std.specs.Prelude.{◌≡◌};
    ghost use Rattle.distances.specs.Nearest.{KnowsNearest};
    ghost use Rattle.single_route.specs.Answers.{Routes, routes_code};

    ghost Value = { Routes };

    ghost coded = { routes_code };

    ghost view = { λ r. record { graph = r.graph.now; flags = r.landmarks.now } };

    ghost invariant = { λ r. (r.workspace.nodes ≡ r.graph.now.nodes)
        × KnowsNearest r.graph.now r.landmarks.now r.nearest.nearest };
}

impl<'g> Routes<'g> {
    /// Routes in this network under these landmarks. An `Err` means that memory was refused.
    pub fn new(
        alloc: Global,
        graph: &'g Graph,
        landmarks: &'g Landmarks,
    ) -> Result<Routes<'g>, AllocError>
        requires { length landmarks.now ≡ graph.now.nodes }
        ensures { IfOk result (λ routes. routes ≡ record { graph = graph.now; flags = landmarks.now }) }
    {
        let nearest = from_landmarks(alloc, graph, landmarks)?;
        let workspace = Workspace::new(alloc, graph.nodes())?;
        Ok(Routes {
            alloc,
            graph,
            landmarks,
            nearest,
            workspace,
        })
    }

    /// The trail of a packet from a node to a node. Whatever it answers, the next route is found as if it were the first.
    pub fn route(&mut self, from: u16, to: u16) -> Result<Trail, NoTrail>
        ensures answer { IsAnswer self.old.graph self.old.flags from to result }
        ensures kept { self.new ≡ self.old }
    {
        let nodes = self.graph.nodes();
        if from >= nodes || to >= nodes {
            return Err(NoTrail::NoNode);
        }
        let found = trail_in(
            self.alloc,
            self.graph,
            self.landmarks,
            &self.nearest,
            &mut self.workspace,
            from,
            to,
        );
        match found {
            Ok(Some(trail)) => Ok(trail),
            Ok(None) => Err(NoTrail::Unreachable),
            Err(_) => Err(NoTrail::Memory),
        }
    }
}

/// The trail of a packet from a node to a node, if a walk leads there.
fn trail_in(
    alloc: Global,
    graph: &Graph,
    landmarks: &Landmarks,
    nearest: &Nearest,
    workspace: &mut Workspace,
    from: u16,
    to: u16,
) -> Result<Option<Trail>, AllocError>
    requires workspace { workspace.old.nodes ≡ graph.now.nodes }
    requires known { KnowsNearest graph.now landmarks.now nearest.now.nearest }
    requires from { from < graph.now.nodes }
    requires to { to < graph.now.nodes }
    ensures workspace { workspace.new.nodes ≡ workspace.old.nodes }
    ensures trail { IfOk result (λ found. MatchOption found (IsApart graph.now.edges from to)
        (λ trail. IsTrailBetween graph.now landmarks.now from to trail)) }
{
    // It tells that the graph is sound.
    let _sound = graph.nodes();
    if !find_tree(workspace, graph, landmarks, nearest, from, to)? {
        return Ok(None);
    }
    let path = path_between(alloc, workspace.members(), from, to)?;
    let trail = trail_over(alloc, graph, path)?;
    Ok(Some(trail))
}
