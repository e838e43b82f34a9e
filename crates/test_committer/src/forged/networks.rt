// Drawn networks, and a board with their schemes posted.
ghost use Rattle.std.specs.Prelude.{◌≡◌, ◌+◌, ◌<◌, []};
ghost use Rattle.generations.specs.Notices.{notice_of};
ghost use Rattle.generations.specs.Posts.{with_posted};
ghost use Rattle.test_committer.specs.InARow.{IsInARow, MayFollow};

use crate::seats::{got, popped};
use forwarders::Forwarder;
use generations::{BoardWriter, MOST_SHELVED, Posting, board};
use rand_core::Rng;
use rand_xoshiro::Xoshiro256PlusPlus;
use requests::SESSIONS;
use sample_networks::{Edge, PlainGraph, drawn_edges, drawn_nodes, graph_of, words_at};
use scheme_builds::scheme_of;
use schemes::Scheme;
use std::alloc::{AllocError, Global};
use std::process::Abort;
use std::sync::{Arc, Wait};

/// The most nodes of a drawn network.
const MOST_DRAWN: u64 = 24;

/// A number below another one, 0 where there is none.
pub(crate) fn below(rng: &mut Xoshiro256PlusPlus, limit: u64) -> u64 {
    rng.next_u64().checked_rem(limit).unwrap_or(0)
}

/// The same among the first few numbers.
pub(crate) fn number(rng: &mut Xoshiro256PlusPlus, limit: u16) -> u16 {
    u16::try_from(below(rng, limit as u64)).unwrap_or(0)
}

/// For each node its neighbours in ascending order.
pub(crate) type Network = Vec<Vec<u16>>;

fn neighbours_of(rt: &impl Abort, alloc: Global, nodes: u16, edges: &[Edge]) -> Network {
    let plain = got(rt, PlainGraph::new(alloc, nodes, edges));
    let mut network = Vec::new(alloc);
    for node in 0..nodes {
        let neighbours = got(rt, plain.neighbours(alloc, node));
        got(rt, network.push(neighbours));
    }
    network
}

/// A drawn network of 1 to 24 nodes, with edges of weight 1 to 6 and with one node in three a landmark, or nearly none; and its scheme.
fn drawn_network(
    rt: &impl Abort,
    alloc: Global,
    rng: &mut Xoshiro256PlusPlus,
    generation: u64,
) -> (Network, Scheme) {
    let nodes = 1 + (rng.next_u64() % MOST_DRAWN) as u16;
    let chance = 1 + rng.next_u64() % 9;
    let edges = got(rt, drawn_edges(alloc, rng, nodes, 6, (chance, 10)));
    let one_in = 3 + 20 * (rng.next_u64() % 2);
    let at = got(rt, drawn_nodes(alloc, rng, nodes, (1, one_in)));
    let graph = got(rt, graph_of(alloc, nodes, &edges));
    let words = got(rt, words_at(alloc, nodes, &at));
    let scheme = got(rt, scheme_of(alloc, &graph, &words, generation, alloc));
    (neighbours_of(rt, alloc, nodes, &edges), scheme)
}

// Posts one posting.
fn post<R: Wait + Drop>(rt: &impl Abort, writer: &mut BoardWriter<R>, posting: Posting)
    requires nothing_kept { writer.old.kept ≡ [] }
    requires lawful { MayFollow writer.old (notice_of posting) }
    ensures { writer.new ≡ with_posted writer.old (notice_of posting) }
{
    match writer.post(posting) {
        Ok(()) => {}
        Err(_) => panic!(rt; "not posted"),
    }
}

/// Posts a scheme as the next generation.
fn post_scheme<R: Wait + Drop>(
    rt: &impl Abort,
    writer: &mut BoardWriter<R>,
    posted: u64,
    scheme: Arc<Scheme, Global>,
)
    requires row { IsInARow writer.old posted }
    requires few { posted < 1000 }
    ensures row { IsInARow writer.new (posted + 1) }
{
    let number = posted + 1;
    let _kept = writer.kept();
    post(rt, writer, Posting::Generation { number, scheme });
}

/// Posts drawn networks as the generations 1 to 4: which they are.
fn post_all<R: Wait + Drop>(
    rt: &impl Abort,
    alloc: Global,
    rng: &mut Xoshiro256PlusPlus,
    writer: &mut BoardWriter<R>,
) -> Vec<Network>
    requires { IsInARow writer.old 0 }
{
    let mut networks = Vec::new(alloc);
    for number in 0..MOST_SHELVED as u64 {
        let (network, scheme) = drawn_network(rt, alloc, rng, number + 1);
        got(rt, networks.push(network));
        post_scheme(rt, writer, number, got(rt, Arc::new(alloc, scheme)));
    }
    networks
}

/// Drawn networks, and a forwarder that looks at the board where they are the generations from 1 on.
pub(crate) fn posted<R: Wait + Abort + Copy + Drop>(
    rt: R,
    alloc: Global,
    rng: &mut Xoshiro256PlusPlus,
) -> Result<(Vec<Network>, BoardWriter<R>, Forwarder), AllocError> {
    let (mut writer, mut readers) = board(alloc, rt, 1, &[0; SESSIONS], 0)?;
    let forwarder = Forwarder::new(popped(&rt, &mut readers));
    let networks = post_all(&rt, alloc, rng, &mut writer);
    Ok((networks, writer, forwarder))
}
