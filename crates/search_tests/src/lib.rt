//! Tests of graphs, of landmarks, and of the searches for least distances, nearest landmarks and clusters.
//!
//! There is nothing here but tests: so the crates below are proved once in the gate, and not again with their tests. Each call of
//! [`graph_edits`] and [`landmarks`] is made, with its refusals and its limits. The answers of [`distances`] and [`clusters`] on drawn graphs are compared with those of slow
//! searches that stand here: Bellman and Ford's over every edge, a scan over all nodes, and the definition of a cluster. These are plain,
//! know a graph by its edges alone, and share no code with what they judge. The longest path of the heaviest edges is searched too:
//! there the distances are those on a line. Small graphs whose distances are known are searched with each answer written out.
#![tactic(auto)]

#[cfg(test)]
mod calls;
#[cfg(test)]
mod chosen_landmarks;
#[cfg(test)]
mod cluster_searches;
#[cfg(test)]
mod drawn;
#[cfg(test)]
mod graphs;
#[cfg(test)]
mod helpers;
#[cfg(test)]
mod searches;
#[cfg(test)]
mod slow;
#[cfg(test)]
mod worked_clusters;
#[cfg(test)]
mod worked_searches;
