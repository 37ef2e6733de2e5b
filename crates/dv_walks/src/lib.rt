//! The least walk through a small graph.
//!
//! What it is for: a [`Graph`] says which of its nodes leads to which, where a walk may end, and how late a walk may stand at
//! a node. [`find_walk`] finds the least walk from a node to an end that some row of allowed nodes allows.
//!
//! What it promises: the walk that is found is a walk, a row allows each of its nodes, and no allowed walk is before it: none
//! is shorter, and none as long has the smaller number at the first place where they differ. Where none is found there is
//! none. What a walk is stands in specs/Walk.antt, which knows nothing of how it is found. The module [`laws`] says that there
//! is one least walk at most, and that graphs which agree below their size have the same walks.
//!
//! What it costs: for each row at most 36 times, those nodes of one place are marked from which an end can be reached, by those
//! of the next place, and that looks at each pair of nodes once at most. No list is tried in vain. Memory is taken for the walks
//! alone, one for each row at most.
//!
//! What it stands on: std alone.
#![tactic(auto)]

mod graph;
pub mod laws;
mod layer;
mod order;
mod walk;

pub use graph::{Graph, NODE_LIMIT};
pub use walk::{WALK_LIMIT, find_walk};

#[cfg(test)]
mod tests;
