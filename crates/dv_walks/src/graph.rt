//! Graphs.
ghost use Rattle.std.specs.Prelude.{◌≡◌, ◌<◌, ◌≤◌, length, slice_set, true};
ghost use Rattle.dv_walks.specs.Graph.{AddsEnd, AddsLead, AddsLimit, GraphState, IsFresh, ends_at, leads, limit_of};

use std::marker::Model;

/// How many nodes a graph has at most.
pub const NODE_LIMIT: usize = 16;

/// A graph whose nodes are the numbers below its size. One node leads to another or doesn't, at some nodes a walk may end, and
/// a node may have a limit for the place at which it stands in a walk.
#[derive(Drop)]
pub struct Graph {
    size: usize,
    leads: [[bool; NODE_LIMIT]; NODE_LIMIT],
    ends: [bool; NODE_LIMIT],
    limits: [Option<usize>; NODE_LIMIT],
}

impl Model for Graph {
    ghost use Rattle.std.specs.Prelude.{◌≤◌};
    ghost use Rattle.dv_walks.specs.Graph.{GraphState};
    ghost use Rattle.dv_walks.specs.declared.graph.TheConstants.{NODE_LIMIT};

    ghost Value = { GraphState };

    ghost view = { λ g. record { size = g.size; leads = g.leads; ends = g.ends; limits = g.limits } };

    ghost invariant = { λ g. g.size ≤ NODE_LIMIT };
}

// Sets one entry.
fn mark(row: &mut [bool; NODE_LIMIT], place: usize)
    requires { place < NODE_LIMIT }
    ensures after { row.new ≡ slice_set row.old place true }
    ensures length { length row.old ≡ NODE_LIMIT }
{
    row[place] = true;
}

impl Graph {
    /// A graph of so many nodes in which nothing leads anywhere, no walk may end, and no node has a limit.
    pub fn new(size: usize) -> Graph
        requires { size ≤ NODE_LIMIT }
        ensures { IsFresh size result }
    {
        Graph {
            size,
            leads: [[false; NODE_LIMIT]; NODE_LIMIT],
            ends: [false; NODE_LIMIT],
            limits: [None; NODE_LIMIT],
        }
    }

    /// How many nodes it has.
    pub fn size(&self) -> usize
        ensures value { result ≡ self.now.size }
        ensures within { result ≤ NODE_LIMIT }
    {
        self.size
    }

    /// Whether one node leads to another.
    pub fn leads(&self, from: usize, to: usize) -> bool
        requires from { from < self.now.size }
        requires to { to < self.now.size }
        ensures { result ≡ leads self.now from to }
    {
        prove!(from < self.size);
        self.leads[from][to]
    }

    /// Whether a walk may end at a node.
    pub fn ends_at(&self, node: usize) -> bool
        requires { node < self.now.size }
        ensures { result ≡ ends_at self.now node }
    {
        self.ends[node]
    }

    /// The limit of a node.
    pub fn limit_of(&self, node: usize) -> Option<usize>
        requires { node < self.now.size }
        ensures { result ≡ limit_of self.now node }
    {
        prove!(node < self.size);
        self.limits[node]
    }

    /// Lets one node lead to another.
    pub fn lead(&mut self, from: usize, to: usize)
        requires from { from < self.old.size }
        requires to { to < self.old.size }
        ensures { AddsLead self.old self.new from to }
    {
        prove!(from < self.size);
        mark(&mut self.leads[from], to);
    }

    /// Lets walks end at a node.
    pub fn end_at(&mut self, node: usize)
        requires { node < self.old.size }
        ensures { AddsEnd self.old self.new node }
    {
        self.ends[node] = true;
    }

    /// Gives a node a limit: in a walk at most so many nodes stand between the start and it.
    pub fn limit(&mut self, node: usize, bound: usize)
        requires { node < self.old.size }
        ensures { AddsLimit self.old self.new node bound }
    {
        prove!(node < self.size);
        self.limits[node] = Some(bound);
    }
}
