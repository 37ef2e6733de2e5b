//! From which nodes an end can be reached.
ghost use Rattle.std.specs.Prelude.{◌≡◌, ◌↔◌, ◌<◌, ◌≤◌, ◌+◌, ◌^◌, ℕ, IsTrue, MatchOption, length};
ghost use Rattle.dv_walks.specs.Search.{IsLayer, IsLayerBefore, IsLeastNext, IsNext, Stands};

use crate::graph::{Graph, NODE_LIMIT};

/// For each node, whether it may stand at a certain place of a walk and be gone on from by a certain number of nodes to an end.
pub(crate) type Layer = [bool; NODE_LIMIT];

/// Whether a node may stand at a place.
fn may_stand(graph: &Graph, usable: &[bool], place: usize, node: usize) -> bool
    requires node { node < graph.now.size }
    requires usable { length usable.now ≡ graph.now.size }
    ensures { IsTrue result ↔ Stands graph.now usable.now place node }
{
    if !usable[node] {
        return false;
    }
    match graph.limit_of(node) {
        None => true,
        Some(bound) => place.saturating_sub(1) <= bound,
    }
}

/// The layer of a last place.
fn last_layer(graph: &Graph, usable: &[bool], place: usize) -> Layer
    requires { length usable.now ≡ graph.now.size }
    ensures { IsLayer graph.now usable.now 0 place result }
{
    let mut layer = [false; NODE_LIMIT];
    for node in 0..graph.size() {
        layer[node] = may_stand(graph, usable, place, node) && graph.ends_at(node);
    }
    layer
}

/// The layer of a place from that of the next.
fn layer_before(graph: &Graph, usable: &[bool], place: usize, next: &Layer) -> Layer
    requires { length usable.now ≡ graph.now.size }
    ensures { IsLayerBefore graph.now usable.now place next.now result }
{
    let mut layer = [false; NODE_LIMIT];
    for node in 0..graph.size() {
        layer[node] = may_stand(graph, usable, place, node)
            && least_next(graph, node, next).is_some();
    }
    layer
}

/// The layer of a place, for so many further nodes. It is worked out from the last place on.
pub(crate) fn layer(graph: &Graph, usable: &[bool], place: usize, further: usize) -> Layer
    requires usable { length usable.now ≡ graph.now.size }
    requires place { place + further < 2 ^ 64 }
    ensures { IsLayer graph.now usable.now further place result }
{
    let mut layer = last_layer(graph, usable, place + further);
    for back in 0..further {
        layer = layer_before(graph, usable, place + (further - 1 - back), &layer);
    }
    layer
}

/// The least node to which a node leads and which has an entry in a layer.
pub(crate) fn least_next(graph: &Graph, node: usize, layer: &Layer) -> Option<usize>
    requires { node < graph.now.size }
    ensures { MatchOption result ((next : ℕ) → next < graph.now.size → ¬ IsNext graph.now layer.now node next)
        (IsLeastNext graph.now layer.now node) }
{
    for next in 0..graph.size() {
        if layer[next] && graph.leads(node, next) {
            return Some(next);
        }
    }
    None
}
