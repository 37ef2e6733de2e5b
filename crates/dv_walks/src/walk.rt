//! The search for the least walk.
ghost use Rattle.std.specs.Prelude.{◌≡◌, ◌<◌, ◌≤◌, ℕ, List, All, IfNone, IfOk, IfSome, MatchOption, length, map, vec_len};
ghost use Rattle.dv_walks.specs.Walk.{IsAllowed, IsLeastWalk, IsWalk};
ghost use Rattle.dv_walks.specs.Search.{IsLeastOf, IsLeastRowWalk, IsRowWalk, Reaches};

use crate::graph::Graph;
use crate::layer::{layer, least_next};
use crate::order::lesser;
use std::alloc::{AllocError, Global};

/// How many nodes a walk has at most.
pub const WALK_LIMIT: usize = 6;

/// The lowest walk from the start by so many further nodes, all usable.
fn lowest_walk(
    alloc: Global,
    graph: &Graph,
    usable: &[bool],
    start: usize,
    further: usize,
) -> Result<Vec<usize>, AllocError>
    requires usable { length usable.now ≡ graph.now.size }
    requires reaches { Reaches graph.now usable.now further 0 start }
    ensures { IfOk result (λ walk. IsLeastOf graph.now usable.now further start walk.items) }
{
    let mut walk = Vec::new(alloc);
    walk.push(start)?;
    let mut node = start;
    for place in 0..further {
        let onward = layer(graph, usable, place + 1, further - 1 - place);
        node = least_next(graph, node, &onward).unwrap();
        walk.push(node)?;
    }
    Ok(walk)
}

/// The least walk from the start through usable nodes alone.
fn least_by_row(
    alloc: Global,
    graph: &Graph,
    usable: &[bool],
    start: usize,
) -> Result<Option<Vec<usize>>, AllocError>
    requires start { start < graph.now.size }
    requires usable { length usable.now ≡ graph.now.size }
    ensures { IfOk result (λ found. MatchOption found ((walk : List ℕ) → ¬ IsRowWalk graph.now usable.now start walk)
        (λ walk. IsLeastRowWalk graph.now usable.now start walk.items)) }
{
    if !usable[start] {
        return Ok(None);
    }
    let size = graph.size();
    prove!(start < size);
    for further in 0..WALK_LIMIT {
        if layer(graph, usable, 0, further)[start] {
            return Ok(Some(lowest_walk(alloc, graph, usable, start, further)?));
        }
    }
    Ok(None)
}

/// The least walk from a node of which some row allows each member, where there is one. A row says of each node whether it is
/// allowed.
pub fn find_walk(
    alloc: Global,
    graph: &Graph,
    rows: &[Vec<bool>],
    start: usize,
) -> Result<Option<Vec<usize>>, AllocError>
    requires start { start < graph.now.size }
    requires rows { All (λ row. vec_len row ≡ graph.now.size) rows.now }
    ensures found { IfOk result (λ found. IfSome found (λ walk.
        IsLeastWalk graph.now (map (λ row. row.items) rows.now) start walk.items)) }
    ensures none { IfOk result (λ found. IfNone found ((walk : List ℕ) → IsWalk graph.now start walk
        → ¬ IsAllowed (map (λ row. row.items) rows.now) walk)) }
{
    let mut best = None;
    for row in rows {
        let found = least_by_row(alloc, graph, row, start)?;
        best = lesser(best, found);
    }
    Ok(best)
}
