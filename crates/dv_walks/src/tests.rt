//! Walks that were worked out by hand, and a comparison with a program that tries each list in its turn.
ghost use Rattle.std.specs.Prelude.{◌<◌, ◌≤◌};

use crate::{Graph, WALK_LIMIT, find_walk};
use std::alloc::{AllocError, Global};
use std::test::Fail;

/// A row that allows each node.
const ALL: u32 = 0xFFFF;

/// A graph of these edges, ends and limits.
fn graph_of(
    size: usize,
    edges: &[(usize, usize)],
    ends: &[usize],
    limits: &[(usize, usize)],
) -> Graph
    requires { size ≤ 16 }
{
    let mut graph = Graph::new(size);
    for (from, to) in edges {
        if *from < size && *to < size {
            graph.lead(*from, *to);
        }
    }
    for end in ends {
        if *end < size {
            graph.end_at(*end);
        }
    }
    for (node, bound) in limits {
        if *node < size {
            graph.limit(*node, *bound);
        }
    }
    graph
}

/// The row that allows the nodes whose bits are set.
fn row_of(alloc: Global, size: usize, bits: u32) -> Result<Vec<bool>, AllocError>
    requires { size ≤ 16 }
{
    let mut row = Vec::new(alloc);
    for node in 0..size {
        row.push(bits >> node & 1 == 1)?;
    }
    Ok(row)
}

/// The walk that is found, or no node where there is none.
fn found(alloc: Global, graph: &Graph, rows: &[u32], start: usize) -> Result<Vec<usize>, Fail> {
    let size = graph.size();
    let mut lists = Vec::new(alloc);
    for bits in rows {
        lists.push(row_of(alloc, size, *bits)?)?;
    }
    if start >= size || !lists.iter().all(|row| row.len() == size) {
        return Err(Fail::new("the rows or the start don't fit"));
    }
    Ok(find_walk(alloc, graph, &lists, start)?.unwrap_or(Vec::new(alloc)))
}

#[test]
fn finds_walks(rt: HostRuntime) -> Result<(), Fail> {
    let alloc = rt.alloc();

    // Of two ways only the second ends.
    let two_ways = graph_of(4, &[(0, 1), (0, 2), (2, 3)], &[3], &[]);
    let walk = found(alloc, &two_ways, &[ALL], 0)?;
    assert_eq!(rt; walk.as_slice(), [0, 2, 3].as_slice());

    // The way by the lower node is longer.
    let long_way = graph_of(5, &[(0, 1), (1, 2), (2, 4), (0, 3), (3, 4)], &[4], &[]);
    let walk = found(alloc, &long_way, &[ALL], 0)?;
    assert_eq!(rt; walk.as_slice(), [0, 3, 4].as_slice());

    // Of two ways that are as long the lower one comes, whatever the order of the rows.
    let square = graph_of(4, &[(0, 2), (2, 3), (0, 1), (1, 3)], &[3], &[]);
    let walk = found(alloc, &square, &[0b1101, 0b1011], 0)?;
    assert_eq!(rt; walk.as_slice(), [0, 1, 3].as_slice());

    // The start may be the end.
    let one = graph_of(1, &[], &[0], &[(0, 0)]);
    let walk = found(alloc, &one, &[ALL], 0)?;
    assert_eq!(rt; walk.as_slice(), [0].as_slice());
    Ok(())
}

#[test]
fn keeps_limits(rt: HostRuntime) -> Result<(), Fail> {
    let alloc = rt.alloc();
    let edges = [(0, 1), (1, 2), (0, 3), (3, 4), (4, 2)];

    // No node may stand between the start and node 2, so neither way is open.
    let strict = graph_of(5, &edges, &[2], &[(2, 0)]);
    let walk = found(alloc, &strict, &[ALL], 0)?;
    assert_eq!(rt; walk.len(), 0);

    // With a limit of 1 the short way is, and with the short way closed a limit of 2 opens the long one.
    let short = graph_of(5, &edges, &[2], &[(0, 0), (1, 0), (2, 1)]);
    let walk = found(alloc, &short, &[ALL], 0)?;
    assert_eq!(rt; walk.as_slice(), [0, 1, 2].as_slice());
    let walk = found(alloc, &short, &[0b11101], 0)?;
    assert_eq!(rt; walk.len(), 0);
    let wide = graph_of(5, &edges, &[2], &[(2, 2)]);
    let walk = found(alloc, &wide, &[0b11101], 0)?;
    assert_eq!(rt; walk.as_slice(), [0, 3, 4, 2].as_slice());
    Ok(())
}

#[test]
fn finds_none(rt: HostRuntime) -> Result<(), Fail> {
    let alloc = rt.alloc();
    let line = [(0, 1), (1, 2), (2, 3), (3, 4), (4, 5), (5, 6)];

    // Each node is allowed by one of the rows, and by no row all of them.
    let shared = graph_of(3, &line, &[2], &[]);
    let walk = found(alloc, &shared, &[0b011, 0b101, 0b110], 0)?;
    assert_eq!(rt; walk.len(), 0);
    let walk = found(alloc, &shared, &[], 0)?;
    assert_eq!(rt; walk.len(), 0);

    // Six nodes are a walk, and seven are none; where no node is an end there is none.
    let six = graph_of(6, &line, &[5], &[]);
    let walk = found(alloc, &six, &[ALL], 0)?;
    assert_eq!(rt; walk.as_slice(), [0, 1, 2, 3, 4, 5].as_slice());
    let seven = graph_of(7, &line, &[6], &[]);
    let walk = found(alloc, &seven, &[ALL], 0)?;
    assert_eq!(rt; walk.len(), 0);
    let endless = graph_of(3, &[(0, 1), (1, 0), (1, 2)], &[], &[]);
    let walk = found(alloc, &endless, &[ALL], 0)?;
    assert_eq!(rt; walk.len(), 0);
    Ok(())
}

/// How many nodes the graphs of the comparison have, and how many lists of one length and start there are at most.
const FEW: usize = 5;

const MOST_LISTS: usize = 3125;

/// Whether a node may stand behind a node, with so many nodes between the start and it.
fn may_follow(graph: &Graph, from: usize, to: usize, between: usize) -> bool {
    if from >= graph.size() || to >= graph.size() || !graph.leads(from, to) {
        return false;
    }
    match graph.limit_of(to) {
        None => true,
        Some(bound) => between <= bound,
    }
}

/// Whether a list is a walk each of whose members has its bit set.
fn is_walk(graph: &Graph, bits: u32, list: &[usize]) -> bool {
    for i in 1..list.len() {
        if !may_follow(graph, list[i - 1], list[i], i - 1) {
            return false;
        }
    }
    for node in list {
        if *node >= 16 || bits >> *node & 1 == 0 {
            return false;
        }
    }
    match list.last() {
        None => false,
        Some(last) => *last < graph.size() && graph.ends_at(*last),
    }
}

/// Makes the list the next one with the same start and length. There is no next one of the last.
fn step(list: &mut [usize]) -> bool {
    for i in (1..list.len()).rev() {
        if list[i] < FEW - 1 {
            list[i] += 1;
            return true;
        }
        list[i] = 0;
    }
    false
}

/// The first list that is a walk, shorter ones first.
fn first_walk(alloc: Global, graph: &Graph, rows: &[u32]) -> Result<Vec<usize>, AllocError> {
    let mut list = Vec::new(alloc);
    for _ in 0..WALK_LIMIT {
        list.push(0)?;
        for _ in 0..MOST_LISTS {
            if rows.iter().any(|bits| is_walk(graph, *bits, &list)) {
                return Ok(list);
            }
            if !step(&mut list) {
                break;
            }
        }
    }
    Ok(Vec::new(alloc))
}

/// The next of some numbers without a visible rule, below 16.
fn draw(seed: &mut u64) -> u64
    ensures { result < 16 }
{
    *seed = seed
        .wrapping_mul(6_364_136_223_846_793_005)
        .wrapping_add(1_442_695_040_888_963_407);
    *seed >> 60
}

/// Some graph.
fn drawn_graph(seed: &mut u64) -> Graph {
    let mut graph = Graph::new(FEW);
    for from in 0..FEW {
        for to in 0..FEW {
            if draw(seed) < 5 {
                graph.lead(from, to);
            }
        }
        let bound = draw(seed);
        if bound < 4 {
            graph.limit(from, bound as usize);
        }
    }
    graph.end_at(FEW - 1);
    graph
}

/// The bits of some row, of which most are set.
fn drawn_row(seed: &mut u64) -> u32 {
    let low = draw(seed) | draw(seed);
    let high = draw(seed) | draw(seed);
    low as u32 | (high as u32) << 1
}

#[test]
fn agrees_with_trying_each_list(rt: HostRuntime) -> Result<(), Fail> {
    let alloc = rt.alloc();
    let mut seed = 1;
    for round in 0..40 {
        let graph = drawn_graph(&mut seed);
        let rows = [drawn_row(&mut seed), drawn_row(&mut seed)];
        let walk = found(alloc, &graph, &rows, 0)?;
        let first = first_walk(alloc, &graph, &rows)?;
        assert_eq!(rt; walk.as_slice(), first.as_slice(), "in round {round}");
    }
    Ok(())
}
