//! The search for a path (RFC 5280 6.1).

ghost use Rattle.std.specs.Prelude.{◌≡◌, ◌<◌, ◌≤◌, ◌+◌, ◌-◌, ◌*◌, ℕ, List, All, IfNone, IfOk, IfSome, length, slice_index};
ghost use Rattle.dv_path.specs.Demands.{demand_of};
ghost use Rattle.dv_path.specs.Paths.{IsChosen, IsPath, search_for};
ghost use Rattle.dv_path.specs.Rows.{AreMarks};

use crate::bag::Bag;
use crate::demand::{allowed_rows, one_row};
use crate::table::{Table, issuing_table};
use crate::trust::Trust;
use dv_asn1::Places;
use dv_lms::Steps;
use dv_request::PathInput;
use dv_time::Moment;
use dv_walks::{Graph, find_walk};
use std::alloc::{AllocError, Global};
use std::sync::ledger::Ledger;

/// A path from a certificate of a bag to a trust anchor (RFC 5280 6.1).
#[derive(Debug, Drop)]
pub struct Path {
    /// The positions of its certificates in the bag, the target's first: each was issued by the next.
    pub positions: Places,
    /// The place of the first anchor that issued the last of them.
    pub anchor: u32,
}

/// The path from the target, a position of the bag, to an anchor, at this moment and with these demands: the shortest, and
/// among these the one whose list of positions is the lowest. `Ok(None)` comes exactly where there is no path.
///
/// At most `n * (n + a)` signatures are verified, `n` being how many certificates the bag holds and `a` how many anchors there
/// are; each is counted. The only error is want of memory.
pub fn find_path<L: Ledger>(
    alloc: Global,
    trust: &Trust,
    bag: &Bag,
    target: u32,
    when: Moment,
    input: Option<&PathInput<'_>>,
    checks: &mut Steps<L>,
) -> Result<Option<Path>, AllocError>
    requires { target < length bag.now }
    ensures none { let s = search_for bag.now target trust.now when (demand_of input.entry) in
        IfOk result (λ found. IfNone found ((path : List ℕ) → ¬ IsPath s path)) }
    ensures chosen { let s = search_for bag.now target trust.now when (demand_of input.entry) in
        IfOk result (λ found. IfSome found (λ path. IsChosen s path.positions path.anchor)) }
    ensures steps { checks.new ≤ checks.old + length bag.now * (length bag.now + length trust.now) }
{
    let table = issuing_table(bag, trust, when, checks);
    let marks = reaching(alloc, &table.graph)?;
    let rows = allowed_rows(alloc, bag, &marks, input)?;
    match find_walk(alloc, &table.graph, &rows, target as usize)? {
        None => Ok(None),
        Some(walk) => Ok(Some(path_of(alloc, &table, &walk)?)),
    }
}

/// A mark for each node, false where no walk leads from there to an end.
fn reaching(alloc: Global, graph: &Graph) -> Result<Vec<bool>, AllocError>
    ensures { IfOk result (λ marks. AreMarks graph.now marks.items) }
{
    let rows = one_row(alloc, graph.size())?;
    let mut marks = Vec::new(alloc);
    for node in 0..graph.size() {
        let walk = find_walk(alloc, graph, &rows, node)?;
        marks.push(walk.is_some())?;
    }
    Ok(marks)
}

/// The path over these positions, with the anchor that stands beside the last.
fn path_of(alloc: Global, table: &Table, walk: &[usize]) -> Result<Path, AllocError>
    requires some { 0 < length walk.now }
    requires inside { All (λ position. position < 16) walk.now }
    ensures positions { IfOk result (λ path. path.positions ≡ walk.now) }
    ensures anchor { IfOk result (λ path. path.anchor ≡ slice_index table.now.anchors (slice_index walk.now (length walk.now - 1))) }
{
    let mut positions = Vec::new(alloc);
    for position in walk {
        positions.push(*position as u32)?;
    }
    Ok(Path {
        positions: Places::new(positions),
        anchor: table.anchors[walk[walk.len() - 1]],
    })
}

#[cfg(test)]
mod tests;
