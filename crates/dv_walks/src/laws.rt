//! Laws of walks.
ghost use Rattle.std.specs.Prelude.{◌≡◌, ℕ, Bool, List};
ghost use Rattle.dv_walks.specs.Graph.{Agrees, GraphState};
ghost use Rattle.dv_walks.specs.Walk.{IsLeastWalk, IsWalk};

/// There is one least walk at most.
pub fn least_walk_is_one()
    ensures { (graph : GraphState) (rows : List (List Bool)) (start : ℕ) (a b : List ℕ)
        → IsLeastWalk graph rows start a → IsLeastWalk graph rows start b → a ≡ b }
{}

/// Graphs that say the same of their nodes have the same walks, and so the same least walk.
pub fn walks_of_agreeing_graphs()
    ensures walks { (a b : GraphState) (start : ℕ) (walk : List ℕ) → Agrees a b → IsWalk a start walk → IsWalk b start walk }
    ensures least { (a b : GraphState) (rows : List (List Bool)) (start : ℕ) (walk : List ℕ) → Agrees a b
        → IsLeastWalk a rows start walk → IsLeastWalk b rows start walk }
{}
