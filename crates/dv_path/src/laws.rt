//! The law of paths, as a function that does nothing and ensures it.

ghost use Rattle.std.specs.Prelude.{◌≡◌, ℕ, List};
ghost use Rattle.dv_path.specs.Paths.{IsChosen, Search};

/// One path is chosen at most, with one anchor.
pub fn chosen_path_is_one()
    ensures { (s : Search) (p q : List ℕ) (a b : ℕ) → IsChosen s p a → IsChosen s q b → (p ≡ q) × (a ≡ b) }
{}
