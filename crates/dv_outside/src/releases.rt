//! Which octets may leave while a register holds its records.
ghost use Rattle.std.specs.Prelude.{ℕ, List, ◌++◌};
ghost use Rattle.dv_outside.specs.Releases.{Identity, Entry};

/// A rule on what may be put while a register holds a list of records. It is implemented by types without data.
pub trait Releases {
    /// These octets may be put while the register of this key and this first serial holds this list.
    ghost allows: { Identity → ℕ → List Entry → List ℕ → Type 0 };

    /// What is allowed stays allowed when the list grows at its end.
    ghost grows: { (key : Identity) (first : ℕ) (list more : List Entry) (octets : List ℕ) →
        allows key first list octets → allows key first (list ++ more) octets };
}
