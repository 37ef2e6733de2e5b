//! The theorems of the grammar, each as a function that does nothing and ensures it.
//!
//! They hold for every schema at once, so a type that is added to the table needs no theorem of its own. `is_clear` of
//! a literal schema computes. `IsBytes`, that octets are below 256, is known of every slice.

ghost use Rattle.std.specs.Prelude.{◌≡◌, ◌≤◌, ◌+◌, ◌⊎◌, ◌↔◌, ℕ, List, [], ◌++◌, length, Ok, Err, IsTrue, IfSome};
ghost use Rattle.dv_schema.specs.declared.refusal.Der.{Der};
ghost use Rattle.dv_schema.specs.Octets.{IsBytes};
ghost use Rattle.dv_schema.specs.Schema.{Schema, Body, ValueOf, spelling, spelled_if, field, optional, starts};
ghost use Rattle.dv_schema.specs.Fits.{Fits};
ghost use Rattle.dv_schema.specs.Clear.{is_clear};
ghost use Rattle.dv_schema.specs.Reading.{Spot, read, read_all, read_fields, starts_list};
ghost use Rattle.dv_schema.specs.Decodes.{HasSpelling, IsSpelled, RefusedBehind};

/// What is read fits and is spelled so, and the spot that is left stands behind it.
pub fn read_is_spelled()
    ensures { (s : Schema) (p q : Spot) (v : ValueOf s) → IsBytes p.rest → read s p ≡ Ok (v, q)
        → Fits s p.levels v × (p.rest ≡ spelling s v ++ q.rest)
        × (q.place ≡ p.place + length (spelling s v)) × (q.levels ≡ p.levels) }
{}

/// What fits and is spelled so is read, whatever follows.
#[tactic(auto, using(crate::proofs::Again::spelled))]
pub fn spelled_is_read()
    ensures { (s : Schema) (p : Spot) (v : ValueOf s) (rest : List ℕ) → IsTrue (is_clear s)
        → Fits s p.levels v → p.rest ≡ spelling s v ++ rest
        → read s p ≡ Ok (
          v,
          record {
            levels = p.levels;
            place = p.place + length (spelling s v);
            rest = rest;
          },
        ) }
{}

/// The whole of a slice is read as a value exactly where it is the value's spelling.
pub fn slice_is_read_where_spelled()
    ensures { (s : Schema) (p : Spot) (v : ValueOf s) → IsTrue (is_clear s) → IsBytes p.rest
        → (read_all s p ≡ Ok v) ↔ (Fits s p.levels v × (p.rest ≡ spelling s v)) }
{}

/// Octets begin with a value's spelling, or they are refused, and never both.
pub fn value_or_refusal()
    ensures either { (s : Schema) (p : Spot) → IsBytes p.rest
        → IsSpelled s p ⊎ ((d : Der) × (read s p ≡ Err d)) }
    ensures not_both { (s : Schema) (p : Spot) (d : Der) → IsTrue (is_clear s)
        → IsSpelled s p → read s p ≡ Err d → ⊥ }
{}

/// Each spelling spells one value.
#[tactic(auto, using(crate::proofs::Spellings::one_spelling))]
pub fn one_value()
    ensures { (s : Schema) (m n : ℕ) (v w : ValueOf s) → IsTrue (is_clear s) → Fits s m v → Fits s n w
        → spelling s v ≡ spelling s w → v ≡ w }
{}

/// No spelling is a proper prefix of another one.
pub fn no_proper_prefix()
    ensures { (s : Schema) (m n : ℕ) (v w : ValueOf s) (rest : List ℕ) → IsTrue (is_clear s)
        → Fits s m v → Fits s n w → spelling s v ++ rest ≡ spelling s w → rest ≡ [] }
{}

/// What fits with fewer levels fits with more.
#[tactic(auto, using(crate::proofs::Spellings::fits_more))]
pub fn more_levels()
    ensures { (s : Schema) (m n : ℕ) (v : ValueOf s) → m ≤ n → Fits s m v → Fits s n v }
{}

/// A refusal among fields is that of the first one, or the first one is spelled and the refusal is that of what follows.
pub fn refusal_is_the_first()
    ensures present { (s : Schema) (b : Body) (own : ℕ) (p : Spot) (d : Der) → IsBytes p.rest
        → read_fields (field s b) own p ≡ Err d
        → (read s p ≡ Err d) ⊎ RefusedBehind (spelling s) (Fits s p.levels) b own p d }
    // A field that may be absent is refused only where its tag is there.
    ensures optional { (s : Schema) (b : Body) (own : ℕ) (p : Spot) (d : Der) → IsBytes p.rest
        → read_fields (optional s b) own p ≡ Err d
        → (IsTrue (starts_list (starts s) p.rest) × (read s p ≡ Err d))
        ⊎ RefusedBehind (spelled_if (spelling s)) (λ o. IfSome o (Fits s p.levels)) b own p d }
{}

/// A value that is known to have a spelling, without its levels being named, is read from it, whatever follows.
#[tactic(auto, using(crate::proofs::Kept::kept_again))]
pub fn kept_is_read_again()
    ensures { (s : Schema) (v : ValueOf s) (p : Spot) (rest : List ℕ) → IsTrue (is_clear s)
        → ∥ HasSpelling s v ∥₁ → p.levels ≡ 32 → p.rest ≡ spelling s v ++ rest
        → read s p ≡ Ok (
          v,
          record {
            levels = p.levels;
            place = p.place + length (spelling s v);
            rest = rest;
          },
        ) }
{}
