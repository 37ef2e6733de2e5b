//! Laws of reading records, each as a function that does nothing and ensures it.

ghost use Rattle.std.specs.Prelude.{◌≡◌, ◌≤◌, ◌<◌, ◌^◌, ℕ, List, All, Ok, length};
ghost use Rattle.dv_schema.specs.Fits.{Fits};
ghost use Rattle.dv_schema.specs.Octets.{IsBytes};
ghost use Rattle.dv_schema.specs.Schema.{ValueOf};
ghost use Rattle.dv_draft.specs.Records.{IsCertificate, record_in, record_of};
ghost use Rattle.dv_draft.specs.Types.{draft};

/// The contents of a record hold the certificates and the draft that they were made of.
pub fn records_are_read_again()
    ensures { (cs : List (List ℕ)) (d : ValueOf draft) → 1 ≤ length cs → length cs ≤ 6
        → All IsCertificate cs → Fits draft 32 d → length (record_of cs d) < 2 ^ 63
        → record_in (record_of cs d) ≡ Ok (cs, d) }
{}

/// Octets that hold certificates and a draft are the contents of their record.
pub fn records_are_those_written()
    ensures { (contents : List ℕ) (cs : List (List ℕ)) (d : ValueOf draft) → IsBytes contents
        → record_in contents ≡ Ok (cs, d)
        → (contents ≡ record_of cs d) × (1 ≤ length cs) × (length cs ≤ 6) × All IsCertificate cs
        × Fits draft 32 d }
{}
