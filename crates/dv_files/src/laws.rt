//! What a reader of certificates, one after another, has read so far: each law as a function that does nothing and ensures it.

ghost use Rattle.std.specs.Prelude.{◌≡◌, ◌≢◌, ◌<◌, ◌≤◌, ◌++◌, ◌∷◌, [], List, ℕ, length};
ghost use Rattle.dv_schema.specs.Reading.{Spot};
ghost use Rattle.dv_draft.specs.Records.{certificate_at};
ghost use Rattle.dv_files.specs.Certificates.{AreCertificatesUpTo, AreNone, AreSoFar, HasMore, HasNoNext, HasNone, IsNext, IsPlaceOf};

/// Before the first certificate none was read.
pub fn reading_begins()
    ensures { (limit : ℕ) (octets : List ℕ) → AreSoFar limit octets [] (record { levels = 32; place = 0; rest = octets }) }
{}

/// Behind the next certificate one more was read. Where nothing is left, the octets are these certificates.
pub fn reading_goes_on()
    ensures more { (limit : ℕ) (octets : List ℕ) (seen : List (List ℕ)) (p q : Spot) (next : List ℕ)
        → AreSoFar limit octets seen p → length seen < limit → IsNext p next q → q.rest ≢ []
        → AreSoFar limit octets (seen ++ next ∷ []) q }
    ensures end { (limit : ℕ) (octets : List ℕ) (seen : List (List ℕ)) (p q : Spot) (next : List ℕ)
        → AreSoFar limit octets seen p → length seen < limit → IsNext p next q → q.rest ≡ []
        → AreCertificatesUpTo limit octets (seen ++ next ∷ []) }
{}

/// Where no certificate is next, or so many were read and octets are left, the octets are none.
pub fn reading_stops()
    ensures refused { (limit : ℕ) (octets : List ℕ) (seen : List (List ℕ)) (p : Spot) (place : ℕ)
        → AreSoFar limit octets seen p → length seen < limit → IsPlaceOf (certificate_at p) place → HasNone p
        → AreNone limit octets (HasNoNext limit octets place) }
    ensures full { (limit : ℕ) (octets : List ℕ) (seen : List (List ℕ)) (p : Spot)
        → 1 ≤ limit → AreSoFar limit octets seen p → limit ≤ length seen
        → AreNone limit octets (HasMore limit octets p.place) }
{}
