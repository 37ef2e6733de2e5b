//! Laws over whole histories. Each is a function without a body: its contract is the law, and the check proves it.
ghost use Rattle.std.specs.Prelude.{◌≡◌, ℕ, List, length};
ghost use Rattle.dv_lms.specs.Identity.{Identity};
ghost use Rattle.dv_lms.specs.Signed.{public_of};
ghost use Rattle.dv_outside.specs.Releases.{Entry};
ghost use Rattle.dv_register.specs.Layout.{Stands, head_of};
ghost use Rattle.dv_register.specs.Refusals.{IsFirstSerial, IsNoRegister, IsOtherKey};
ghost use Rattle.dv_register.specs.Lives.{Life, IsHistory, EachKeeps, line_of};

use dv_outside::{Releases, Station};

/// Over any list of lives of one register, each of which may end in a crash at any of its moments: the list at each opening
/// begins with that of every earlier opening, and holds each record under which a piece was put in an earlier life, at its
/// serial.
///
/// A life that began with a file is what `Register::open` says of it: it opened the list that stood there and was safe from
/// then on (`stands`, `kept`), or it came to no opening and kept what the file was sound for (`keeps`). The first life is one
/// whose `Register::create` answered Ok.
pub fn lives<V: Station, P: Releases>()
    ensures { (key : Identity) (first : ℕ) (lives : List (Life V)) → length (public_of key) ≡ 60
        → IsHistory (line_of V.content V.counts P.allows key first) lives
        → EachKeeps (line_of V.content V.counts P.allows key first) lives }
{}

/// A file is no register at one place, or a register of another key, or it stands for a list: never two of these. So each
/// refusal of `Register::open` that speaks of the file comes exactly where its definition holds, but for faults and want of
/// memory.
pub fn one_refusal()
    ensures place { (octets key : List ℕ) (limit p q : ℕ) → length key ≡ 60 → IsNoRegister octets key limit p
        → IsNoRegister octets key limit q → p ≡ q }
    ensures key { (octets key : List ℕ) (limit place : ℕ) → length key ≡ 60 → IsNoRegister octets key limit place
        → ¬ IsOtherKey octets key }
    ensures list { (octets key : List ℕ) (limit first : ℕ) (list : List Entry) → length key ≡ 60 → IsFirstSerial first
        → Stands octets (head_of key first) limit list
        → ((place : ℕ) → ¬ IsNoRegister octets key limit place) × (¬ IsOtherKey octets key) }
{}
