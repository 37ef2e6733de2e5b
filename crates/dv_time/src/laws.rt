//! Moments and their texts agree both ways.

ghost use Rattle.std.specs.Prelude.{◌≡◌, ◌<◌, ◌≤◌, ◌↔◌, ◌+◌, ℕ, List, ◌++◌, length, drop, Ok, Some, IsTrue};
ghost use Rattle.dv_schema.specs.Schema.{spelling};
ghost use Rattle.dv_schema.specs.Fits.{Fits};
ghost use Rattle.dv_schema.specs.Reading.{Spot, read};
ghost use Rattle.dv_time.specs.Text.{first_late, is_generalized, is_utc, last_second, ShortText, Text, text_of};
ghost use Rattle.dv_time.specs.Types.{generalized_time, time};
ghost use Rattle.dv_time.specs.Views.{view_moment, view_time};

use crate::{Moment, parse, text};

/// Each second up to 9999-12-31T23:59:59Z has one text, and each text is that of one second.
pub fn moments_and_texts_agree()
    ensures text { (s : ℕ) → s ≤ last_second → Text s (text_of s) }
    ensures only { (s : ℕ) (x : List ℕ) → Text s x → x ≡ text_of s }
    ensures within { (s : ℕ) (x : List ℕ) → Text s x → s ≤ last_second }
    ensures second { (s t : ℕ) (x : List ℕ) → Text s x → Text t x → s ≡ t }
    ensures test { (x : List ℕ) → IsTrue (is_generalized x) ↔ ((s : ℕ) × Text s x) }
{}

/// Two moments with one text are the same.
pub fn texts_tell_moments()
    ensures generalized { (s t : ℕ) → s ≤ last_second → t ≤ last_second
        → view_moment s ≡ view_moment t → s ≡ t }
    ensures time { (s t : ℕ) → s ≤ last_second → t ≤ last_second → view_time s ≡ view_time t → s ≡ t }
{}

/// A moment has a spelling, at each depth that a value may have.
pub fn moments_have_spellings()
    ensures generalized { (s levels : ℕ) → s ≤ last_second → 1 ≤ levels
        → Fits generalized_time levels (view_moment s) }
    ensures time { (s levels : ℕ) → s ≤ last_second → 1 ≤ levels → Fits time levels (view_time s) }
{}

/// What was written of a moment is read as the same moment, whatever follows.
pub fn moments_are_read_again()
    ensures generalized { (s : ℕ) (p : Spot) (rest : List ℕ) → s ≤ last_second → 1 ≤ p.levels
        → p.rest ≡ spelling generalized_time (view_moment s) ++ rest
        → read generalized_time p ≡ Ok (
          view_moment s,
          record { levels = p.levels; place = p.place + 17; rest = rest },
        ) }
    ensures time { (s : ℕ) (p : Spot) (rest : List ℕ) → s ≤ last_second → 1 ≤ p.levels
        → p.rest ≡ spelling time (view_time s) ++ rest
        → read time p ≡ Ok (
          view_time s,
          record {
            levels = p.levels;
            place = p.place + length (spelling time (view_time s));
            rest = rest;
          },
        ) }
{}

/// A Time is a UTCTime exactly up to 2049, in which its octets are the text without its first two digits.
pub fn short_texts_agree()
    ensures text { (s : ℕ) → s < first_late → ShortText s (drop 2 (text_of s)) }
    ensures only { (s : ℕ) (x : List ℕ) → ShortText s x → x ≡ drop 2 (text_of s) }
    ensures within { (s : ℕ) (x : List ℕ) → ShortText s x → s < first_late }
    ensures second { (s t : ℕ) (x : List ℕ) → ShortText s x → ShortText t x → s ≡ t }
    ensures test { (x : List ℕ) → IsTrue (is_utc x) ↔ ((s : ℕ) × ShortText s x) }
{}

/// Parsing a moment's text gives the moment.
pub fn text_is_parsed(m: Moment) -> Option<Moment>
    ensures { result ≡ Some m }
{
    parse(&text(m))
}
