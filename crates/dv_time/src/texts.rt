//! The texts of moments.

ghost use Rattle.std.specs.Prelude.{◌≡◌, ◌<◌, ◌≤◌, ℕ, drop, length, Some, true, false, IsTrue, MatchOption};
ghost use Rattle.std.specs.List.{list_all};
ghost use Rattle.dv_time.specs.Text.{is_digit, civil_in as civil_of_digits, has_form as form_of, is_generalized, century, first_late, is_utc, Text, text_of, two_at as number_at, with_century};

use crate::civil::{Civil, civil_at, second_of};
use crate::moment::Moment;

/// The civil date and time of the moment in UTC, as `YYYYMMDDHHMMSSZ`.
pub fn text(m: Moment) -> [u8; 15]
    ensures value { result ≡ text_of m }
    ensures says { Text m result }
{
    let civil = civil_at(m.seconds());
    let century = (civil.year / 100) as u8;
    let year = (civil.year % 100) as u8;
    [
        b'0' + century / 10,
        b'0' + century % 10,
        b'0' + year / 10,
        b'0' + year % 10,
        b'0' + civil.month / 10,
        b'0' + civil.month % 10,
        b'0' + civil.day / 10,
        b'0' + civil.day % 10,
        b'0' + civil.hour / 10,
        b'0' + civil.hour % 10,
        b'0' + civil.minute / 10,
        b'0' + civil.minute % 10,
        b'0' + civil.second / 10,
        b'0' + civil.second % 10,
        b'Z',
    ]
}

/// The moment that has this text; None exactly where no moment has it.
pub fn parse(text: &[u8]) -> Option<Moment>
    ensures says { MatchOption result ((s : ℕ) → Text s text.now → ⊥) (λ m. Text m text.now) }
    ensures test { MatchOption result (is_generalized text.now ≡ false)
        (λ m. (is_generalized text.now ≡ true) × (text_of m ≡ text.now)) }
    ensures only { (s : ℕ) → Text s text.now → result ≡ Some s }
{
    if !has_form(text) {
        return None;
    }
    match second_of(civil_in(text)) {
        None => None,
        Some(second) => Moment::at(second),
    }
}

/// The moment of a UTCTime with these contents, whose year below 50 is 20yy and from 50 on 19yy; None exactly where there is
/// none.
pub(crate) fn parse_short(text: &[u8]) -> Option<Moment>
    ensures { MatchOption result (is_utc text.now ≡ false)
        (λ m. (is_utc text.now ≡ true) × (drop 2 (text_of m) ≡ text.now) × (m < first_late)) }
{
    if text.len() != 13 {
        return None;
    }
    parse(&widened(text))
}

/// The contents of a UTCTime with the first two digits of its year.
fn widened(text: &[u8]) -> [u8; 15]
    requires { length text.now ≡ 13 }
    ensures { result ≡ with_century text.now }
{
    let mut whole = [b'0'; 15];
    whole[..2].copy_from_slice(century_of(text[0]));
    whole[2..].copy_from_slice(text);
    whole
}

/// The first two digits of the year that a UTCTime's first digit tells.
fn century_of(first: u8) -> &'static [u8]
    ensures { result.now ≡ century first }
{
    if first < b'5' { b"20" } else { b"19" }
}

/// Whether this is fourteen digits and Z.
fn has_form(text: &[u8]) -> bool
    ensures { result ≡ form_of text.now }
{
    if text.len() != 15 {
        return false;
    }
    are_digits(&text[..14]) && text[14] == b'Z'
}

/// Whether these are decimal digits.
fn are_digits(octets: &[u8]) -> bool
    ensures { result ≡ list_all is_digit octets.now }
{
    octets.iter().all(|b| b.is_ascii_digit())
}

/// The date and time that fourteen digits say.
fn civil_in(text: &[u8]) -> Civil
    requires { IsTrue (form_of text.now) }
    ensures value { result ≡ civil_of_digits text.now }
    ensures year { result.year ≤ 9999 }
    ensures month { result.month ≤ 99 }
    ensures day { result.day ≤ 99 }
{
    Civil {
        year: two_at(text, 0) as u16 * 100 + two_at(text, 2) as u16,
        month: two_at(text, 4),
        day: two_at(text, 6),
        hour: two_at(text, 8),
        minute: two_at(text, 10),
        second: two_at(text, 12),
    }
}

/// The number of the two digits at this place.
fn two_at(text: &[u8], at: usize) -> u8
    requires form { IsTrue (form_of text.now) }
    requires place { at < 13 }
    ensures value { result ≡ number_at text.now at }
    ensures bound { result ≤ 99 }
{
    (text[at] - b'0') * 10 + (text[at + 1] - b'0')
}
