//! Lengths, and the numbers in contents.

ghost use Rattle.std.specs.Prelude.{◌≡◌, ◌≤◌, length, IsTrue, nat_le};
ghost use Rattle.std.specs.Int.Digits.{number_from_digits};
ghost use Rattle.std.specs.Option.{SomeIff};
ghost use Rattle.dv_schema.specs.Rules.{is_number};
ghost use Rattle.dv_schema.specs.Reading.{length_at};
ghost use Rattle.dv_schema.specs.Answers.{Gives};

use crate::rules::is_integer;
use dv_schema::{Der, Why};

/// The number whose digits in base 256 are these octets, at most eight.
fn number_of(octets: &[u8]) -> u64
    requires { length octets.now ≤ 8 }
    ensures { result ≡ number_from_digits 256 octets.now }
{
    let mut number = 0u64;
    for octet in octets {
        number = number * 256 + *octet as u64;
    }
    number
}

/// The length that the octets behind a tag spell, and how many of them do. The value stands at this place.
pub(crate) fn length_of(place: u64, octets: &[u8]) -> Result<(u64, u64), Der>
    ensures { Gives (λ x. x) result (length_at place octets.now) }
{
    let [first, more @ ..] = octets else {
        return Err(Der::new(place, Why::End));
    };
    let first = *first;
    if first < 128 {
        return Ok((first as u64, 1));
    }
    if first == 128 || first > 136 {
        return Err(Der::new(place, Why::Length));
    }
    let count = first as usize - 128;
    if more.len() < count {
        return Err(Der::new(place, Why::End));
    }
    let number = number_of(&more[..count]);
    if more[0] == 0 || number < 128 {
        return Err(Der::new(place, Why::Length));
    }
    Ok((number, 1 + count as u64))
}

/// The number of an INTEGER's contents; None where they aren't the fewest octets, or it is negative or more than `max`.
pub(crate) fn number_within(contents: &[u8], max: u64) -> Option<u64>
    ensures { SomeIff result (IsTrue (is_number (λ n. nat_le n max) contents.now))
        (number_from_digits 256 contents.now) }
{
    if !is_integer(contents) || contents[0] >= 128 {
        return None;
    }
    let digits = if contents[0] == 0 {
        &contents[1..]
    } else {
        contents
    };
    if digits.len() > 8 {
        return None;
    }
    let number = number_of(digits);
    if number <= max { Some(number) } else { None }
}
