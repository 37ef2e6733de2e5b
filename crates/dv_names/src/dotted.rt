//! Identifiers out of dotted decimals.

ghost use Rattle.std.specs.Prelude.{◌≡◌, ◌+◌, ◌++◌, IsTrue, IfOk, OnOk, MatchOption, MatchResult, map};
ghost use Rattle.std.specs.Int.Digits.{digits_of};
ghost use Rattle.dv_names.specs.Arcs.{are_good, dotted, IsBad, IsGood, IsRefused, Names, number_octets, oid_octets};
ghost use Rattle.dv_names.specs.Points.{ends_of, grown_of, limit_of, next_of, turn_after};

use std::alloc::{AllocError, Global};
use thiserror::Error;

/// The most that an arc may be: with 80 added it is below 2^64.
const LARGEST_ARC: u64 = 18_446_744_073_709_551_535;

/// Why a text gives no identifier.
#[derive(Clone, Copy, Debug, PartialEq, Eq, Error)]
pub enum OidText {
    /// The text is no good one; the place is that of the first octet that no good text has there, or the text's length where
    /// it ends too early.
    #[error("no identifier: octet {place} of the text is wrong")]
    Text { place: usize },
    /// There was no memory for the octets.
    #[error("out of memory")]
    Memory,
}

/// The contents octets of the identifier whose dotted decimal this is (X.690 8.19).
///
/// The text has at least two arcs, the first at most 2, the second below 40 where the first is 0 or 1, none with leading
/// zeros and none past 2^64 - 81. `Text` exactly where it hasn't this form, which is found before any memory is taken.
pub fn oid_from_text(alloc: Global, text: &str) -> Result<Vec<u8>, OidText>
    ensures { MatchResult result (λ octets. Names text.now octets.items) (λ error. IsRefused text.now error) }
{
    let octets = text.as_bytes();
    if let Some(place) = first_wrong(octets) {
        return Err(OidText::Text { place });
    }
    match octets_of(alloc, octets) {
        Ok(octets) => Ok(octets),
        Err(_) => Err(OidText::Memory),
    }
}

/// Which arc of a text is being read.
#[derive(Clone, Copy)]
enum Turn {
    First,
    /// The one after this first arc.
    Second(u64),
    Later,
}

impl Turn {
    /// The most that the arc may be.
    fn limit(self) -> u64
        ensures { result ≡ limit_of self }
    {
        match self {
            Turn::First => 2,
            Turn::Second(first) => { if first < 2 { 39 } else { LARGEST_ARC } }
            Turn::Later => LARGEST_ARC,
        }
    }

    /// Which arc comes next, behind this one.
    fn after(self, arc: u64) -> Turn
        ensures { result ≡ turn_after self arc }
    {
        match self {
            Turn::First => Turn::Second(arc),
            Turn::Second(_) | Turn::Later => Turn::Later,
        }
    }
}

/// How far a text was read: which arc, and its number so far, or None before its first digit.
#[derive(Clone, Copy)]
struct Point {
    turn: Turn,
    number: Option<u64>,
}

impl Point {
    /// Behind one octet more; None where no good text has it here.
    fn next(self, octet: u8) -> Option<Point>
        ensures { result ≡ next_of self octet }
    {
        match self.number {
            None => self.grown(0, octet),
            Some(number) => {
                if octet == b'.' {
                    let turn = self.turn.after(number);
                    Some(Point { turn, number: None })
                } else if number == 0 {
                    None
                } else {
                    self.grown(number, octet)
                }
            }
        }
    }

    /// With this digit behind the arc's number so far; None where it is no digit, or the arc would be past its limit.
    fn grown(self, number: u64, digit: u8) -> Option<Point>
        ensures { result ≡ grown_of self number digit }
    {
        if !digit.is_ascii_digit() {
            return None;
        }
        let grown = number as u128 * 10 + (digit - b'0') as u128;
        if grown > self.turn.limit() as u128 {
            return None;
        }
        Some(Point {
            turn: self.turn,
            number: Some(grown as u64),
        })
    }

    /// Whether a good text may end here.
    fn is_whole(self) -> bool
        ensures { result ≡ ends_of self }
    {
        match self.turn {
            Turn::First => false,
            Turn::Second(_) | Turn::Later => self.number.is_some(),
        }
    }
}

/// The place at which the text is no good one; None exactly where it is one.
fn first_wrong(text: &[u8]) -> Option<usize>
    ensures { MatchOption result (IsGood text.now) (IsBad text.now) }
{
    let mut point = Point {
        turn: Turn::First,
        number: None,
    };
    for (place, octet) in text.iter().enumerate() {
        match point.next(*octet) {
            None => return Some(place),
            Some(next) => point = next,
        }
    }
    if point.is_whole() {
        None
    } else {
        Some(text.len())
    }
}

/// The contents octets of the identifier with this good text.
fn octets_of(alloc: Global, text: &[u8]) -> Result<Vec<u8>, AllocError>
    requires { IsGood text.now }
    ensures { IfOk result (λ octets. Names text.now octets.items) }
{
    let arcs = arcs_in(alloc, text)?;
    encoded(alloc, &arcs)
}

/// The arcs of a good text.
fn arcs_in(alloc: Global, text: &[u8]) -> Result<Vec<u64>, AllocError>
    requires { IsGood text.now }
    ensures good { IfOk result (λ arcs. IsTrue (are_good arcs.items)) }
    ensures text { IfOk result (λ arcs. dotted arcs.items ≡ text.now) }
{
    let mut arcs = Vec::new(alloc);
    let mut number: u64 = 0;
    for octet in text {
        if *octet == b'.' {
            arcs.push(number)?;
            number = 0;
        } else {
            number = number * 10 + (*octet - b'0') as u64;
        }
    }
    arcs.push(number)?;
    Ok(arcs)
}

/// The contents octets of the identifier with these arcs (X.690 8.19).
fn encoded(alloc: Global, arcs: &[u64]) -> Result<Vec<u8>, AllocError>
    requires { IsTrue (are_good arcs.now) }
    ensures { IfOk result (λ octets. octets.items ≡ oid_octets arcs.now) }
{
    let mut octets = Vec::new(alloc);
    push_number(&mut octets, arcs[0] * 40 + arcs[1])?;
    for arc in &arcs[2..] {
        push_number(&mut octets, *arc)?;
    }
    Ok(octets)
}

/// Adds a number in base 128: all octets but the last have 80 added (X.690 8.19.2).
fn push_number(octets: &mut Vec<u8>, number: u64) -> Result<(), AllocError>
    ensures { OnOk result (octets.new.items ≡ octets.old.items ++ number_octets number) }
{
    push_high(octets, number / 128)?;
    octets.push((number % 128) as u8)?;
    Ok(())
}

/// Adds the digits of a number in base 128, the highest first and none for 0, each with 80 added.
fn push_high(octets: &mut Vec<u8>, number: u64) -> Result<(), AllocError>
    ensures { OnOk result
        (octets.new.items ≡ octets.old.items ++ map (λ d. 128 + d) (digits_of 128 number)) }
{
    if number > 0 {
        push_high(octets, number / 128)?;
        octets.push(128 + (number % 128) as u8)?;
    }
    Ok(())
}

#[cfg(test)]
mod tests;
