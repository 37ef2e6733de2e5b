//! Identifiers as dotted decimals.

ghost use Rattle.std.specs.Prelude.{◌≡◌, ◌⊎◌, ◌+◌, ◌<◌, ◌≤◌, min, ℕ, [], ◌∷◌, drop, length, IsTrue, IfOk, MatchResult, not};
ghost use Rattle.std.specs.String.{string_bytes};
ghost use Rattle.dv_schema.specs.Rules.{is_oid};
ghost use Rattle.dv_names.specs.Arcs.{are_narrow, arcs_of, arcs_of_numbers, dotted as dotted_of, IsHidden, numbers_after};

use std::alloc::{AllocError, Global};
use thiserror::Error;

/// Above every number that an identifier which can be shown has: 2^64 + 80.
const CAP: u128 = 18_446_744_073_709_551_696;

/// Why an identifier isn't shown.
#[derive(Clone, Copy, Debug, PartialEq, Eq, Error)]
pub enum DisplayError {
    /// An arc is past 2^64 - 1.
    #[error("an arc of the identifier is past 64 bits")]
    Wide = 1,
    /// There was no memory for the text.
    #[error("out of memory")]
    Memory = 2,
}

/// The identifier with these contents octets, as a dotted decimal, for example `1.3.6.1.5.5.7.3.10`.
///
/// `Wide` exactly where an arc is past 2^64 - 1, which is found before any memory is taken.
pub fn display(alloc: Global, oid: &[u8]) -> Result<String, DisplayError>
    requires { IsTrue (is_oid oid.now) }
    ensures { MatchResult result
        (λ text. IsTrue (are_narrow (arcs_of oid.now)) × (string_bytes text ≡ dotted_of (arcs_of oid.now)))
        (λ error. IsHidden (arcs_of oid.now) error) }
{
    if is_wide(oid) {
        return Err(DisplayError::Wide);
    }
    match text_of(alloc, oid) {
        Ok(text) => Ok(text),
        Err(_) => Err(DisplayError::Memory),
    }
}

/// The dotted decimal of an identifier whose arcs are below 2^64.
fn text_of(alloc: Global, oid: &[u8]) -> Result<String, AllocError>
    requires oid { IsTrue (is_oid oid.now) }
    requires narrow { IsTrue (are_narrow (arcs_of oid.now)) }
    ensures { IfOk result (λ text. string_bytes text ≡ dotted_of (arcs_of oid.now)) }
{
    let arcs = arcs_in(alloc, oid)?;
    dotted(alloc, &arcs)
}

/// Whether an arc is past 2^64 - 1.
fn is_wide(oid: &[u8]) -> bool
    requires { IsTrue (is_oid oid.now) }
    ensures { result ≡ not (are_narrow (arcs_of oid.now)) }
{
    let (first, used) = number_at(oid);
    if first >= CAP {
        return true;
    }
    let mut rest = &oid[used..];
    while !rest.is_empty() {
        let (number, used) = number_at(rest);
        if number > u64::MAX as u128 {
            return true;
        }
        rest = &rest[used..];
    }
    false
}

/// The arcs of an identifier, all below 2^64.
fn arcs_in(alloc: Global, oid: &[u8]) -> Result<Vec<u64>, AllocError>
    requires oid { IsTrue (is_oid oid.now) }
    requires narrow { IsTrue (are_narrow (arcs_of oid.now)) }
    ensures { IfOk result (λ arcs. arcs.items ≡ arcs_of oid.now) }
{
    let mut arcs = Vec::new(alloc);
    let (number, used) = number_at(oid);
    let (first, second) = first_arcs(number);
    arcs.push(first)?;
    arcs.push(second)?;
    let mut rest = &oid[used..];
    while !rest.is_empty() {
        let (number, used) = number_at(rest);
        arcs.push(number as u64)?;
        rest = &rest[used..];
    }
    Ok(arcs)
}

/// The two arcs that are one number (X.690 8.19.4).
fn first_arcs(number: u128) -> (u64, u64)
    requires { number < 18_446_744_073_709_551_696 }
    ensures { arcs_of_numbers (number ∷ []) ≡ result.0 ∷ result.1 ∷ [] }
{
    if number < 40 {
        (0, number as u64)
    } else if number < 80 {
        (1, (number - 40) as u64)
    } else {
        (2, (number - 80) as u64)
    }
}

/// The number at the front of an identifier's octets, or 2^64 + 80 where it is at least that, and how many octets it has.
fn number_at(octets: &[u8]) -> (u128, usize)
    requires { IsTrue (is_oid octets.now) }
    ensures number { (n : ℕ) × (result.0 ≡ min n 18_446_744_073_709_551_696)
        × (numbers_after 0 octets.now ≡ n ∷ numbers_after 0 (drop result.1 octets.now)) }
    ensures some { 0 < result.1 }
    ensures within { result.1 ≤ length octets.now }
    ensures more { (result.1 ≡ length octets.now) ⊎ IsTrue (is_oid (drop result.1 octets.now)) }
{
    let mut number: u128 = 0;
    for (at, octet) in octets.iter().enumerate() {
        let digit = *octet as u128 % 128;
        number = (number * 128 + digit).min(CAP);
        if *octet < 128 {
            return (number, at + 1);
        }
    }
    (number, octets.len())
}

/// Arcs in decimal, with dots between them.
fn dotted(alloc: Global, arcs: &[u64]) -> Result<String, AllocError>
    ensures { IfOk result (λ text. string_bytes text ≡ dotted_of arcs.now) }
{
    let mut text = String::new(alloc);
    for (at, arc) in arcs.iter().enumerate() {
        if at > 0 {
            text.push('.')?;
        }
        write!(text, "{arc}")?;
    }
    Ok(text)
}

#[cfg(test)]
mod tests;
