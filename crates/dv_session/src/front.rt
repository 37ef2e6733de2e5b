//! How long a request is, by its front.

ghost use Rattle.std.specs.Prelude.{◌≡◌, ◌+◌, ◌^◌, ◌<◌, ◌≤◌, ◌∷◌, ◌++◌, ◌↔◌, ℕ, List, IsTrue, length};
ghost use Rattle.std.specs.Int.Digits.{number_from_digits};
ghost use Rattle.dv_session.specs.declared.front.Front.{Front};
ghost use Rattle.dv_session.specs.Headers.{Tells, MayBegin};

/// The most octets of a request.
pub const REQUEST_LIMIT: u64 = 262_144;

/// The identifier octet of a SEQUENCE (X.690 8.9.1, 8.1.2).
const SEQUENCE: u8 = 0x30;

/// The most octets of a request's header: the tag, and a length in three octets behind the one that counts them.
const HEADER_LIMIT: usize = 5;

/// What the first octets of a value say of it.
#[derive(Clone, Copy, Debug, PartialEq, Eq)]
pub enum Front {
    /// The octets are less than a header, and go on to one.
    Need,
    /// The octets begin with the header of a value of this many octets, those of the header among them.
    Whole(u64),
    /// The octets begin no request, however they go on.
    Bad,
}

/// What octets say of the request that they begin: `Whole` where its header is there, `Need` where they are less than a
/// header, and `Bad` as soon as no header begins so.
///
/// A request's header is the octet `30` and the fewest octets of a definite length (X.690 8.1.3, 10.1) with which the
/// value has at most [`REQUEST_LIMIT`] octets.
pub fn header(front: &[u8]) -> Front
    ensures { Tells front.now result }
{
    match front {
        [] => Front::Need,
        [tag, ..] if *tag != SEQUENCE => Front::Bad,
        [_] => Front::Need,
        [_, first, digits @ ..] => match *first {
            0..128 => Front::Whole(2 + *first as u64),
            129..132 => long_header(*first as usize - 128, digits),
            _ => Front::Bad,
        },
    }
}

/// Octets have one answer of [`header`].
pub fn one_answer()
    ensures { (front : List ℕ) (said other : Front) → Tells front said → Tells front other → said ≡ other }
{}

// What is said by octets that have come in two parts, one behind the other.
pub(crate) fn joined_header(first: &[u8], second: &[u8]) -> Front
    ensures { Tells (first.now ++ second.now) result }
{
    let mut front = [0; HEADER_LIMIT];
    let held = first.len().min(HEADER_LIMIT);
    let more = second.len().min(HEADER_LIMIT - held);
    front[..held].copy_from_slice(&first[..held]);
    front[held..held + more].copy_from_slice(&second[..more]);
    header(&front[..held + more])
}

// What a header says whose length stands in `count` octets, of which these are the first ones.
fn long_header(count: usize, digits: &[u8]) -> Front
    requires some { 0 < count }
    requires few { count ≤ 3 }
    ensures { Tells (48 ∷ (128 + count) ∷ digits.now) result }
{
    if digits.is_empty() {
        return Front::Need;
    }
    if !may_begin(count, digits[0]) {
        return Front::Bad;
    }
    if digits.len() < count {
        return Front::Need;
    }
    let total = 2 + count as u64 + number(&digits[..count]);
    if total <= REQUEST_LIMIT {
        Front::Whole(total)
    } else {
        Front::Bad
    }
}

// Whether a length in `count` octets may begin with this one: it isn't said in fewer, and isn't past the limit by this alone.
fn may_begin(count: usize, first: u8) -> bool
    requires some { 0 < count }
    requires few { count ≤ 3 }
    ensures { IsTrue result ↔ MayBegin count first }
{
    match count {
        1 => first >= 128,
        2 => first > 0,
        _ => first > 0 && first < 4,
    }
}

// The number that a few digits in base 256 say.
fn number(digits: &[u8]) -> u64
    requires { length digits.now ≤ 3 }
    ensures value { result ≡ number_from_digits 256 digits.now }
    ensures small { result < 2 ^ 24 }
{
    let mut number = 0u64;
    for digit in digits {
        number = number * 256 + *digit as u64;
    }
    number
}

#[cfg(test)]
mod tests;
