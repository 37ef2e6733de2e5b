//! What the contents of a primitive value may be, and comparing encodings.

ghost use Rattle.std.specs.Prelude.{◌≡◌, Some};
ghost use Rattle.dv_schema.specs.Octets.{is_less as less, same_octets};
ghost use Rattle.dv_schema.specs.Rules.{is_oid as oid_rule, is_bits as bits_rule, is_integer as integer_rule, is_true as true_rule, is_bool as bool_rule, is_allowed as allowed_rule};
ghost use Rattle.dv_schema.specs.Schema.{is_among as among};

/// The contents of a BOOLEAN.
fn is_bool(octets: &[u8]) -> bool
    ensures { result ≡ bool_rule octets.now }
{
    match octets {
        [octet] => *octet == 0x00 || *octet == 0xFF,
        _ => false,
    }
}

/// The contents of a BOOLEAN that is TRUE.
pub(crate) fn is_true(octets: &[u8]) -> bool
    ensures { result ≡ true_rule octets.now }
{
    match octets {
        [octet] => *octet == 0xFF,
        _ => false,
    }
}

/// The contents of an INTEGER or ENUMERATED, the fewest octets that say it.
pub(crate) fn is_integer(octets: &[u8]) -> bool
    ensures { result ≡ integer_rule octets.now }
{
    match octets {
        [] => false,
        [_] => true,
        [0x00, second, ..] => *second >= 128,
        [0xFF, second, ..] => *second < 128,
        _ => true,
    }
}

/// The contents of a BIT STRING whose unused bits are zero.
pub(crate) fn is_bits(octets: &[u8]) -> bool
    ensures { result ≡ bits_rule octets.now }
{
    match octets {
        [] => false,
        [unused] => *unused == 0,
        [unused, .., last] => *unused < 8 && *last % (1 << *unused) == 0,
    }
}

/// The contents of an OBJECT IDENTIFIER whose arcs are the shortest.
pub(crate) fn is_oid(octets: &[u8]) -> bool
    ensures { result ≡ oid_rule octets.now }
{
    if octets.is_empty() {
        return false;
    }
    // Whether the next octet begins an arc.
    let mut fresh = true;
    for octet in octets {
        if fresh && *octet == 0x80 {
            return false;
        }
        fresh = *octet < 128;
    }
    fresh
}

/// The contents of a primitive value with this tag, inside a value of any type.
pub(crate) fn is_allowed(tag: u8, octets: &[u8]) -> bool
    ensures { result ≡ allowed_rule tag octets.now }
{
    match tag {
        0x01 => is_bool(octets),
        0x02 | 0x0A => is_integer(octets),
        0x03 => is_bits(octets),
        0x05 => octets.is_empty(),
        0x06 => is_oid(octets),
        _ => true,
    }
}

/// Whether the tag is one of these.
pub(crate) fn is_among(tags: &[u8], tag: u8) -> bool
    ensures { result ≡ among (Some tags.now) tag }
{
    for other in tags {
        if *other == tag {
            return true;
        }
    }
    false
}

/// Whether one encoding is less than another, at the first octet where they differ.
pub(crate) fn is_less(left: &[u8], right: &[u8]) -> bool
    ensures { result ≡ less left.now right.now }
{
    for i in 0..left.len().min(right.len()) {
        if left[i] != right[i] {
            return left[i] < right[i];
        }
    }
    left.len() < right.len()
}

/// Whether two spellings are the same octets.
pub fn same(left: &[u8], right: &[u8]) -> bool
    ensures { result ≡ same_octets left.now right.now }
{
    if left.len() != right.len() {
        return false;
    }
    for i in 0..left.len() {
        if left[i] != right[i] {
            return false;
        }
    }
    true
}
