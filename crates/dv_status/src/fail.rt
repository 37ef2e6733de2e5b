//! Failure bits.

ghost use Rattle.std.specs.Prelude.{◌≡◌, ◌≤◌, ◌-◌, ◌^◌, ◌↔◌, IsTrue, length, true, false, MatchOption};
ghost use Rattle.std.specs.Int.{bit_at};
ghost use Rattle.dv_schema.specs.Tlv.{tlv};
ghost use Rattle.dv_asn1.specs.Writing.{room_of, Writes};
ghost use Rattle.dv_status.specs.Fail.{is_fail, fail_octets, fail_bits, trailing as trailing_of, ends_so as ends_with, number_of as number};

use dv_asn1::Writer;
use std::marker::Model;

/// Failure bits (RFC 4210 5.2.3, PKIFailureInfo): some of the bits 0 to 26, at least one.
///
/// Contracts see them as a number of 32 bits, in which failure bit i has the worth 2^(31 - i), as in the first four octets of
/// a BIT STRING (X.690 8.6.2).
#[derive(Clone, Copy, Debug, PartialEq, Eq)]
pub struct FailBits {
    bits: u32,
}

impl Model for FailBits {
    ghost use Rattle.std.specs.Prelude.{◌≡◌, ◌<◌, ◌^◌, ◌%◌, ℕ};

    ghost Value = { ℕ };

    ghost view = { λ f. f.bits };

    ghost invariant = { λ f. (0 < f.bits) × (f.bits % 32 ≡ 0) × (f.bits < 2 ^ 32) };

    ghost inverse = { λ n. record { bits = n } };
}

impl FailBits {
    /// This bit alone.
    pub fn of(bit: u8) -> FailBits
        requires { bit ≤ 26 }
        ensures { result ≡ 2 ^ (31 - bit) }
    {
        FailBits {
            bits: 1 << (31 - bit),
        }
    }

    /// Whether the bit is among them; past 26 none is.
    pub fn has(self, bit: u8) -> bool
        ensures { IsTrue result ↔ ((bit ≤ 31) × (bit_at self (31 - bit) ≡ 1)) }
    {
        bit <= 31 && self.bits / (1 << (31 - bit)) % 2 == 1
    }

    /// How many contents octets their BIT STRING has.
    pub fn contents_len(self) -> usize
        ensures { result ≡ length (fail_octets self) }
    {
        if self.bits % 16_777_216 == 0 {
            2
        } else if self.bits % 65_536 == 0 {
            3
        } else if self.bits % 256 == 0 {
            4
        } else {
            5
        }
    }

    /// Writes their BIT STRING: up to the last octet that isn't zero, and up to the last bit that is set.
    pub fn write(self, out: &mut Writer<'_>)
        requires { length (tlv 3 (fail_octets self)) ≤ room_of out.old }
        ensures { Writes out.old out.new (tlv 3 (fail_octets self)) }
    {
        let first = (self.bits / 16_777_216) as u8;
        let second = (self.bits / 65_536 % 256) as u8;
        let third = (self.bits / 256 % 256) as u8;
        let fourth = (self.bits % 256) as u8;
        if self.bits % 16_777_216 == 0 {
            out.tlv(0x03, &[trailing(first), first]);
        } else if self.bits % 65_536 == 0 {
            out.tlv(0x03, &[trailing(second), first, second]);
        } else if self.bits % 256 == 0 {
            out.tlv(0x03, &[trailing(third), first, second, third]);
        } else {
            out.tlv(0x03, &[trailing(fourth), first, second, third, fourth]);
        }
    }

    /// The bits that the contents of a BIT STRING spell; None exactly where they spell none.
    pub fn of_contents(contents: &[u8]) -> Option<FailBits>
        ensures { MatchOption result (is_fail contents.now ≡ false)
            (λ f. (is_fail contents.now ≡ true) × (fail_octets f ≡ contents.now)) }
    {
        if !is_fail_contents(contents) {
            return None;
        }
        Some(FailBits {
            bits: bits_of(contents),
        })
    }
}

/// Whether contents have at least one bit set, no trailing zero bits, and no bit above 26.
fn is_fail_contents(contents: &[u8]) -> bool
    ensures { result ≡ is_fail contents.now }
{
    match contents.len() {
        2 => ends_so(contents[0], contents[1]),
        3 => ends_so(contents[0], contents[2]),
        4 => ends_so(contents[0], contents[3]),
        5 => ends_so(contents[0], contents[4]) && contents[0] >= 5,
        _ => false,
    }
}

/// Whether the last octet has a bit set, and the last one that is set stands before the unused ones.
fn ends_so(unused: u8, last: u8) -> bool
    ensures { result ≡ ends_with unused last }
{
    last > 0 && unused == trailing(last)
}

/// The number that such contents spell, and 0 for others of other lengths.
fn bits_of(contents: &[u8]) -> u32
    ensures { result ≡ fail_bits contents.now }
{
    match contents.len() {
        2 => number_of(contents[1], 0, 0, 0),
        3 => number_of(contents[1], contents[2], 0, 0),
        4 => number_of(contents[1], contents[2], contents[3], 0),
        5 => number_of(contents[1], contents[2], contents[3], contents[4]),
        _ => 0,
    }
}

/// The number of four octets.
fn number_of(first: u8, second: u8, third: u8, fourth: u8) -> u32
    ensures { result ≡ number first second third fourth }
{
    first as u32 * 16_777_216 + second as u32 * 65_536 + third as u32 * 256 + fourth as u32
}

/// How many bits at the end of an octet are zero, at most 7.
fn trailing(octet: u8) -> u8
    ensures { result ≡ trailing_of octet }
{
    if octet % 2 == 1 {
        0
    } else if octet % 4 == 2 {
        1
    } else if octet % 8 == 4 {
        2
    } else if octet % 16 == 8 {
        3
    } else if octet % 32 == 16 {
        4
    } else if octet % 64 == 32 {
        5
    } else if octet % 128 == 64 {
        6
    } else {
        7
    }
}
