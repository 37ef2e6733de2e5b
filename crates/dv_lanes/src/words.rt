//! Operations on a word of each of four messages. Each lane of a result is the operation on that lane
//! of the arguments.

ghost use Rattle.std.specs.Prelude.{◌≡◌, ℕ, ◌-◌, ◌*◌, ◌/◌, ◌%◌, ◌^◌, ◌<◌, bit_and, bit_xor, slice_index};
ghost use Rattle.std.specs.Int.{w32, rotate_right};
ghost use Rattle.sha2.specs.Sha256.{add32, big_sigma0, big_sigma1, ch, maj, small_sigma0, small_sigma1};

use std::simd::u32x4;

/// This word in each lane.
#[inline(always)]
pub fn same(word: u32) -> u32x4
    ensures { (j : ℕ) → j < 4 → slice_index result j ≡ word }
{
    u32x4::splat(word)
}

/// The sums, with the carries out of the words dropped.
#[inline(always)]
pub fn add(a: u32x4, b: u32x4) -> u32x4
    ensures { (j : ℕ) → j < 4 → slice_index result j ≡ add32 (slice_index a j) (slice_index b j) }
{
    a + b
}

/// The words with their lowest `k` bits dropped.
#[inline(always)]
pub fn shift_right(x: u32x4, k: u32) -> u32x4
    requires { k < 32 }
    ensures { (j : ℕ) → j < 4 → slice_index result j ≡ slice_index x j / 2 ^ k }
{
    x >> u32x4::splat(k)
}

/// The words moved up by `k` bits, with the bits out of the words dropped.
#[inline(always)]
pub fn shift_left(x: u32x4, k: u32) -> u32x4
    requires { k < 32 }
    ensures { (j : ℕ) → j < 4 → slice_index result j ≡ slice_index x j * 2 ^ k % 2 ^ 32 }
{
    x << u32x4::splat(k)
}

/// The first octet of each word.
#[inline(always)]
pub fn first_octet(x: u32x4) -> u32x4
    ensures { (j : ℕ) → j < 4 → slice_index result j ≡ slice_index x j / 2 ^ 24 % 256 }
{
    x >> u32x4::splat(24)
}

#[inline(always)]
fn xor(a: u32x4, b: u32x4) -> u32x4
    ensures { (j : ℕ) → j < 4 → slice_index result j ≡ bit_xor (slice_index a j) (slice_index b j) }
{
    a ^ b
}

#[inline(always)]
fn and(a: u32x4, b: u32x4) -> u32x4
    ensures { (j : ℕ) → j < 4 → slice_index result j ≡ bit_and (slice_index a j) (slice_index b j) }
{
    a & b
}

#[inline(always)]
fn rotate(x: u32x4, k: u32) -> u32x4
    requires { (0 < k) × (k < 32) }
    ensures { (j : ℕ) → j < 4 → slice_index result j ≡ rotate_right w32 (slice_index x j) k }
{
    (x >> u32x4::splat(k)) | (x << u32x4::splat(32 - k))
}

/// Ch, in one operation fewer than the standard's form.
#[inline(always)]
pub(crate) fn ch(x: u32x4, y: u32x4, z: u32x4) -> u32x4
    ensures { (j : ℕ) → j < 4 → slice_index result j ≡ ch (slice_index x j) (slice_index y j) (slice_index z j) }
{
    xor(z, and(x, xor(y, z)))
}

/// Maj, in one operation fewer. One round's `x ^ y` is the next round's `y ^ z`.
#[inline(always)]
pub(crate) fn maj(x: u32x4, y: u32x4, z: u32x4) -> u32x4
    ensures { (j : ℕ) → j < 4 → slice_index result j ≡ maj (slice_index x j) (slice_index y j) (slice_index z j) }
{
    xor(y, and(xor(x, y), xor(y, z)))
}

// The four functions below nest their rotations, which takes fewer copies of `x`.

/// The upper case sigma 0.
#[inline(always)]
pub(crate) fn big_sigma0(x: u32x4) -> u32x4
    ensures { (j : ℕ) → j < 4 → slice_index result j ≡ big_sigma0 (slice_index x j) }
{
    rotate(xor(x, rotate(xor(x, rotate(x, 9)), 11)), 2)
}

/// The upper case sigma 1.
#[inline(always)]
pub(crate) fn big_sigma1(x: u32x4) -> u32x4
    ensures { (j : ℕ) → j < 4 → slice_index result j ≡ big_sigma1 (slice_index x j) }
{
    rotate(xor(x, rotate(xor(x, rotate(x, 14)), 5)), 6)
}

/// The lower case sigma 0.
#[inline(always)]
pub(crate) fn small_sigma0(x: u32x4) -> u32x4
    ensures { (j : ℕ) → j < 4 → slice_index result j ≡ small_sigma0 (slice_index x j) }
{
    xor(rotate(xor(x, rotate(x, 11)), 7), shift_right(x, 3))
}

/// The lower case sigma 1.
#[inline(always)]
pub(crate) fn small_sigma1(x: u32x4) -> u32x4
    ensures { (j : ℕ) → j < 4 → slice_index result j ≡ small_sigma1 (slice_index x j) }
{
    xor(rotate(xor(x, rotate(x, 2)), 17), shift_right(x, 10))
}
