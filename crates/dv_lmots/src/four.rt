//! Four chains of a leaf, walked at once: a chain in each lane.

ghost use Rattle.std.specs.Prelude.{◌≡◌, ℕ, [], ◌∷◌, ◌+◌, ◌*◌, ◌/◌, ◌%◌, ◌^◌, ◌<◌, ◌≤◌, length, slice_index, slice_index_or};
ghost use Rattle.sha2.specs.Sha256.{digest_bytes, word_at};
ghost use Rattle.dv_lanes.specs.Lanes.{state_lane};
ghost use Rattle.dv_lmots.specs.Lmots.{chain_prefix, chain_step, chain_steps};

use dv_lanes::words::{add, first_octet, same, shift_left};
use dv_lanes::{compress, initial};
use std::simd::u32x4;

/// The word at octet `at`, its highest octet first.
#[inline(always)]
fn word(octets: &[u8], at: usize) -> u32
    requires { at + 4 ≤ length octets.now }
    ensures { result ≡ word_at octets.now at }
{
    u32::from_be_bytes([octets[at], octets[at + 1], octets[at + 2], octets[at + 3]])
}

// The last three octets of the words `a`, and then the first octet of the words `b`.
#[inline(always)]
fn across(a: u32x4, b: u32x4) -> u32x4
    ensures { (l : ℕ) → l < 4
        → slice_index result l ≡ (slice_index a l * 2 ^ 8 % 2 ^ 32 + slice_index b l / 2 ^ 24 % 256) % 2 ^ 32 }
{
    add(shift_left(a, 8), first_octet(b))
}

// One step of four chains of the leaf `q`, from their values `v`. `steps` has u16str(i) || u8str(j) of
// each and an octet 0. The message of a step is a block of its own: what stands before the value, the
// value, and the padding of 55 octets.
#[inline(always)]
fn step(id: &[u8; 16], q: u32, steps: u32x4, v: [u32x4; 8]) -> [u32x4; 8]
    ensures { (l i j : ℕ) → l < 4 → i < 2 ^ 16 → j < 256 → slice_index steps l ≡ i * 2 ^ 16 + j * 2 ^ 8
        → digest_bytes (state_lane l result) 8 ≡ chain_step (chain_prefix id.now q i) j (digest_bytes (state_lane l v) 8) }
{
    let words = [
        same(word(id, 0)),
        same(word(id, 4)),
        same(word(id, 8)),
        same(word(id, 12)),
        same(q),
        add(steps, first_octet(v[0])),
        across(v[0], v[1]),
        across(v[1], v[2]),
        across(v[2], v[3]),
        across(v[3], v[4]),
        across(v[4], v[5]),
        across(v[5], v[6]),
        across(v[6], v[7]),
        add(shift_left(v[7], 8), same(0x80)),
        same(0),
        same(55 * 8),
    ];
    compress(initial(), words)
}

/// `count` steps of four chains of the leaf `q`, from their values `start`. `first` has u16str(i) ||
/// u8str(j) of the first step of each and an octet 0.
pub(crate) fn walk(id: &[u8; 16], q: u32, first: u32x4, start: [u32x4; 8], count: u8) -> [u32x4; 8]
    ensures { (l i j : ℕ) → l < 4 → i < 2 ^ 16 → j + count < 256 → slice_index first l ≡ i * 2 ^ 16 + j * 2 ^ 8
        → digest_bytes (state_lane l result) 8 ≡ chain_steps (chain_prefix id.now q i) (digest_bytes (state_lane l start) 8) j count }
{
    let mut v = start;
    for n in 0..count {
        let next = step(id, q, add(first, same(0x100 * n as u32)), v);
        v = next;
    }
    v
}

/// Four values, one in each lane.
pub(crate) fn gather(a: &[u8; 32], b: &[u8; 32], c: &[u8; 32], d: &[u8; 32]) -> [u32x4; 8]
    ensures { (l : ℕ) → l < 4
        → digest_bytes (state_lane l result) 8 ≡ slice_index_or (a.now ∷ b.now ∷ c.now ∷ d.now ∷ []) l [] }
{
    let mut v = [same(0); 8];
    for k in 0..8 {
        v[k] = u32x4::from_array([
            word(a, 4 * k),
            word(b, 4 * k),
            word(c, 4 * k),
            word(d, 4 * k),
        ]);
    }
    v
}

/// The value in a lane.
pub(crate) fn value_in(v: &[u32x4; 8], lane: usize) -> [u8; 32]
    requires { lane < 4 }
    ensures { result ≡ digest_bytes (state_lane lane v.now) 8 }
{
    let mut value = [0; 32];
    for k in 0..8 {
        let words = v[k].to_array();
        value[4 * k..4 * k + 4].copy_from_slice(&words[lane].to_be_bytes());
    }
    value
}
