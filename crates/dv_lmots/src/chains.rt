//! The 34 chains of a leaf, walked from where each stands to where each is to end.

ghost use Rattle.std.specs.Prelude.{◌≡◌, ℕ, [], ◌+◌, ◌*◌, ◌^◌, ◌<◌, ◌≤◌, List, slice_index, slice_index_or};
ghost use Rattle.dv_lmots.specs.Lmots.{chain};
ghost use Rattle.dv_lmots.specs.Walk.{ArePlaces, AreWithin, GoOn};

use crate::CHAINS;
use crate::chain::Chain;
use crate::four::{gather, value_in, walk};
use std::simd::u32x4;

// The most steps that four chains make before the four with most steps left are chosen again.
const STRETCH: u8 = 64;

/// The ends of the chains of the leaf `q`: each goes from its value in `start` before its step in
/// `from` to the value before its step in `to`.
///
/// Four of them go at once, as long as four have steps left. They are those with the most, and they
/// make a stretch of steps at a time: so all chains come near their ends together, and little is left
/// over. The rest goes one after another.
pub(crate) fn walk_all(
    id: &[u8; 16],
    q: u32,
    start: &[[u8; 32]; CHAINS],
    from: &[u8; CHAINS],
    to: &[u8; CHAINS],
) -> [[u8; 32]; CHAINS]
    requires { AreWithin from.now to.now }
    ensures { (i : ℕ) → i < 34 → slice_index_or result i []
        ≡ chain id.now q i (slice_index_or start.now i []) (slice_index from.now i) (slice_index to.now i) }
{
    let mut values = *start;
    let mut at = *from;
    walk_in_fours(id, q, &mut values, &mut at, to);
    walk_rest(id, q, &mut values, &at, to);
    values
}

// Takes four chains on at once, as long as four have steps left.
fn walk_in_fours(
    id: &[u8; 16],
    q: u32,
    values: &mut [[u8; 32]; CHAINS],
    at: &mut [u8; CHAINS],
    to: &[u8; CHAINS],
)
    requires { AreWithin at.old to.now }
    ensures chains { GoOn id.now q values.old at.old values.new at.new }
    ensures within { AreWithin at.new to.now }
{
    // Each turn ends a chain or makes 4 * 64 steps, and there are 34 * 255 steps at most.
    for _ in 0..2 * CHAINS {
        let places = longest_four(at, to);
        let count = steps_together(at, to, &places);
        if count == 0 {
            return;
        }
        walk_four(id, q, values, at, &places, count);
    }
}

// Takes each chain on to its end, one after another.
fn walk_rest(
    id: &[u8; 16],
    q: u32,
    values: &mut [[u8; 32]; CHAINS],
    at: &[u8; CHAINS],
    to: &[u8; CHAINS],
)
    requires { AreWithin at.now to.now }
    ensures { (i : ℕ) → i < 34 → slice_index_or values.new i []
        ≡ chain id.now q i (slice_index_or values.old i []) (slice_index at.now i) (slice_index to.now i) }
{
    for i in 0..CHAINS {
        let mut chain = Chain::new(id, q, i as u16, &values[i]);
        chain.walk(at[i], to[i]);
        values[i] = chain.value();
    }
}

// The places of the four chains with most steps left.
fn longest_four(at: &[u8; CHAINS], to: &[u8; CHAINS]) -> [usize; 4]
    requires { AreWithin at.now to.now }
    ensures { ArePlaces result }
{
    let a = longest_but(at, to, &[]);
    let b = longest_but(at, to, &[a]);
    let c = longest_but(at, to, &[a, b]);
    let d = longest_but(at, to, &[a, b, c]);
    [a, b, c, d]
}

// The place of a chain with most steps left, but for those that are taken.
fn longest_but(at: &[u8; CHAINS], to: &[u8; CHAINS], taken: &[usize]) -> usize
    requires { AreWithin at.now to.now }
    ensures { result < 34 }
{
    let mut longest = 0;
    let mut most = 0;
    for i in 0..CHAINS {
        let left = to[i] - at[i];
        if left > most && !taken.contains(&i) {
            longest = i;
            most = left;
        }
    }
    longest
}

// How many steps the four chains make together: a stretch, or what one of them has left.
fn steps_together(at: &[u8; CHAINS], to: &[u8; CHAINS], places: &[usize; 4]) -> u8
    requires places { ArePlaces places.now }
    requires within { AreWithin at.now to.now }
    ensures { (l : ℕ) → l < 4
        → slice_index at.now (slice_index places.now l) + result ≤ slice_index to.now (slice_index places.now l) }
{
    let mut count = STRETCH;
    for l in 0..4 {
        count = count.min(to[places[l]] - at[places[l]]);
    }
    count
}

// Takes the chains at four places `count` steps on.
fn walk_four(
    id: &[u8; 16],
    q: u32,
    values: &mut [[u8; 32]; CHAINS],
    at: &mut [u8; CHAINS],
    places: &[usize; 4],
    count: u8,
)
    requires places { ArePlaces places.now }
    requires room { (l : ℕ) → l < 4 → slice_index at.old (slice_index places.now l) + count < 256 }
    ensures chains { GoOn id.now q values.old at.old values.new at.new }
    ensures within { (to : List ℕ) → AreWithin at.old to
        → ((l : ℕ) → l < 4 → slice_index at.old (slice_index places.now l) + count ≤ slice_index to (slice_index places.now l))
        → AreWithin at.new to }
{
    let start = gather(
        &values[places[0]],
        &values[places[1]],
        &values[places[2]],
        &values[places[3]],
    );
    let end = walk(id, q, first_steps(at, places), start, count);
    // All are computed before one is written, since a place may stand there twice.
    let next = steps_after(at, places, count);
    for l in 0..4 {
        values[places[l]] = value_in(&end, l);
        at[places[l]] = next[l];
    }
}

// What the next step of each of the chains hashes of its place and number: u16str(i) || u8str(j) || 0.
fn first_steps(at: &[u8; CHAINS], places: &[usize; 4]) -> u32x4
    requires { ArePlaces places.now }
    ensures { (l : ℕ) → l < 4 → slice_index result l
        ≡ slice_index places.now l * 2 ^ 16 + slice_index at.now (slice_index places.now l) * 2 ^ 8 }
{
    let mut steps = [0; 4];
    for l in 0..4 {
        steps[l] = places[l] as u32 * 0x1_0000 + at[places[l]] as u32 * 0x100;
    }
    u32x4::from_array(steps)
}

// Where the chains at the four places stand after `count` steps.
fn steps_after(at: &[u8; CHAINS], places: &[usize; 4], count: u8) -> [u8; 4]
    requires places { ArePlaces places.now }
    requires room { (l : ℕ) → l < 4 → slice_index at.now (slice_index places.now l) + count < 256 }
    ensures { (l : ℕ) → l < 4 → slice_index result l ≡ slice_index at.now (slice_index places.now l) + count }
{
    let mut next = [0; 4];
    for l in 0..4 {
        next[l] = at[places[l]] + count;
    }
    next
}
