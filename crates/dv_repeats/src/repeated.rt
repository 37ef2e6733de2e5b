//! The first member of a list that repeats a key.

ghost use Rattle.std.specs.Prelude.{◌≡◌, ◌<◌, ◌≤◌, ◌+◌, ◌^◌, IfSome, IsSomeAnd, List, ℕ, Some, length};
ghost use Rattle.dv_schema.specs.Reading.{Spot};
ghost use Rattle.dv_repeats.specs.Lists.{AreApartUpTo, AreKeys, Turn};
ghost use Rattle.dv_repeats.specs.Scans.{IsBefore, IsScan};

use crate::window::{ROOM, Window};
use dv_asn1::Cursor;

/// How the members of a list are passed, one after another, by their keys.
pub trait Keyed {
    ghost turn: { Turn };

    /// Passes a member, and gives its key. Where none begins here the answer may be any.
    fn pass_key<'a>(c: &mut Cursor<'a>) -> Option<&'a [u8]>
        ensures member { (k : List ℕ) (m : Spot) → turn c.old ≡ Some (k, m)
            → IsSomeAnd result (λ x. x.now ≡ k) × (c.new ≡ m) }
        ensures less { IfSome result (λ _. length c.new.rest < length c.old.rest) };
}

/// How far a list was gone over.
#[derive(Drop)]
struct Scan<'a> {
    /// Behind the members whose keys were looked for.
    next: Cursor<'a>,
    /// How many these are.
    count: usize,
    /// The number of the first member that repeats a key, where one is known.
    first: Option<usize>,
}

/// Looks for the keys of the members from a cursor on, of up to 1,024, among those behind them.
///
/// The first of these members has the number `number`; no member is looked at from the one on that is known to repeat a key.
fn go_over<'a, K: Keyed>(from: &Cursor<'a>, number: usize, known: Option<usize>) -> Scan<'a>
    requires few { number + length from.now.rest < 2 ^ 63 }
    requires ahead { IfSome known (λ first. number ≤ first) }
    ensures earlier { (n : ℕ) → IsBefore n result.first → IsBefore n known }
    ensures ahead { IfSome result.first (λ first. number + result.count ≤ first) }
    ensures scan { (ks : List (List ℕ)) (q : Spot) → AreKeys K.turn ks from.now q
        → IsScan K.turn from.now number known result.first result.count result.next ks q }
    ensures left { result.count + length result.next.rest ≤ length from.now.rest }
{
    let mut window = Window::new();
    let mut next = from.fork();
    let mut ahead = from.fork();
    let mut passed = 0;
    while known != Some(number + passed) {
        let Some(key) = K::pass_key(&mut ahead) else {
            break;
        };
        if window.has(key) {
            return Scan {
                next,
                count: window.len(),
                first: Some(number + passed),
            };
        }
        if !window.is_full() {
            window.add(key);
            next = ahead.fork();
        }
        passed += 1;
    }
    Scan {
        next,
        count: window.len(),
        first: known,
    }
}

/// The number of the first member of a list whose key a member before it has, counted from 0; None where there is none.
///
/// Of a list that can't be read whole, the members up to its fault count. No memory is taken.
pub fn first_repeated<K: Keyed>(list: &Cursor<'_>) -> Option<usize>
    ensures first { (ks : List (List ℕ)) (q : Spot) → AreKeys K.turn ks list.now q → AreApartUpTo ks result }
    ensures within { (ks : List (List ℕ)) (q : Spot) → AreKeys K.turn ks list.now q → length q.rest ≡ 0
        → IfSome result (λ first. first < length ks) }
{
    let mut from = list.fork();
    let mut number = 0;
    let mut first = None;
    loop {
        let scan = go_over::<K>(&from, number, first);
        first = scan.first;
        if scan.count < ROOM {
            return first;
        }
        from = scan.next;
        number += scan.count;
    }
}
