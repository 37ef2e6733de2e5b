//! Octets in memory that come in pieces.
ghost use Rattle.std.specs.Prelude.{◌≡◌, ◌↔◌, ◌<◌, ◌≤◌, ◌++◌, ◌-◌, ◌+◌, ℕ, min, false, Some, is_some, length, take, drop, All, IfOk, IsErr};
ghost use Rattle.dv_outside.specs.Causes.{HasCause};
ghost use Rattle.dv_outside.specs.Source.{is_end, Takes};
ghost use Rattle.dv_outside_mem.specs.Plan.{Fails};
ghost use Rattle.dv_outside_mem.specs.Source.{SourceState, next_size, after_read};

use crate::plan::FaultPlan;
use dv_outside::{Failed, Source};
use std::marker::Model;

/// Octets in memory that come in pieces. Contracts see what is left of them, the sizes of the next pieces, whether it has
/// ended, and which calls fail.
#[derive(Drop)]
pub struct MemSource {
    octets: Vec<u8>,
    at: usize,
    cuts: Vec<usize>,
    piece: usize,
    ended: bool,
    plan: FaultPlan,
}

impl Model for MemSource {
    ghost Value = { SourceState };

    ghost view = { λ s. record { left = drop s.at s.octets.items; sizes = drop s.piece s.cuts.items; ended = s.ended; plan = s.plan } };

    ghost invariant = { λ s. (s.at ≤ length s.octets.items) × ((s.piece ≤ length s.cuts.items) × All (λ size. 0 < size) (drop s.piece s.cuts.items)) };
}

impl MemSource {
    /// A source of these octets. They come in pieces of the listed sizes, then of 65,536 octets; a piece is shorter where
    /// the buffer is, or where fewer octets are left. Each read that doesn't fail uses one size.
    pub fn new(octets: Vec<u8>, cuts: Vec<usize>, failing: Vec<u64>) -> MemSource
        requires { All (λ size. 0 < size) cuts.items }
        ensures { result ≡ record {
          left = octets.items;
          sizes = cuts.items;
          ended = false;
          plan = record { failing = failing.items; calls = 0; faults = 0 };
        } }
    {
        MemSource {
            octets,
            at: 0,
            cuts,
            piece: 0,
            ended: false,
            plan: FaultPlan::new(failing),
        }
    }
}

// Copies what stands from `at` on into the front of `into`: at most `size` octets. Answers how many.
fn copy_piece(octets: &[u8], at: usize, size: usize, into: &mut [u8]) -> usize
    requires { at ≤ length octets.now }
    ensures count { result ≡ min size (min (length into.old) (length (drop at octets.now))) }
    ensures within { at + result ≤ length octets.now }
    ensures octets { into.new ≡ take result (drop at octets.now) ++ drop result into.old }
{
    let from = &octets[at..];
    let n = size.min(into.len().min(from.len()));
    into[..n].copy_from_slice(&from[..n]);
    n
}

// The size of this piece.
fn size_at(cuts: &[usize], piece: usize) -> usize
    ensures { result ≡ next_size (drop piece cuts.now) }
{
    match cuts.get(piece) {
        Some(size) => *size,
        None => 65_536,
    }
}

// The piece after this one. Behind the last listed one there is no other.
fn piece_after(cuts: &[usize], piece: usize) -> usize
    requires { piece ≤ length cuts.now }
    ensures within { result ≤ length cuts.now }
    ensures later { piece ≤ result }
    ensures used { drop result cuts.now ≡ drop 1 (drop piece cuts.now) }
{
    if piece < cuts.len() { piece + 1 } else { piece }
}

impl Source for MemSource {
    ghost left = { λ s. Some s.left };

    ghost ended = { λ s. s.ended };

    ghost faults = { λ s. s.plan.faults };

    fn read(&mut self, into: &mut [u8]) -> Result<usize, Failed>
        // The trait's.
        requires { 0 < length into.old }
        ensures bound { IfOk result (λ n. n ≤ length into.old) }
        ensures content { Takes (Some self.old.left) (Some self.new.left) into.new result }
        ensures ended { self.new.ended ≡ is_end result }
        ensures cause { HasCause self.old.plan.faults self.new.plan.faults result }

        // Which calls fail, which piece comes, and what is left.
        ensures fails { IsErr result ↔ Fails self.old.plan }
        ensures piece { IfOk result (λ n. n ≡ min (next_size self.old.sizes) (min (length into.old) (length self.old.left))) }
        ensures rest { IfOk result (λ n. drop n into.new ≡ drop n into.old) }
        ensures after { self.new ≡ after_read self.old result }
    {
        if self.plan.enter() {
            self.plan.fault();
            self.ended = false;
            return Err(Failed);
        }
        let size = size_at(&self.cuts, self.piece);
        let n = copy_piece(&self.octets, self.at, size, into);
        self.at += n;
        self.piece = piece_after(&self.cuts, self.piece);
        self.ended = n == 0;
        Ok(n)
    }
}

#[cfg(test)]
mod tests {
    use super::*;
    use std::test::Fail;

    #[test]
    fn gives_pieces_and_fails_at_listed_calls(rt: HostRuntime) -> Result<(), Fail> {
        let alloc = rt.alloc();
        let octets = b"abcdefg".to_vec(alloc)?;
        let cuts = vec![in alloc; 2, 9, 1]?;
        let failing = vec![in alloc; 1]?;
        let mut source = MemSource::new(octets, cuts, failing);
        let rows: [(Result<usize, Failed>, &[u8]); 6] = [
            (Ok(2), b"ab"),
            (Err(Failed), b"ab"),
            (Ok(3), b"cde"),
            (Ok(1), b"fde"),
            (Ok(1), b"gde"),
            (Ok(0), b"gde"),
        ];
        let mut into = *b"...";
        for (answer, front) in rows {
            assert_eq!(rt; source.read(&mut into), answer);
            assert!(rt; into.starts_with(front));
        }
        Ok(())
    }
}
