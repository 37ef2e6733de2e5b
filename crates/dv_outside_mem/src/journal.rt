//! A file and an output in memory, with every call that was made on them.
ghost use Rattle.std.specs.Prelude.{◌≡◌, ◌+◌, ◌≤◌, ◌<◌, ◌++◌, ℕ, List, [], true, length, take, vec_len, vec_capacity, IfOk, OnOk, Result, Ok};
ghost use Rattle.dv_outside.specs.Station.{Looks, Syncs, Writes, Puts};
ghost use Rattle.dv_outside.specs.declared.fault.Failed.{Failed};
ghost use Rattle.dv_outside_mem.specs.Over.{over};
ghost use Rattle.dv_outside_mem.specs.Replay.{Stands};

use crate::image::{Pick, image};
use crate::made::Made;
use crate::tape::{add, keep, overwrite};
use std::alloc::{AllocError, Global};

/// A file and an output. Each call that changes them is kept, with its octets in the tape, so that what a crash at any of
/// them may leave can be told afterwards.
#[derive(Drop)]
pub struct Journal {
    base: Vec<u8>,
    file: Vec<u8>,
    sent: Vec<u8>,
    tape: Vec<u8>,
    log: Vec<Made>,
    ghost stands: { Stands base.items file.items sent.items tape.items log.items },
}

impl Journal {
    ghost use Rattle.dv_outside_mem.specs.Journal.{content, moment_in, image_in, HasRoom, Fills, Fits};

    /// A file that holds these octets, with the memory for so many calls that are handed so many octets.
    pub fn new(
        alloc: Global,
        octets: Vec<u8>,
        calls: usize,
        written: usize,
    ) -> Result<Journal, AllocError>
        ensures reads { IfOk result (λ j. (content j).reads ≡ octets.items) }
        ensures moment { IfOk result (λ j. (content j).moment ≡ 0) }
        ensures images { IfOk result (λ j. (b : List ℕ) → (content j).image 0 b → b ≡ octets.items) }
        ensures sent { IfOk result (λ j. (content j).sent 0 ≡ []) }
        ensures room { IfOk result (Fits (record { calls = 0; octets = 0 }) (record { calls = calls; octets = written })) }
    {
        let mut file = Vec::with_capacity(alloc, written.saturating_add(octets.len()))?;
        file.extend_from_slice(&octets)?;
        Ok(Journal {
            base: octets,
            file,
            sent: Vec::with_capacity(alloc, written)?,
            tape: Vec::with_capacity(alloc, written)?,
            log: Vec::with_capacity(alloc, calls)?,
        })
    }

    /// What the file holds.
    pub fn file(&self) -> &[u8]
        ensures { result.now ≡ (content self.now).reads }
    {
        &self.file
    }

    /// What was sent.
    pub fn sent(&self) -> &[u8]
        ensures { result.now ≡ (content self.now).sent (content self.now).moment }
    {
        &self.sent
    }

    /// How many calls were made.
    pub fn calls(&self) -> usize
        ensures { result ≡ (content self.now).moment }
    {
        self.log.len()
    }

    /// What a pick leaves of the file in a crash during the call of this number.
    pub fn image(&self, alloc: Global, call: usize, pick: Pick) -> Result<Vec<u8>, AllocError>
        requires { call ≤ (content self.now).moment }
        ensures picked { IfOk result (λ octets. octets.items ≡ image_in self.now call pick) }
        ensures may { IfOk result (λ octets. (content self.now).image (moment_in self.now call) octets.items) }
    {
        image(alloc, &self.base, &self.tape, &self.log, call, pick)
    }

    /// A call that changes nothing.
    pub fn look(&mut self)
        requires { HasRoom 0 self.old }
        ensures looks { Looks (content self.old) (content self.new) }
        ensures moment { (content self.new).moment ≡ (content self.old).moment + 1 }
        ensures fills { Fills 0 self.old self.new }
    {
        keep(&mut self.log, Made::Look);
    }

    /// Makes sure of the file.
    pub fn sync(&mut self)
        requires { HasRoom 0 self.old }
        ensures syncs { (result : Result (Unit {0}) Failed) → Syncs result (content self.old) (content self.new) }
        ensures moment { (content self.new).moment ≡ (content self.old).moment + 1 }
        ensures fills { Fills 0 self.old self.new }
    {
        keep(&mut self.log, Made::Sync);
    }

    /// Writes the first `done` of these octets from a place on.
    pub fn write(&mut self, place: usize, bytes: &[u8], done: usize)
        requires place { place ≤ length (content self.old).reads }
        requires done { done ≤ length bytes.now }
        requires room { HasRoom (length bytes.now) self.old }
        ensures reads { (content self.new).reads ≡ over (content self.old).reads place (take done bytes.now) }
        ensures writes { (result : Result (Unit {0}) Failed) → OnOk result (done ≡ length bytes.now)
            → Writes place bytes.now result (content self.old) (content self.new) }
        ensures moment { (content self.new).moment ≡ (content self.old).moment + 1 }
        ensures fills { Fills (length bytes.now) self.old self.new }
    {
        let front = &bytes[..done];
        let write = Made::Write {
            place,
            from: self.tape.len(),
            done,
            rest: bytes.len() - done,
        };
        keep(&mut self.log, write);
        add(&mut self.tape, front);
        overwrite(&mut self.file, place, front);
    }

    /// Sends the first `done` of these octets.
    pub fn put(&mut self, bytes: &[u8], done: usize)
        requires done { done ≤ length bytes.now }
        requires room { HasRoom (length bytes.now) self.old }
        ensures sent { (content self.new).sent (content self.new).moment ≡ (content self.old).sent (content self.old).moment ++ take done bytes.now }
        ensures puts { (result : Result (Unit {0}) Failed) → OnOk result (done ≡ length bytes.now)
            → Puts bytes.now result (content self.old) (content self.new) }
        ensures moment { (content self.new).moment ≡ (content self.old).moment + 1 }
        ensures fills { Fills (length bytes.now) self.old self.new }
    {
        let front = &bytes[..done];
        let put = Made::Put {
            from: self.tape.len(),
            done,
        };
        keep(&mut self.log, put);
        add(&mut self.tape, front);
        add(&mut self.sent, front);
    }
}
