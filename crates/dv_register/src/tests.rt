//! A register over a file in memory and over a real one. The octets that are wanted were written by hand from the layout.
//!
//! Each helper makes one call of a register and gives back plain values, so that a test's proof sees no more than these.

mod file;
mod images;
mod opening;
mod reserving;

ghost use Rattle.std.specs.Prelude.{◌≤◌, length};
ghost use Rattle.dv_register.specs.Layout.{IsKnownKind};

use crate::{Contents, Create, Open, Register, Reserve, SigningKey};
use dv_lms::{Height, Key};
use dv_outside::Releases;
use dv_outside_mem::MemStation;
use std::alloc::{AllocError, Global};

/// A rule under which nothing may be put.
pub struct Nothing;

impl Releases for Nothing {
    ghost allows = { λ key first list octets. ⊥ };

    ghost grows = { λ key first list more octets none. none };
}

/// A register in memory, which sends nothing.
pub type Silent = Register<MemStation, Nothing>;

/// A key of 32 leaves.
pub fn key(alloc: Global) -> Result<SigningKey, AllocError> {
    Ok(SigningKey::new(Key::from_seed(alloc, Height::H5, [7; 16], [9; 32])?))
}

/// A station over these octets, of which the calls of these numbers fail.
pub fn station(
    alloc: Global,
    octets: Vec<u8>,
    failing: Vec<u64>,
) -> Result<MemStation, AllocError> {
    MemStation::new(alloc, octets, failing, 1000, 100_000)
}

/// Makes a register whose first serial is 1.
pub fn create(alloc: Global, station: MemStation) -> Result<Result<Silent, Create>, AllocError> {
    let key = key(alloc)?;
    match Register::create(alloc, station, &key, 1) {
        Ok(register) => Ok(Ok(register)),
        Err((_station, refusal)) => Ok(Err(refusal)),
    }
}

/// Opens a register.
pub fn open(alloc: Global, station: MemStation) -> Result<Result<Silent, Open>, AllocError> {
    let key = key(alloc)?;
    match Register::open(alloc, station, &key) {
        Ok(register) => Ok(Ok(register)),
        Err((_station, refusal)) => Ok(Err(refusal)),
    }
}

/// Adds a record, for which it makes room first, and tells its serial.
pub fn add(
    register: &mut Silent,
    kind: u8,
    contents: &[u8],
) -> Result<Result<u64, Reserve>, AllocError>
    requires kind { IsKnownKind kind }
    requires short { length contents.now ≤ 1048576 }
{
    register.prepare(contents.len())?;
    match register.reserve(kind, contents) {
        Ok(slot) => Ok(Ok(slot.serial())),
        Err(refusal) => Ok(Err(refusal)),
    }
}

/// The kind and the contents of a record, or nothing where there is none.
pub fn record(
    alloc: Global,
    register: &mut Silent,
    index: u32,
) -> Option<Result<(u8, Vec<u8>), Contents>> {
    if index < register.len() {
        Some(register.contents(alloc, index))
    } else {
        None
    }
}

/// The octets of a register of that key whose first serial is 1, with these behind its head.
pub fn file_of(alloc: Global, behind: &[u8]) -> Result<Vec<u8>, AllocError> {
    let mut octets = b"DVREG001".to_vec(alloc)?;
    octets.extend_from_slice(&key(alloc)?.public())?;
    octets.extend_from_slice(&[0, 0, 0, 0, 0, 0, 0, 1])?;
    octets.extend_from_slice(behind)?;
    Ok(octets)
}
