//! Seed files.

ghost use Rattle.std.specs.Prelude.{◌≡◌, ◌≢◌, ◌≤◌, ◌<◌, IfOk, IfErr, length, slice_index, take};
ghost use Rattle.dv_files.specs.Seed.{IsSeedFile, IsSeedCause, seed_start};

use crate::faults::SeedFile;
use dv_lms::{Height, Key};
use dv_register::SigningKey;
use std::alloc::Global;

/// How many octets a seed file has.
const FILE_LEN: usize = 60;

/// The key of a register, from the octets of its seed file: the 8 octets of DVSEED01, the LMS type (RFC 8554 5.1) in 4 octets,
/// the highest first, the identifier I of the tree in 16, and the SEED (RFC 8554 appendix A) in 32.
///
/// [`SeedFile::Refused`] comes exactly where the octets are no seed file of a height that is known, at the first octet with
/// which none goes on: of more than 60 octets at place 60, where all before are in order; of fewer at their end.
pub fn read_seed(alloc: Global, octets: &[u8]) -> Result<SigningKey, SeedFile>
    ensures found { IfOk result (IsSeedFile octets.now) }
    ensures refused { IfErr result (IsSeedCause octets.now) }
{
    let height = Height::H5;
    let start = seed_start(height);
    let same = agreement(octets, &start);
    if same < start.len() {
        return Err(SeedFile::Refused { place: same as u64 });
    }
    if octets.len() != FILE_LEN {
        return Err(SeedFile::Refused {
            place: octets.len().min(FILE_LEN) as u64,
        });
    }
    let mut id = [0; 16];
    id.copy_from_slice(&octets[12..28]);
    let mut seed = [0; 32];
    seed.copy_from_slice(&octets[28..]);
    let key = Key::from_seed(alloc, height, id, seed)?;
    Ok(SigningKey::new(key))
}

/// How a seed file begins: its magic, and the LMS type of the tree.
fn seed_start(height: Height) -> [u8; 12]
    ensures { result ≡ seed_start height }
{
    let [a, b, c, d] = height.lms_type().to_be_bytes();
    [b'D', b'V', b'S', b'E', b'E', b'D', b'0', b'1', a, b, c, d]
}

/// With how many octets, the first of the start, the octets begin.
fn agreement(octets: &[u8], start: &[u8; 12]) -> usize
    ensures start { result ≤ 12 }
    ensures within { result ≤ length octets.now }
    ensures same { take result octets.now ≡ take result start.now }
    ensures differs { result < 12 → result < length octets.now → slice_index octets.now result ≢ slice_index start.now result }
{
    for (k, octet) in start.iter().enumerate() {
        if octets.get(k) != Some(octet) {
            return k;
        }
    }
    start.len()
}
