//! Lists that grow within the room that they have.
ghost use Rattle.std.specs.Prelude.{◌≡◌, ◌+◌, ◌<◌, ◌≤◌, ◌++◌, ◌∷◌, [], length, vec_len, vec_capacity, OnOk, IsOk};
ghost use Rattle.dv_outside_mem.specs.Over.{over};

use crate::made::Made;
use std::alloc::AllocError;

/// Puts a call behind the others.
pub fn keep(log: &mut Vec<Made>, call: Made)
    requires { vec_len log.old < vec_capacity log.old }
    ensures items { log.new.items ≡ log.old.items ++ call ∷ [] }
    ensures capacity { vec_capacity log.old ≤ vec_capacity log.new }
{
    let _ = log.push(call);
}

/// Puts octets behind the others.
pub fn add(octets: &mut Vec<u8>, more: &[u8])
    requires { vec_len octets.old + length more.now ≤ vec_capacity octets.old }
    ensures items { octets.new.items ≡ octets.old.items ++ more.now }
    ensures capacity { vec_capacity octets.old ≤ vec_capacity octets.new }
{
    let _ = octets.extend_from_slice(more);
}

/// Writes octets over a file, and past its end. It takes memory only where its room is too small.
pub fn lay(file: &mut Vec<u8>, place: usize, octets: &[u8]) -> Result<(), AllocError>
    requires { place ≤ vec_len file.old }
    ensures items { OnOk result (file.new.items ≡ over file.old.items place octets.now) }
    ensures room { place + length octets.now ≤ vec_capacity file.old → IsOk result }
    ensures capacity { vec_capacity file.old ≤ vec_capacity file.new }
{
    let inside = octets.len().min(file.len() - place);
    file[place..place + inside].copy_from_slice(&octets[..inside]);
    file.extend_from_slice(&octets[inside..])
}

/// Writes octets over a file, and past its end.
pub fn overwrite(file: &mut Vec<u8>, place: usize, octets: &[u8])
    requires within { place ≤ vec_len file.old }
    requires room { place + length octets.now ≤ vec_capacity file.old }
    ensures items { file.new.items ≡ over file.old.items place octets.now }
    ensures capacity { vec_capacity file.old ≤ vec_capacity file.new }
{
    let _ = lay(file, place, octets);
}
