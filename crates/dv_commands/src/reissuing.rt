//! Putting the certificate of a record again.
ghost use Rattle.std.specs.Prelude.{◌≡◌, ◌+◌, ◌<◌, ◌≤◌, length, MatchOption, IsTrue};
ghost use Rattle.dv_outside.specs.Station.{Looks, Spends};
ghost use Rattle.dv_register.specs.State.{IsKept, IsSameRegister};
ghost use Rattle.dv_cert.specs.Certificates.{MayLeave};
ghost use Rattle.dv_commands.specs.Answers.{IsAbsent, IsRemade, PutsAgain, Reissues};

use crate::certificate::certificate;
use crate::refusals::Reissue;
use dv_cert::NotaryRule;
use dv_outside::Station;
use dv_register::{Register, SigningKey};
use std::alloc::Global;

/// The number of the record with this serial number. What holds of every register is known after it.
fn index_of<V: Station>(register: &Register<V, NotaryRule>, serial: u64) -> Option<u32>
    ensures index { MatchOption result (IsAbsent register.now.first register.now.list serial)
        (λ index. (index < length register.now.list) × (serial ≡ register.now.first + index)) }
    ensures kept { IsKept V.tells V.content V.counts MayLeave register.now }
{
    let len = register.len();
    match serial.checked_sub(register.first()) {
        Some(index) if index < u64::from(len) => Some(index as u32),
        _ => None,
    }
}

/// The certificate of the record of this number, made again.
fn remade<V: Station>(
    alloc: Global,
    register: &mut Register<V, NotaryRule>,
    key: &SigningKey,
    index: u32,
) -> Result<Vec<u8>, Reissue>
    requires identity { register.old.identity ≡ key.now }
    requires index { index < length register.old.list }
    ensures certificate { IsRemade V.counts key.now register.old.first register.old.list index register.old.station register.new.station result }
    ensures looks { IsTrue (V.tells register.old.station) → Looks (V.content register.old.station) (V.content register.new.station) }
    ensures list { register.new.list ≡ register.old.list }
    ensures kept { IsKept V.tells V.content V.counts MayLeave register.new }
    ensures same { IsSameRegister register.old register.new }
    ensures tells { V.tells register.new.station ≡ V.tells register.old.station }
    ensures spends { Spends 1 0 (V.counts register.old.station) (V.counts register.new.station) }
{
    let (kind, contents) = register.contents(alloc, index)?;
    let slot = register.slot(index);
    Ok(certificate(alloc, key, slot, kind, &contents)?)
}

/// Puts the certificate of the record with this serial number again.
fn put_again<V: Station>(
    alloc: Global,
    register: &mut Register<V, NotaryRule>,
    key: &SigningKey,
    serial: u64,
) -> Result<(), Reissue>
    requires { register.old.identity ≡ key.now }
    ensures puts { PutsAgain V.tells V.content V.counts key.now register.old.first register.old.list serial register.old.station register.new.station result }
    ensures list { register.new.list ≡ register.old.list }
    ensures kept { IsKept V.tells V.content V.counts MayLeave register.new }
    ensures same { IsSameRegister register.old register.new }
    ensures tells { V.tells register.new.station ≡ V.tells register.old.station }
    ensures later { (V.counts register.old.station).faults ≤ (V.counts register.new.station).faults }
    ensures put_later { (V.counts register.old.station).put_faults ≤ (V.counts register.new.station).put_faults }
{
    let Some(index) = index_of(register, serial) else {
        return Err(Reissue::Absent);
    };
    let octets = remade(alloc, register, key, index)?;
    match register.emit(&octets) {
        Ok(()) => Ok(()),
        Err(_) => Err(Reissue::Put),
    }
}

/// Opens the register of this key in the file of a station, and puts the certificate of the record with this serial number
/// again. The station is handed back.
///
/// The octets are those of its first putting: the record, its leaf and its serial number are the same. The register's list
/// stays as it is.
pub fn reissue<V: Station>(
    alloc: Global,
    station: V,
    key: &SigningKey,
    serial: u64,
) -> (Result<(), Reissue>, V)
    ensures answer { Reissues V.tells V.content V.counts key.now serial station result.1 result.0 }
    ensures tells { V.tells result.1 ≡ V.tells station }
    ensures later { (V.counts station).faults ≤ (V.counts result.1).faults }
    ensures put_later { (V.counts station).put_faults ≤ (V.counts result.1).put_faults }
{
    match Register::<V, NotaryRule>::open(alloc, station, key) {
        Err((station, refusal)) => (Err(Reissue::Open(refusal)), station),
        Ok(register) => {
            let mut register = register;
            let answer = put_again(alloc, &mut register, key, serial);
            (answer, register.into_station())
        }
    }
}

#[cfg(test)]
mod tests;
