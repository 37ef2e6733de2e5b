//! Making a register with its first record.
ghost use Rattle.std.specs.Prelude.{◌≡◌, ◌≤◌, [], ◌∷◌, length, false, Some, IfOk, IfErr, IsTrue};
ghost use Rattle.std.specs.Str.{IsUtf8};
ghost use Rattle.dv_register.specs.Refusals.{IsFirstSerial};
ghost use Rattle.dv_register.specs.State.{IsKept, IsSameRegister, rule_identity};
ghost use Rattle.dv_cert.specs.Certificates.{MayLeave, certificate_of, own_signed};
ghost use Rattle.dv_commands.specs.Answers.{Inits, PutsFirst};

use crate::certificate::OWN;
use crate::refusals::Init;
use dv_cert::NotaryRule;
use dv_draft::own_record;
use dv_outside::Station;
use dv_register::{Register, Reserve, SigningKey, Slot};
use dv_x509::{OwnParts, own_certificate, own_tbs};
use std::alloc::Global;

/// Adds the record of an own certificate to an empty register, and puts the certificate with this signed part.
fn put_first<V: Station>(
    alloc: Global,
    register: &mut Register<V, NotaryRule>,
    key: &SigningKey,
    contents: &[u8],
    tbs: &[u8],
) -> Result<(), Init>
    requires identity { register.old.identity ≡ key.now }
    requires empty { register.old.list ≡ [] }
    requires open { register.old.shut ≡ false }
    requires short { length contents.now ≤ 1048576 }
    requires certificate { certificate_of (rule_identity key.now) register.old.first 0 (record { kind = 1; contents = contents.now })
        ≡ Some (own_signed key.now 0 tbs.now) }
    ensures puts { PutsFirst V.tells V.content V.counts (record { kind = 1; contents = contents.now }) (own_signed key.now 0 tbs.now)
        register.new.list register.old.station register.new.station result }
    ensures kept { IsKept V.tells V.content V.counts MayLeave register.new }
    ensures same { IsSameRegister register.old register.new }
    ensures tells { V.tells register.new.station ≡ V.tells register.old.station }
    ensures later { (V.counts register.old.station).faults ≤ (V.counts register.new.station).faults }
    ensures put_later { (V.counts register.old.station).put_faults ≤ (V.counts register.new.station).put_faults }
{
    register.prepare(contents.len())?;
    let slot = match register.reserve(OWN, contents) {
        Ok(slot) => slot,
        Err(Reserve::Fault) => return Err(Init::Fault),
        Err(Reserve::Full | Reserve::Shut) => unreachable!(),
    };
    let signature = key.sign(slot.into_leaf(), tbs);
    let octets = own_certificate(alloc, tbs, signature.as_slice())?;
    match register.emit(&octets) {
        Ok(()) => Ok(()),
        Err(_) => Err(Init::Put),
    }
}

/// Makes the register of this key in the empty file of a station, with `first` as its first serial number, adds record 0 for
/// the key's own certificate of these parts, and puts that certificate. The station is handed back.
///
/// All memory that can be is taken before the register is made.
pub fn init<V: Station>(
    alloc: Global,
    station: V,
    key: &SigningKey,
    parts: &OwnParts<'_>,
    first: u64,
) -> (Result<(), Init>, V)
    requires first { IsFirstSerial first }
    requires utf8 { IsUtf8 parts.now.name.now }
    requires some { 1 ≤ length parts.now.name.now }
    requires short { length parts.now.name.now ≤ 64 }
    ensures answer { Inits V.tells V.content V.counts key.now first parts.now station result.1 result.0 }
    ensures tells { V.tells result.1 ≡ V.tells station }
    ensures later { (V.counts station).faults ≤ (V.counts result.1).faults }
    ensures put_later { (V.counts station).put_faults ≤ (V.counts result.1).put_faults }
{
    // Read for their contract: each is a second that a moment may be.
    let _from = parts.from.seconds();
    let _until = parts.until.seconds();
    let Ok(contents) = own_record(alloc, parts) else {
        return (Err(Init::Memory), station);
    };
    let Ok(tbs) = own_tbs(alloc, parts, &key.public(), first) else {
        return (Err(Init::Memory), station);
    };
    match Register::<V, NotaryRule>::create(alloc, station, key, first) {
        Err((station, refusal)) => (Err(Init::Create(refusal)), station),
        Ok(register) => {
            let mut register = register;
            let answer = put_first(alloc, &mut register, key, &contents, &tbs);
            (answer, register.into_station())
        }
    }
}

#[cfg(test)]
mod tests;
