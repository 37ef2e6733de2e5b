//! The certificate that a record stands for, made again.
ghost use Rattle.std.specs.Prelude.{◌≡◌, ◌+◌, Some, Ok, Err, IfOk};
ghost use Rattle.dv_schema.specs.Reading.{read_all};
ghost use Rattle.dv_members.specs.Members.{front_of};
ghost use Rattle.dv_register.specs.Layout.{IsKnownKind};
ghost use Rattle.dv_draft.specs.OwnRecords.{own_record};
ghost use Rattle.dv_draft.specs.Records.{record_in};
ghost use Rattle.dv_cert.specs.Certificates.{issued, own_issued, service_issued};
ghost use Rattle.dv_commands.specs.Answers.{IsRefusedAs};

use dv_asn1::Der;
use dv_cert::Room;
use dv_draft::reading_laws::records_are_those_written;
use dv_draft::{ReadRecord, read_own_record, read_record};
use dv_register::{SigningKey, Slot};
use dv_x509::{own_certificate, own_tbs};
use std::alloc::Global;

/// The kind of the record of an own certificate.
pub(crate) const OWN: u8 = 1;

/// The own certificate of a record with these contents.
fn own_again(
    alloc: Global,
    key: &SigningKey,
    slot: Slot,
    contents: &[u8],
) -> Result<Vec<u8>, ReadRecord>
    requires { slot.leaf.key ≡ key.now }
    ensures made { IfOk result (λ v. own_issued key.now slot.leaf.number slot.serial (read_all own_record (front_of contents.now)) ≡ Some v.items) }
    ensures refused { (d : Der) → result ≡ Err (ReadRecord.Der d) → read_all own_record (front_of contents.now) ≡ Err d }
{
    match read_own_record(contents) {
        Err(refusal) => Err(ReadRecord::Der(refusal)),
        Ok(parts) => {
            // Read for their contract: each is a second that a moment may be.
            let _from = parts.from.seconds();
            let _until = parts.until.seconds();
            let tbs = own_tbs(alloc, &parts, &key.public(), slot.serial())?;
            let signature = key.sign(slot.into_leaf(), &tbs);
            Ok(own_certificate(alloc, &tbs, signature.as_slice())?)
        }
    }
}

/// The certificate of service of a record with these contents.
fn service_again(
    alloc: Global,
    key: &SigningKey,
    slot: Slot,
    contents: &[u8],
) -> Result<Vec<u8>, ReadRecord>
    requires { slot.leaf.key ≡ key.now }
    ensures made { IfOk result (λ v. service_issued key.now slot.leaf.number slot.serial (record_in contents.now) ≡ Some v.items) }
    ensures refused { (d : Der) → result ≡ Err (ReadRecord.Der d) → record_in contents.now ≡ Err d }
{
    let (draft, certificates) = read_record(alloc, contents)?;
    // So there are 1 to 6 certificates, which decode.
    records_are_those_written();
    let mut room = Room::new(alloc, &draft, certificates.as_slice())?;
    let octets = room.to_sign(slot.serial());
    let signature = key.sign(slot.into_leaf(), &octets);
    Ok(room.finish(signature.as_slice()))
}

/// The certificate of a record of this kind with these contents, signed with the leaf of its slot.
///
/// `Der` comes exactly where the contents don't decode as those of the kind.
pub(crate) fn certificate(
    alloc: Global,
    key: &SigningKey,
    slot: Slot,
    kind: u8,
    contents: &[u8],
) -> Result<Vec<u8>, ReadRecord>
    requires key { slot.leaf.key ≡ key.now }
    requires kind { IsKnownKind kind }
    ensures made { IfOk result (λ v. issued key.now slot.leaf.number slot.serial (record { kind = kind; contents = contents.now }) ≡ Some v.items) }
    ensures refused { (d : Der) → result ≡ Err (ReadRecord.Der d) → IsRefusedAs (record { kind = kind; contents = contents.now }) d }
{
    if kind == OWN {
        own_again(alloc, key, slot, contents)
    } else {
        service_again(alloc, key, slot, contents)
    }
}
