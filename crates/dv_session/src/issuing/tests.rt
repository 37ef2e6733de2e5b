//! What requests get over a register in memory. The octets that are wanted were worked out by hand from the standards.

ghost use Rattle.std.specs.Prelude.{◌≡◌, ◌≤◌, IfOk, IfSome, length};

use super::*;
use dv_lms::{Height, Key};
use dv_outside_mem::MemStation;
use dv_x509::{OwnParts, own_certificate as certificate_of, own_tbs};
use std::test::Fail;

/// A request for possession of abc.
pub(crate) const CPD: [u8; 29] = [
    0x30, 0x1B, 0x06, 0x0B, 0x2A, 0x86, 0x48, 0x86, 0xF7, 0x0D, 0x01, 0x09, 0x10, 0x01, 0x07, 0xA0,
    0x0C, 0x30, 0x0A, 0x30, 0x03, 0x0A, 0x01, 0x01, 0x04, 0x03, 0x61, 0x62, 0x63,
];

/// The same with an empty SEQUENCE as its time.
const TOKEN: [u8; 31] = [
    0x30, 0x1D, 0x06, 0x0B, 0x2A, 0x86, 0x48, 0x86, 0xF7, 0x0D, 0x01, 0x09, 0x10, 0x01, 0x07, 0xA0,
    0x0E, 0x30, 0x0C, 0x30, 0x05, 0x0A, 0x01, 0x01, 0x30, 0x00, 0x04, 0x03, 0x61, 0x62, 0x63,
];

/// A request for the validation of abc, which is no signed document.
const VSD: [u8; 29] = [
    0x30, 0x1B, 0x06, 0x0B, 0x2A, 0x86, 0x48, 0x86, 0xF7, 0x0D, 0x01, 0x09, 0x10, 0x01, 0x07, 0xA0,
    0x0C, 0x30, 0x0A, 0x30, 0x03, 0x0A, 0x01, 0x02, 0x04, 0x03, 0x61, 0x62, 0x63,
];

/// A request for possession of abc that is signed, its signer by a key that no certificate is brought along for.
const SIGNED: [u8; 92] = [
    0x30, 0x5A, 0x06, 0x09, 0x2A, 0x86, 0x48, 0x86, 0xF7, 0x0D, 0x01, 0x07, 0x02, 0xA0, 0x4D, 0x30,
    0x4B, 0x02, 0x01, 0x03, 0x31, 0x00, 0x30, 0x1D, 0x06, 0x0B, 0x2A, 0x86, 0x48, 0x86, 0xF7, 0x0D,
    0x01, 0x09, 0x10, 0x01, 0x07, 0xA0, 0x0E, 0x04, 0x0C, 0x30, 0x0A, 0x30, 0x03, 0x0A, 0x01, 0x01,
    0x04, 0x03, 0x61, 0x62, 0x63, 0x31, 0x25, 0x30, 0x23, 0x02, 0x01, 0x03, 0x80, 0x00, 0x30, 0x0B,
    0x06, 0x09, 0x60, 0x86, 0x48, 0x01, 0x65, 0x03, 0x04, 0x02, 0x01, 0x30, 0x0D, 0x06, 0x0B, 0x2A,
    0x86, 0x48, 0x86, 0xF7, 0x0D, 0x01, 0x09, 0x10, 0x03, 0x11, 0x04, 0x00,
];

/// The DVCSCertInfo of the first one at the first second of 2025, with the serial number 2 (RFC 3029 9.1).
const INFO: [u8; 76] = [
    0x30, 0x4A, 0x30, 0x03, 0x0A, 0x01, 0x01, 0x30, 0x2F, 0x30, 0x0B, 0x06, 0x09, 0x60, 0x86, 0x48,
    0x01, 0x65, 0x03, 0x04, 0x02, 0x01, 0x04, 0x20, 0xBA, 0x78, 0x16, 0xBF, 0x8F, 0x01, 0xCF, 0xEA,
    0x41, 0x41, 0x40, 0xDE, 0x5D, 0xAE, 0x22, 0x23, 0xB0, 0x03, 0x61, 0xA3, 0x96, 0x17, 0x7A, 0x9C,
    0xB4, 0x10, 0xFF, 0x61, 0xF2, 0x00, 0x15, 0xAD, 0x02, 0x01, 0x02, 0x18, 0x0F, 0x32, 0x30, 0x32,
    0x35, 0x30, 0x31, 0x30, 0x31, 0x30, 0x30, 0x30, 0x30, 0x30, 0x30, 0x5A,
];

/// How a signature of 1,296 octets with the leaf 1 begins, as an OCTET STRING (RFC 8554 6.2): no signed public keys, the leaf,
/// and the LM-OTS type.
const SIGNATURE: [u8; 16] = [
    0x04, 0x82, 0x05, 0x10, 0x00, 0x00, 0x00, 0x00, 0x00, 0x00, 0x00, 0x01, 0x00, 0x00, 0x00, 0x04,
];

/// The type of a request's message, as an OBJECT IDENTIFIER (RFC 3029 8).
const REQUEST_DATA: [u8; 13] = [
    0x06, 0x0B, 0x2A, 0x86, 0x48, 0x86, 0xF7, 0x0D, 0x01, 0x09, 0x10, 0x01, 0x07,
];

/// The last octet of a responseTime, the dvStatus granted, and the tag of the entries.
const GRANTED: [u8; 7] = [0x5A, 0xA0, 0x03, 0x02, 0x01, 0x00, 0xA3];

/// The same with the dvStatus rejection and the failInfo signerNotTrusted.
const REJECTED: [u8; 13] = [
    0x5A, 0xA0, 0x09, 0x02, 0x01, 0x02, 0x03, 0x04, 0x03, 0x00, 0x00, 0x08, 0xA3,
];

/// The same with badDataFormat, and then the certificates of the SignedData: there are no entries.
const NO_DOCUMENT: [u8; 11] = [
    0x5A, 0xA0, 0x07, 0x02, 0x01, 0x02, 0x03, 0x02, 0x02, 0x04, 0xA0,
];

/// The failInfo signerNotTrusted.
const NOT_TRUSTED_INFO: [u8; 6] = [0x03, 0x04, 0x03, 0x00, 0x00, 0x08];

/// The failInfo badTime.
const BAD_TIME_INFO: [u8; 4] = [0x03, 0x02, 0x04, 0x10];

/// The failInfo systemUnavail.
const SYSTEM_UNAVAIL_INFO: [u8; 7] = [0x03, 0x05, 0x07, 0x00, 0x00, 0x00, 0x80];

/// The failInfo systemFailure.
const SYSTEM_FAILURE_INFO: [u8; 7] = [0x03, 0x05, 0x06, 0x00, 0x00, 0x00, 0x40];

/// The first second of 2025.
pub(crate) const FROM: u64 = 1_735_689_600;

/// The first second of 2026.
const UNTIL: u64 = 1_767_225_600;

/// A register in memory.
type InMemory = Register<MemStation, NotaryRule>;

/// The certificate of the server notary for 2025, signed with its key, or with a signature that is none.
fn own_octets(alloc: Global, is_signed: bool) -> Result<Vec<u8>, AllocError> {
    let (Some(from), Some(until)) = (Moment::from_unix(FROM), Moment::from_unix(UNTIL)) else {
        return Err(AllocError);
    };
    let parts = OwnParts {
        name: "notary".as_bytes(),
        from,
        until,
    };
    let key = Key::from_seed(alloc, Height::H5, [7; 16], [9; 32])?;
    let tbs = own_tbs(alloc, &parts, &key.public(), 1)?;
    if is_signed {
        certificate_of(alloc, &tbs, key.sign(0, &tbs).as_slice())
    } else {
        certificate_of(alloc, &tbs, &[1, 2, 3])
    }
}

/// The server notary, which trusts itself, and its key of 32 leaves.
pub(crate) fn desk(alloc: Global) -> Result<Desk, AllocError> {
    let own = own_octets(alloc, true)?;
    let Ok(trust) = Trust::decode(alloc, &own) else {
        return Err(AllocError);
    };
    let certificates = vec![in alloc; own]?;
    let key = SigningKey::new(Key::from_seed(alloc, Height::H5, [7; 16], [9; 32])?);
    match Server::new(certificates, None) {
        None => Err(AllocError),
        Some(server) => Ok(Desk { server, trust, key }),
    }
}

/// A register whose first serial number is 1, with one record, over a station of which the calls of these numbers fail. The next
/// call is number 9.
fn begun(alloc: Global, desk: &Desk, failing: Vec<u64>) -> Result<Option<InMemory>, AllocError>
    ensures { IfOk result (λ r. IfSome r (λ s. s.identity ≡ desk.now.key)) }
{
    let station = MemStation::new(alloc, Vec::new(alloc), failing, 1000, 100_000)?;
    let Ok(register) = Register::create(alloc, station, &desk.key, 1) else {
        return Ok(None);
    };
    let mut register = register;
    register.prepare(3)?;
    match register.reserve(1, b"own") {
        Ok(_) => Ok(Some(register)),
        Err(_) => Ok(None),
    }
}

/// A register of 32 records.
fn filled(alloc: Global, desk: &Desk) -> Result<Option<InMemory>, AllocError>
    ensures { IfOk result (λ r. IfSome r (λ s. s.identity ≡ desk.now.key)) }
{
    let mut octets = b"DVREG001".to_vec(alloc)?;
    octets.extend_from_slice(&desk.key.public())?;
    octets.extend_from_slice(&[0, 0, 0, 0, 0, 0, 0, 1])?;
    for _ in 0..32 {
        octets.extend_from_slice(&[0xA5, 2, 0, 0, 0, 1, 0x78])?;
    }
    octets.push(0)?;
    let station = MemStation::new(alloc, octets, Vec::new(alloc), 1000, 100_000)?;
    Ok(Register::open(alloc, station, &desk.key).ok())
}

/// What the octets of a message get at the first second of 2025.
fn issued(
    alloc: Global,
    register: &mut InMemory,
    octets: &[u8],
    desk: &Desk,
) -> Result<Issued, AllocError>
    requires key { register.old.identity ≡ desk.now.key }
    requires short { length octets.now ≤ 262_144 }
    ensures { register.new.identity ≡ register.old.identity }
{
    match Moment::from_unix(FROM) {
        None => Err(AllocError),
        Some(moment) => issue_one(alloc, register, octets, moment, desk),
    }
}

/// Whether the octets stand somewhere in these.
fn contains(octets: &[u8], part: &[u8]) -> bool
    requires { 1 ≤ length part.now }
{
    octets.windows(part.len()).any(|window| window == part)
}

#[test]
fn possession_of_abc(rt: HostRuntime) -> Result<(), Fail> {
    let alloc = rt.alloc();
    let desk = desk(alloc)?;
    let mut register = begun(alloc, &desk, Vec::new(alloc))?.expect(&rt, "it is made");
    let issued = issued(alloc, &mut register, &CPD, &desk)?;
    assert_eq!(rt;
        (issued.front, issued.bit, issued.serial),
        (2, None, Some(2))
    );
    assert!(rt; contains(&issued.octets, &INFO));
    assert!(rt; contains(&issued.octets, &SIGNATURE));
    assert_eq!(rt; register.len(), 2);
    Ok(())
}

#[test]
fn no_document_and_no_trusted_signer(rt: HostRuntime) -> Result<(), Fail> {
    let alloc = rt.alloc();
    let desk = desk(alloc)?;
    let mut register = begun(alloc, &desk, Vec::new(alloc))?.expect(&rt, "it is made");
    let rejected = issued(alloc, &mut register, &VSD, &desk)?;
    assert_eq!(rt; (rejected.bit, rejected.serial), (None, Some(2)));
    assert!(rt; contains(&rejected.octets, &NO_DOCUMENT));
    let refused = issued(alloc, &mut register, &SIGNED, &desk)?;
    assert_eq!(rt; (refused.bit, refused.serial), (Some(20), None));
    assert!(rt; contains(&refused.octets, &NOT_TRUSTED_INFO));
    Ok(())
}

/// What two requests for possession get where the call of this number fails: whether both have the failInfo systemFailure, how
/// many records the register has, and whether it is shut.
fn faulty(alloc: Global, call: u64) -> Result<Option<(bool, bool, u32, bool)>, AllocError> {
    let desk = desk(alloc)?;
    let Some(register) = begun(alloc, &desk, vec![in alloc; call]?)? else {
        return Ok(None);
    };
    let mut register = register;
    let first = issued(alloc, &mut register, &CPD, &desk)?;
    let second = issued(alloc, &mut register, &CPD, &desk)?;
    Ok(Some((
        contains(&first.octets, &SYSTEM_FAILURE_INFO) && first.bit == Some(25),
        contains(&second.octets, &SYSTEM_FAILURE_INFO) && second.bit == Some(25),
        register.len(),
        register.is_shut(),
    )))
}

#[test]
fn a_fault_at_each_call(rt: HostRuntime) -> Result<(), Fail> {
    for call in 9u64..15 {
        let wanted = Some((true, true, 1, true));
        assert_eq!(rt; faulty(rt.alloc(), call)?, wanted, "{call}");
    }
    Ok(())
}

#[test]
fn a_full_register(rt: HostRuntime) -> Result<(), Fail> {
    let alloc = rt.alloc();
    let desk = desk(alloc)?;
    let mut register = filled(alloc, &desk)?.expect(&rt, "it opens");
    let drafted = issued(alloc, &mut register, &CPD, &desk)?;
    assert_eq!(rt;
        (drafted.front, drafted.bit, drafted.serial),
        (32, Some(24), None)
    );
    assert!(rt; contains(&drafted.octets, &SYSTEM_UNAVAIL_INFO));
    let refused = issued(alloc, &mut register, &TOKEN, &desk)?;
    assert_eq!(rt;
        (refused.front, refused.bit, refused.serial),
        (32, Some(3), None)
    );
    assert!(rt; contains(&refused.octets, &BAD_TIME_INFO));
    Ok(())
}

/// A value with this tag.
fn tlv(alloc: Global, tag: u8, contents: &[u8]) -> Result<Vec<u8>, AllocError> {
    let len = contents.len();
    if len > 0xFFFF {
        return Err(AllocError);
    }
    let mut octets = Vec::new(alloc);
    octets.push(tag)?;
    if len < 128 {
        octets.push(len as u8)?;
    } else if len < 256 {
        octets.extend_from_slice(&[0x81, len as u8])?;
    } else {
        octets.extend_from_slice(&[0x82, (len / 256) as u8, (len % 256) as u8])?;
    }
    octets.extend_from_slice(contents)?;
    Ok(octets)
}

/// The message of a request to validate this certificate, with the octets of its requestTime.
fn cpkc(alloc: Global, certificate: &[u8], time: &[u8]) -> Result<Vec<u8>, AllocError> {
    let mut target = certificate.to_vec(alloc)?;
    if let Some(tag) = target.get_mut(0) {
        *tag = 0xA0;
    }
    let entry = tlv(alloc, 0x30, &target)?;
    let mut info = b"\x0A\x01\x03".to_vec(alloc)?;
    info.extend_from_slice(time)?;
    let mut request = tlv(alloc, 0x30, &info)?;
    request.extend_from_slice(&tlv(alloc, 0xA0, &entry)?)?;
    let request = tlv(alloc, 0x30, &request)?;
    let mut message = REQUEST_DATA.to_vec(alloc)?;
    message.extend_from_slice(&tlv(alloc, 0xA0, &request)?)?;
    tlv(alloc, 0x30, &message)
}

/// What such a request gets at the first second of 2025.
fn validated(
    alloc: Global,
    register: &mut InMemory,
    certificate: &[u8],
    time: &[u8],
    desk: &Desk,
) -> Result<Issued, AllocError>
    requires { register.old.identity ≡ desk.now.key }
    ensures { register.new.identity ≡ register.old.identity }
{
    let octets = cpkc(alloc, certificate, time)?;
    if octets.len() > 262_144 {
        return Err(AllocError);
    }
    issued(alloc, register, &octets, desk)
}

#[test]
fn certificates_that_an_anchor_issued(rt: HostRuntime) -> Result<(), Fail> {
    let alloc = rt.alloc();
    let desk = desk(alloc)?;
    let mut register = begun(alloc, &desk, Vec::new(alloc))?.expect(&rt, "it is made");
    let own = own_octets(alloc, true)?;
    let issued = validated(alloc, &mut register, &own, &[], &desk)?;
    assert_eq!(rt; (issued.bit, issued.serial), (None, Some(2)));
    assert!(rt; contains(&issued.octets, &GRANTED));
    let unsigned = own_octets(alloc, false)?;
    let rejected = validated(alloc, &mut register, &unsigned, &[], &desk)?;
    assert_eq!(rt; (rejected.bit, rejected.serial), (None, Some(3)));
    assert!(rt; contains(&rejected.octets, &REJECTED));
    Ok(())
}

#[test]
fn validation_at_another_time(rt: HostRuntime) -> Result<(), Fail> {
    let alloc = rt.alloc();
    let desk = desk(alloc)?;
    let mut register = begun(alloc, &desk, Vec::new(alloc))?.expect(&rt, "it is made");
    let own = own_octets(alloc, true)?;
    let now = b"\x18\x0F20250101000000Z";
    let issued = validated(alloc, &mut register, &own, now, &desk)?;
    assert_eq!(rt; (issued.bit, issued.serial), (None, Some(2)));
    assert!(rt; contains(&issued.octets, &GRANTED));
    let later = b"\x18\x0F20250101000001Z";
    let refused = validated(alloc, &mut register, &own, later, &desk)?;
    assert_eq!(rt; (refused.bit, refused.serial), (Some(3), None));
    assert!(rt; contains(&refused.octets, &BAD_TIME_INFO));
    assert_eq!(rt; register.len(), 2);
    let before = b"\x18\x0F20241231235959Z";
    let rejected = validated(alloc, &mut register, &own, before, &desk)?;
    assert_eq!(rt; (rejected.bit, rejected.serial), (None, Some(3)));
    assert!(rt; contains(&rejected.octets, &REJECTED));
    Ok(())
}
