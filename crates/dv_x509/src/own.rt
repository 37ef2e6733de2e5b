//! The certificate that a register's holder issues to itself.

ghost use Rattle.std.specs.Prelude.{◌≡◌, ◌≤◌, ◌<◌, ◌+◌, ◌*◌, ◌^◌, List, ℕ, IfOk, length};
ghost use Rattle.std.specs.Str.{IsUtf8};
ghost use Rattle.dv_schema.specs.Schema.{contents as contents_of, spelling};
ghost use Rattle.dv_asn1.specs.Writing.{room_of, Writes};
ghost use Rattle.dv_names.specs.Types.{algorithm_identifier, extension};
ghost use Rattle.dv_x509.specs.Fields.{validity_of};
ghost use Rattle.dv_x509.specs.Own.{OwnCertificate, OwnTbs, key_id_extension, purpose_extension, usage_extension, own_algorithm, own_extensions, own_fields_with, own_key, own_key_id, own_name};
ghost use Rattle.dv_x509.specs.Types.{certificate_extensions, public_key_info, tbs_certificate, tbs_fields, validity, version};

use dv_asn1::{Writer, header_len, number_len, value_len};
use dv_names::identifiers::{
    COMMON_NAME, EXTENDED_KEY_USAGE, ID_ALG_HSS_LMS_HASHSIG, ID_KP_DVCS, KEY_USAGE,
    SUBJECT_KEY_IDENTIFIER,
};
use dv_time::{Moment, time_len, write_time};
use sha2::{Digest, Sha256};
use std::alloc::{AllocError, Global};

const INTEGER: u8 = 0x02;

const BIT_STRING: u8 = 0x03;

const OCTET_STRING: u8 = 0x04;

const OBJECT_IDENTIFIER: u8 = 0x06;

const UTF8_STRING: u8 = 0x0C;

const SEQUENCE: u8 = 0x30;

const SET: u8 = 0x31;

/// No memory is found for a certificate with a name of more octets than this.
const NAME_LIMIT: usize = 0xFFFF_FFFF;

/// No memory is found for a certificate with a part of more octets than this.
const PART_LIMIT: usize = 0xFF_FFFF_FFFF;

/// What the holder of a register chooses of its own certificate.
#[derive(Clone, Copy, Debug)]
pub struct OwnParts<'a> {
    /// The common name, in UTF-8.
    pub name: &'a [u8],
    /// The first moment at which the certificate holds.
    pub from: Moment,
    /// The last one.
    pub until: Moment,
}

/// Writes the AlgorithmIdentifier of HSS.
fn write_algorithm(out: &mut Writer<'_>)
    requires { length (spelling algorithm_identifier own_algorithm) ≤ room_of out.old }
    ensures { Writes out.old out.new (spelling algorithm_identifier own_algorithm) }
{
    out.header(SEQUENCE, 13);
    out.tlv(OBJECT_IDENTIFIER, &ID_ALG_HSS_LMS_HASHSIG);
}

/// How many octets a Name of one commonName has.
fn name_len(name: &[u8]) -> usize
    requires { length name.now < 2 ^ 32 }
    ensures octets { result ≡ length (own_name name.now) }
    ensures few { result ≤ length name.now + 45 }
{
    value_len(value_len(value_len(5 + value_len(name.len()))))
}

/// Writes a Name of one commonName.
fn write_name(name: &[u8], out: &mut Writer<'_>)
    requires short { length name.now < 2 ^ 32 }
    requires room { length (own_name name.now) ≤ room_of out.old }
    ensures { Writes out.old out.new (own_name name.now) }
{
    let pair = 5 + value_len(name.len());
    out.header(SEQUENCE, value_len(value_len(pair)));
    out.header(SET, value_len(pair));
    out.header(SEQUENCE, pair);
    out.tlv(OBJECT_IDENTIFIER, &COMMON_NAME);
    out.tlv(UTF8_STRING, name);
}

/// How many octets a Validity has.
fn validity_len(from: Moment, until: Moment) -> usize
    ensures octets { result ≡ length (spelling validity (validity_of from until)) }
    ensures few { result ≤ 36 }
{
    2 + (time_len(from) + time_len(until))
}

/// Writes a Validity.
fn write_validity(from: Moment, until: Moment, out: &mut Writer<'_>)
    requires { length (spelling validity (validity_of from until)) ≤ room_of out.old }
    ensures { Writes out.old out.new (spelling validity (validity_of from until)) }
{
    out.header(SEQUENCE, time_len(from) + time_len(until));
    write_time(from, out);
    write_time(until, out);
}

/// Writes the SubjectPublicKeyInfo of an HSS key.
fn write_key(public: &[u8; 60], out: &mut Writer<'_>)
    requires { length (spelling public_key_info (own_key public.now)) ≤ room_of out.old }
    ensures { Writes out.old out.new (spelling public_key_info (own_key public.now)) }
{
    out.header(SEQUENCE, 78);
    write_algorithm(out);
    out.header(BIT_STRING, 61);
    out.bytes(&[0]);
    out.bytes(public);
}

/// Writes the three extensions under their explicit tag.
fn write_extensions(id: &[u8], out: &mut Writer<'_>)
    requires size { length id.now ≡ 20 }
    requires room { length (spelling certificate_extensions (own_extensions id.now, tt)) ≤ room_of out.old }
    ensures { Writes out.old out.new (spelling certificate_extensions (own_extensions id.now, tt)) }
{
    out.header(0xA3, 73);
    out.header(SEQUENCE, 71);
    write_usage(out);
    write_purpose(out);
    write_key_id(id, out);
}

/// Writes keyUsage with digitalSignature and nonRepudiation, critical.
fn write_usage(out: &mut Writer<'_>)
    requires { length (spelling extension usage_extension) ≤ room_of out.old }
    ensures { Writes out.old out.new (spelling extension usage_extension) }
{
    out.header(SEQUENCE, 14);
    out.tlv(OBJECT_IDENTIFIER, &KEY_USAGE);
    out.tlv(0x01, &[0xFF]);
    out.tlv(OCTET_STRING, &[BIT_STRING, 2, 6, 0xC0]);
}

/// Writes extKeyUsage with id-kp-dvcs, critical.
fn write_purpose(out: &mut Writer<'_>)
    requires { length (spelling extension purpose_extension) ≤ room_of out.old }
    ensures { Writes out.old out.new (spelling extension purpose_extension) }
{
    out.header(SEQUENCE, 22);
    out.tlv(OBJECT_IDENTIFIER, &EXTENDED_KEY_USAGE);
    out.tlv(0x01, &[0xFF]);
    out.header(OCTET_STRING, 12);
    out.header(SEQUENCE, 10);
    out.tlv(OBJECT_IDENTIFIER, &ID_KP_DVCS);
}

/// Writes subjectKeyIdentifier, not critical.
fn write_key_id(id: &[u8], out: &mut Writer<'_>)
    requires size { length id.now ≡ 20 }
    requires room { length (spelling extension (key_id_extension id.now)) ≤ room_of out.old }
    ensures { Writes out.old out.new (spelling extension (key_id_extension id.now)) }
{
    out.header(SEQUENCE, 29);
    out.tlv(OBJECT_IDENTIFIER, &SUBJECT_KEY_IDENTIFIER);
    out.header(OCTET_STRING, 22);
    out.tlv(OCTET_STRING, id);
}

/// How many contents octets the signed part has.
fn contents_len(parts: &OwnParts<'_>, serial: u64) -> usize
    requires { length parts.now.name.now < 2 ^ 32 }
    ensures octets { (key id : List ℕ) → length key ≡ 60 → length id ≡ 20
        → result ≡ length (contents_of tbs_fields (own_fields_with parts.now.name.now parts.now.from parts.now.until key id serial)) }
    ensures few { result ≤ 2 * length parts.now.name.now + 400 }
{
    let names = 2 * name_len(parts.name);
    let validity = validity_len(parts.from, parts.until);
    5 + 2 + number_len(serial) + 15 + names + validity + 80 + 75
}

/// Writes the signed part.
fn write_tbs(parts: &OwnParts<'_>, public: &[u8; 60], id: &[u8], serial: u64, out: &mut Writer<'_>)
    requires short { length parts.now.name.now < 2 ^ 32 }
    requires size { length id.now ≡ 20 }
    requires room { length (spelling tbs_certificate (own_fields_with parts.now.name.now parts.now.from parts.now.until public.now id.now serial)) ≤ room_of out.old }
    ensures { Writes out.old out.new (spelling tbs_certificate (own_fields_with parts.now.name.now parts.now.from parts.now.until public.now id.now serial)) }
{
    out.header(SEQUENCE, contents_len(parts, serial));
    out.bytes(&[0xA0, 3, INTEGER, 1, 2]);
    out.number(INTEGER, serial);
    write_algorithm(out);
    write_name(parts.name, out);
    write_validity(parts.from, parts.until, out);
    write_name(parts.name, out);
    write_key(public, out);
    write_extensions(id, out);
}

/// Fills a slice of the signed part's size with it.
fn fill_tbs(into: &mut [u8], parts: &OwnParts<'_>, public: &[u8; 60], id: &[u8], serial: u64)
    requires short { length parts.now.name.now < 2 ^ 32 }
    requires size { length id.now ≡ 20 }
    requires room { length into.old ≡ length (spelling tbs_certificate (own_fields_with parts.now.name.now parts.now.from parts.now.until public.now id.now serial)) }
    ensures { into.new ≡ spelling tbs_certificate (own_fields_with parts.now.name.now parts.now.from parts.now.until public.now id.now serial) }
{
    let mut out = Writer::new(into);
    write_tbs(parts, public, id, serial, &mut out);
}

/// The octets of the signed part of an own certificate: version 3, this serial, HSS as the algorithm of key and signature, and
/// the parts' name as issuer and subject. The extensions are keyUsage with digitalSignature and nonRepudiation and
/// extKeyUsage with id-kp-dvcs, both critical, and subjectKeyIdentifier with the first 20 octets of the key's SHA-256 digest.
///
/// It takes one allocation, of their size.
pub fn own_tbs(
    alloc: Global,
    parts: &OwnParts<'_>,
    public: &[u8; 60],
    serial: u64,
) -> Result<Vec<u8>, AllocError>
    requires { IsUtf8 parts.now.name.now }
    ensures { IfOk result (λ v. v.items ≡ OwnTbs parts.now.name.now parts.now.from parts.now.until public.now serial) }
{
    if parts.name.len() > NAME_LIMIT {
        return Err(AllocError);
    }
    let id = key_id(public);
    let mut octets = vec![in alloc; 0u8; value_len(contents_len(parts, serial))]?;
    fill_tbs(&mut octets, parts, public, &id, serial);
    Ok(octets)
}

/// The first 20 octets of the digest of a key.
fn key_id(public: &[u8; 60]) -> [u8; 20]
    ensures { result ≡ own_key_id public.now }
{
    let digest = Sha256::digest(public.as_slice());
    let mut id = [0; 20];
    id.copy_from_slice(&digest[..20]);
    id
}

/// The octets of the certificate with this signed part and this signature, whose algorithm is HSS.
///
/// It takes one allocation, of their size.
pub fn own_certificate(alloc: Global, tbs: &[u8], signature: &[u8]) -> Result<Vec<u8>, AllocError>
    ensures { IfOk result (λ v. v.items ≡ OwnCertificate tbs.now signature.now) }
{
    if tbs.len() > PART_LIMIT || signature.len() > PART_LIMIT {
        return Err(AllocError);
    }
    let contents = tbs.len() + 15 + value_len(signature.len() + 1);
    let mut octets = vec![in alloc; 0u8; value_len(contents)]?;
    fill_certificate(&mut octets, tbs, signature);
    Ok(octets)
}

/// Fills a slice of the certificate's size with it.
fn fill_certificate(into: &mut [u8], tbs: &[u8], signature: &[u8])
    requires tbs { length tbs.now < 2 ^ 40 }
    requires signature { length signature.now < 2 ^ 40 }
    requires room { length into.old ≡ length (OwnCertificate tbs.now signature.now) }
    ensures { into.new ≡ OwnCertificate tbs.now signature.now }
{
    let mut out = Writer::new(into);
    write_certificate(tbs, signature, &mut out);
}

/// Writes the certificate.
fn write_certificate(tbs: &[u8], signature: &[u8], out: &mut Writer<'_>)
    requires tbs { length tbs.now < 2 ^ 40 }
    requires signature { length signature.now < 2 ^ 40 }
    requires room { length (OwnCertificate tbs.now signature.now) ≤ room_of out.old }
    ensures { Writes out.old out.new (OwnCertificate tbs.now signature.now) }
{
    let bits = signature.len() + 1;
    out.header(SEQUENCE, tbs.len() + 15 + value_len(bits));
    out.bytes(tbs);
    write_algorithm(out);
    out.header(BIT_STRING, bits);
    out.bytes(&[0]);
    out.bytes(signature);
}
