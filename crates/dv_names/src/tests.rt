//! Good and bad spellings, worked out by hand from X.690, RFC 5280 4.1.1.2, 4.1.2.4, 4.2 and RFC 5652 10.1.

use crate::{
    AlgId, DigestInfo, DigestKind, Extension, GeneralName, Name, NoneKnown, Oid, PolicyInfo,
    check_extensions, digest_kind, read_extensions, read_optional_extensions,
};
use dv_asn1::{Cursor, Der, Why, Writer};
use std::alloc::{AllocError, Global};

/// Octets that are no spelling, with the place and the reason of the refusal.
type Refused<'a> = (&'a [u8], u64, Why);

/// Reads an identifier, and writes it again.
fn identifier(octets: &[u8], into: &mut [u8]) -> Result<usize, Der> {
    match Oid::decode(&mut Cursor::new(octets)) {
        Ok(read) => Ok(put_identifier(&read, into)),
        Err(refusal) => Err(refusal),
    }
}

fn put_identifier(read: &Oid<'_>, into: &mut [u8]) -> usize {
    let mut out = Writer::new(into);
    if read.encoded_len() <= out.room() {
        read.write(&mut out);
    }
    out.written()
}

#[test]
fn identifiers(rt: HostRuntime) {
    let good = [0x06, 0x03, 0x55, 0x1D, 0x0E];
    let mut into = [0; 5];
    assert_eq!(rt; identifier(&good, &mut into), Ok(5));
    assert_eq!(rt; into, good);
    let refused: [Refused<'_>; 6] = [
        (&[], 0, Why::End),
        (&[0x06, 0x00], 0, Why::Value),
        (&[0x06, 0x02, 0x80, 0x01], 0, Why::Value),
        (&[0x06, 0x01, 0x81], 0, Why::Value),
        (&[0x06, 0x03, 0x55, 0x1D], 0, Why::End),
        (&[0x04, 0x01, 0x55], 0, Why::Tag),
    ];
    for (octets, place, why) in refused {
        assert_eq!(rt;
            identifier(octets, &mut into),
            Err(Der::new(place, why)),
            "at {octets:?}"
        );
    }
}

/// Reads an algorithm, and writes it again.
fn algorithm(octets: &[u8], into: &mut [u8]) -> Result<usize, Der> {
    match AlgId::decode(&mut Cursor::new(octets)) {
        Ok(read) => Ok(put_algorithm(&read, into)),
        Err(refusal) => Err(refusal),
    }
}

fn put_algorithm(read: &AlgId<'_>, into: &mut [u8]) -> usize {
    let mut out = Writer::new(into);
    if read.encoded_len() <= out.room() {
        read.write(&mut out);
    }
    out.written()
}

#[test]
fn algorithms(rt: HostRuntime) {
    let good: [&[u8]; 2] = [
        &[
            0x30, 0x0B, 0x06, 0x09, 0x60, 0x86, 0x48, 0x01, 0x65, 0x03, 0x04, 0x02, 0x01,
        ],
        &[0x30, 0x07, 0x06, 0x03, 0x55, 0x04, 0x03, 0x05, 0x00],
    ];
    for octets in good {
        let mut into = [0; 13];
        assert_eq!(rt;
            algorithm(octets, &mut into),
            Ok(octets.len()),
            "at {octets:?}"
        );
        assert!(rt; octets.len() <= 13);
        assert_eq!(rt; &into[..octets.len()], octets);
    }
}

#[test]
fn no_algorithms(rt: HostRuntime) {
    let refused: [Refused<'_>; 7] = [
        (&[0x30, 0x00], 2, Why::End),
        (&[0x30, 0x02, 0x05, 0x00], 2, Why::Tag),
        (&[0x31, 0x03, 0x06, 0x01, 0x55], 0, Why::Tag),
        (&[0x30, 0x81, 0x03, 0x06, 0x01, 0x55], 0, Why::Length),
        (&[0x30, 0x04, 0x06, 0x01, 0x55], 0, Why::End),
        (
            &[0x30, 0x06, 0x06, 0x01, 0x55, 0x05, 0x01, 0x00],
            5,
            Why::Value,
        ),
        (
            &[0x30, 0x07, 0x06, 0x01, 0x55, 0x05, 0x00, 0x05, 0x00],
            7,
            Why::Trailing,
        ),
    ];
    let mut into = [0; 16];
    for (octets, place, why) in refused {
        assert_eq!(rt;
            algorithm(octets, &mut into),
            Err(Der::new(place, why)),
            "at {octets:?}"
        );
    }
}

/// The digest algorithm that the octets name.
fn kind(octets: &[u8]) -> Option<DigestKind> {
    match AlgId::decode(&mut Cursor::new(octets)) {
        Ok(read) => digest_kind(&read),
        Err(_) => None,
    }
}

#[test]
fn kinds_of_digests(rt: HostRuntime) {
    let last: [(u8, DigestKind); 3] = [
        (0x01, DigestKind::Sha256),
        (0x02, DigestKind::Sha384),
        (0x03, DigestKind::Sha512),
    ];
    for (octet, expected) in last {
        let absent = [
            0x30, 0x0B, 0x06, 0x09, 0x60, 0x86, 0x48, 0x01, 0x65, 0x03, 0x04, 0x02, octet,
        ];
        assert_eq!(rt; kind(&absent), Some(expected), "at {octet}");
        let null = [
            0x30, 0x0D, 0x06, 0x09, 0x60, 0x86, 0x48, 0x01, 0x65, 0x03, 0x04, 0x02, octet, 0x05,
            0x00,
        ];
        assert_eq!(rt; kind(&null), Some(expected), "at {octet}");
        let other = [
            0x30, 0x0D, 0x06, 0x09, 0x60, 0x86, 0x48, 0x01, 0x65, 0x03, 0x04, 0x02, octet, 0x04,
            0x00,
        ];
        assert_eq!(rt; kind(&other), None, "at {octet}");
    }
    assert_eq!(rt; kind(&[0x30, 0x03, 0x06, 0x01, 0x55]), None);
    assert_eq!(rt; DigestKind::Sha384.digest_len(), 48);
}

/// Reads a digest, and writes it again.
fn digest(octets: &[u8], into: &mut [u8]) -> Result<usize, Der> {
    match DigestInfo::decode(&mut Cursor::new(octets)) {
        Ok(read) => Ok(put_digest(&read, into)),
        Err(refusal) => Err(refusal),
    }
}

fn put_digest(read: &DigestInfo<'_>, into: &mut [u8]) -> usize {
    let mut out = Writer::new(into);
    if read.encoded_len() <= out.room() {
        read.write(&mut out);
    }
    out.written()
}

#[test]
fn digests(rt: HostRuntime) {
    let good = [
        0x30, 0x09, 0x30, 0x03, 0x06, 0x01, 0x55, 0x04, 0x02, 0xAB, 0xCD,
    ];
    let mut into = [0; 11];
    assert_eq!(rt; digest(&good, &mut into), Ok(11));
    assert_eq!(rt; into, good);
    let refused: [Refused<'_>; 4] = [
        (&[0x30, 0x02, 0x05, 0x00], 2, Why::Tag),
        (&[0x30, 0x05, 0x30, 0x03, 0x06, 0x01, 0x55], 7, Why::End),
        (
            &[0x30, 0x07, 0x30, 0x03, 0x06, 0x01, 0x55, 0x05, 0x00],
            7,
            Why::Tag,
        ),
        (
            &[
                0x30, 0x09, 0x30, 0x03, 0x06, 0x01, 0x55, 0x04, 0x00, 0x05, 0x00,
            ],
            9,
            Why::Trailing,
        ),
    ];
    for (octets, place, why) in refused {
        assert_eq!(rt;
            digest(octets, &mut into),
            Err(Der::new(place, why)),
            "at {octets:?}"
        );
    }
}

/// Reads a name, and writes it again.
fn name(octets: &[u8], into: &mut [u8]) -> Result<usize, Der> {
    match Name::decode(&mut Cursor::new(octets)) {
        Ok(read) => Ok(put_name(&read, into)),
        Err(refusal) => Err(refusal),
    }
}

fn put_name(read: &Name<'_>, into: &mut [u8]) -> usize {
    let mut out = Writer::new(into);
    if read.encoded_len() <= out.room() {
        read.write(&mut out);
    }
    out.written()
}

#[test]
fn names(rt: HostRuntime) {
    let good = [
        0x30, 0x0D, 0x31, 0x0B, 0x30, 0x09, 0x06, 0x03, 0x55, 0x04, 0x03, 0x0C, 0x02, 0x61, 0x62,
    ];
    let mut into = [0; 15];
    assert_eq!(rt; name(&good, &mut into), Ok(15));
    assert_eq!(rt; into, good);
    assert_eq!(rt; name(&[0x30, 0x00], &mut into), Ok(2));
}

#[test]
fn no_names(rt: HostRuntime) {
    let refused: [Refused<'_>; 5] = [
        (&[0x31, 0x00], 0, Why::Tag),
        (&[0x30, 0x02, 0x31, 0x00], 2, Why::Value),
        (
            &[0x30, 0x07, 0x31, 0x05, 0x30, 0x03, 0x06, 0x01, 0x55],
            9,
            Why::End,
        ),
        (
            &[
                0x30, 0x0B, 0x31, 0x09, 0x30, 0x07, 0x06, 0x01, 0x55, 0x05, 0x00, 0x05, 0x00,
            ],
            11,
            Why::Trailing,
        ),
        (
            &[
                0x30, 0x10, 0x31, 0x0E, 0x30, 0x05, 0x06, 0x01, 0x56, 0x05, 0x00, 0x30, 0x05, 0x06,
                0x01, 0x55, 0x05, 0x00,
            ],
            11,
            Why::Order,
        ),
    ];
    let mut into = [0; 18];
    for (octets, place, why) in refused {
        assert_eq!(rt;
            name(octets, &mut into),
            Err(Der::new(place, why)),
            "at {octets:?}"
        );
    }
}

/// Reads a general name, and writes it again.
fn general(octets: &[u8], into: &mut [u8]) -> Result<usize, Der> {
    match GeneralName::decode(&mut Cursor::new(octets)) {
        Ok(read) => Ok(put_general(&read, into)),
        Err(refusal) => Err(refusal),
    }
}

fn put_general(read: &GeneralName<'_>, into: &mut [u8]) -> usize {
    let mut out = Writer::new(into);
    if read.encoded_len() <= out.room() {
        read.write(&mut out);
    }
    out.written()
}

#[test]
fn general_names(rt: HostRuntime) {
    let good: [&[u8]; 4] = [
        &[0x82, 0x01, 0x61],
        &[0x88, 0x01, 0xFF],
        &[0xA4, 0x02, 0x30, 0x00],
        &[0xA0, 0x02, 0x05, 0x00],
    ];
    for octets in good {
        let mut into = [0; 4];
        assert_eq!(rt;
            general(octets, &mut into),
            Ok(octets.len()),
            "at {octets:?}"
        );
        assert!(rt; octets.len() <= 4);
        assert_eq!(rt; &into[..octets.len()], octets);
    }
}

#[test]
fn no_general_names(rt: HostRuntime) {
    let refused: [Refused<'_>; 7] = [
        (&[], 0, Why::End),
        (&[0x84, 0x00], 0, Why::Tag),
        (&[0x82, 0x02, 0x61], 0, Why::End),
        (&[0xA4, 0x00], 2, Why::End),
        (&[0xA4, 0x02, 0x31, 0x00], 2, Why::Tag),
        (&[0xA4, 0x04, 0x30, 0x00, 0x05, 0x00], 4, Why::Trailing),
        (&[0xA0, 0x01, 0x05], 2, Why::End),
    ];
    let mut into = [0; 6];
    for (octets, place, why) in refused {
        assert_eq!(rt;
            general(octets, &mut into),
            Err(Der::new(place, why)),
            "at {octets:?}"
        );
    }
}

/// Reads a policy, and writes it again.
fn policy(octets: &[u8], into: &mut [u8]) -> Result<usize, Der> {
    match PolicyInfo::decode(&mut Cursor::new(octets)) {
        Ok(read) => Ok(put_policy(&read, into)),
        Err(refusal) => Err(refusal),
    }
}

fn put_policy(read: &PolicyInfo<'_>, into: &mut [u8]) -> usize {
    let mut out = Writer::new(into);
    if read.encoded_len() <= out.room() {
        read.write(&mut out);
    }
    out.written()
}

#[test]
fn policies(rt: HostRuntime) {
    let good = [0x30, 0x07, 0x06, 0x01, 0x55, 0x30, 0x02, 0x05, 0x00];
    let mut into = [0; 9];
    assert_eq!(rt; policy(&good, &mut into), Ok(9));
    assert_eq!(rt; into, good);
    assert_eq!(rt; policy(&[0x30, 0x03, 0x06, 0x01, 0x55], &mut into), Ok(5));
    let refused: [Refused<'_>; 4] = [
        (&[0x30, 0x00], 2, Why::End),
        (&[0x30, 0x05, 0x06, 0x01, 0x55, 0x30, 0x00], 5, Why::Value),
        (
            &[0x30, 0x05, 0x06, 0x01, 0x55, 0x05, 0x00],
            5,
            Why::Trailing,
        ),
        (
            &[0x30, 0x06, 0x06, 0x01, 0x55, 0x30, 0x01, 0x05],
            7,
            Why::End,
        ),
    ];
    for (octets, place, why) in refused {
        assert_eq!(rt;
            policy(octets, &mut into),
            Err(Der::new(place, why)),
            "at {octets:?}"
        );
    }
}

/// Reads an extension, and writes it again.
fn extension(octets: &[u8], into: &mut [u8]) -> Result<usize, Der> {
    match Extension::decode(&mut Cursor::new(octets)) {
        Ok(read) => Ok(put_extension(&read, into)),
        Err(refusal) => Err(refusal),
    }
}

fn put_extension(read: &Extension<'_>, into: &mut [u8]) -> usize {
    let mut out = Writer::new(into);
    if read.encoded_len() <= out.room() {
        read.write(&mut out);
    }
    out.written()
}

#[test]
fn extensions(rt: HostRuntime) {
    let good = [
        0x30, 0x0A, 0x06, 0x03, 0x55, 0x1D, 0x0E, 0x01, 0x01, 0xFF, 0x04, 0x00,
    ];
    let mut into = [0; 12];
    assert_eq!(rt; extension(&good, &mut into), Ok(12));
    assert_eq!(rt; into, good);
    assert_eq!(rt;
        extension(&[0x30, 0x05, 0x06, 0x01, 0x55, 0x04, 0x00], &mut into),
        Ok(7)
    );
    let refused: [Refused<'_>; 4] = [
        (&[0x30, 0x03, 0x06, 0x01, 0x55], 5, Why::End),
        (&[0x30, 0x05, 0x06, 0x01, 0x55, 0x05, 0x00], 5, Why::Tag),
        (
            &[0x30, 0x08, 0x06, 0x01, 0x55, 0x01, 0x01, 0x00, 0x04, 0x00],
            5,
            Why::Value,
        ),
        (
            &[0x30, 0x07, 0x06, 0x01, 0x55, 0x04, 0x00, 0x05, 0x00],
            7,
            Why::Trailing,
        ),
    ];
    for (octets, place, why) in refused {
        assert_eq!(rt;
            extension(octets, &mut into),
            Err(Der::new(place, why)),
            "at {octets:?}"
        );
    }
}

/// How many contents octets a list of extensions has.
fn list_len(octets: &[u8]) -> Result<usize, Der> {
    match read_extensions::<NoneKnown>(&mut Cursor::new(octets), 0x30) {
        Ok(contents) => Ok(contents.len()),
        Err(refusal) => Err(refusal),
    }
}

#[test]
fn lists_of_extensions(rt: HostRuntime) {
    let good = [
        0x30, 0x0E, 0x30, 0x05, 0x06, 0x01, 0x55, 0x04, 0x00, 0x30, 0x05, 0x06, 0x01, 0x56, 0x04,
        0x00,
    ];
    assert_eq!(rt; list_len(&good), Ok(14));
    let refused: [Refused<'_>; 4] = [
        (&[0x30, 0x00], 0, Why::Value),
        (&[0x31, 0x00], 0, Why::Tag),
        // The second extension has the identifier of the first.
        (
            &[
                0x30, 0x0E, 0x30, 0x05, 0x06, 0x01, 0x55, 0x04, 0x00, 0x30, 0x05, 0x06, 0x01, 0x55,
                0x04, 0x00,
            ],
            9,
            Why::Value,
        ),
        // So it has here, but something stands behind its fields.
        (
            &[
                0x30, 0x10, 0x30, 0x05, 0x06, 0x01, 0x55, 0x04, 0x00, 0x30, 0x07, 0x06, 0x01, 0x55,
                0x04, 0x00, 0x05, 0x00,
            ],
            16,
            Why::Trailing,
        ),
    ];
    for (octets, place, why) in refused {
        assert_eq!(rt;
            list_len(octets),
            Err(Der::new(place, why)),
            "at {octets:?}"
        );
    }
}

/// Whether a list of extensions is there.
fn has_list(octets: &[u8]) -> Result<bool, Der> {
    match read_optional_extensions::<NoneKnown>(&mut Cursor::new(octets), 0x30) {
        Ok(contents) => Ok(contents.is_some()),
        Err(refusal) => Err(refusal),
    }
}

#[test]
fn lists_that_may_be_absent(rt: HostRuntime) {
    assert_eq!(rt; has_list(&[]), Ok(false));
    assert_eq!(rt; has_list(&[0x31, 0x00]), Ok(false));
    assert_eq!(rt;
        has_list(&[0x30, 0x07, 0x30, 0x05, 0x06, 0x01, 0x55, 0x04, 0x00]),
        Ok(true)
    );
    assert_eq!(rt; has_list(&[0x30, 0x00]), Err(Der::new(0, Why::Value)));
}

/// How many extensions a long list has: more than are looked for at a time, and more than twice that many.
const MANY: usize = 5_000;

/// The identifier of the extension with this number, as a number: its own, but for those that repeat another's.
fn own_or_repeated(number: usize, repeats: &[(usize, usize)]) -> usize {
    for (repeating, repeated) in repeats {
        if *repeating == number {
            return *repeated;
        }
    }
    number
}

/// The contents of a long list of extensions of 8 octets each.
fn long_list(alloc: Global, repeats: &[(usize, usize)]) -> Result<Vec<u8>, AllocError> {
    let mut octets = Vec::new(alloc);
    for number in 0..MANY {
        let identifier = own_or_repeated(number, repeats);
        let high = (identifier / 128 % 64) as u8;
        let low = (identifier % 128) as u8;
        octets.extend_from_slice(&[0x30, 0x06, 0x06, 0x02, 0x81 + high, low, 0x04, 0x00])?;
    }
    Ok(octets)
}

/// The first extension that repeats an identifier is refused, wherever the two stand.
#[test]
fn long_lists_of_extensions(rt: HostRuntime) -> Result<(), AllocError> {
    let alloc = rt.alloc();
    let octets = long_list(alloc, &[])?;
    assert_eq!(rt;
        check_extensions::<NoneKnown>(&Cursor::new(&octets), 0),
        Ok(())
    );
    let lists: [(&[(usize, usize)], u64); 7] = [
        (&[(1, 0)], 1),
        (&[(1_024, 0)], 1_024),
        (&[(1_024, 1_023)], 1_024),
        (&[(2_049, 2_048)], 2_049),
        (&[(4_999, 0)], 4_999),
        // The later pair begins earlier.
        (&[(2_000, 1_999), (4_000, 5)], 2_000),
        (&[(3_500, 3_400), (3_000, 1_500)], 3_000),
    ];
    for (repeats, first) in lists {
        let octets = long_list(alloc, repeats)?;
        assert_eq!(rt;
            check_extensions::<NoneKnown>(&Cursor::new(&octets), 0),
            Err(Der::new(8 * first, Why::Value)),
            "where {repeats:?}"
        );
    }
    Ok(())
}

/// A fault before a repetition is told first, and one behind it isn't.
#[test]
fn faults_in_long_lists(rt: HostRuntime) -> Result<(), AllocError> {
    let mut octets = long_list(rt.alloc(), &[(3_000, 10)])?;
    if let Some(tag) = octets.get_mut(8 * 3_001) {
        *tag = 0x31;
    }
    assert_eq!(rt;
        check_extensions::<NoneKnown>(&Cursor::new(&octets), 0),
        Err(Der::new(8 * 3_000, Why::Value))
    );
    if let Some(tag) = octets.get_mut(8 * 2_999) {
        *tag = 0x31;
    }
    assert_eq!(rt;
        check_extensions::<NoneKnown>(&Cursor::new(&octets), 0),
        Err(Der::new(8 * 2_999, Why::Tag))
    );
    Ok(())
}
