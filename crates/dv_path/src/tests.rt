//! Trust files and bags around the own certificate of a key (276 octets), whose places were worked out by hand from RFC 5280
//! 4.1.

use crate::{Bag, BagFault, Trust, TrustFile};
use dv_asn1::{Der, Why};
use dv_time::Moment;
use dv_x509::{OwnParts, X509, own_certificate, own_tbs};
use std::alloc::{AllocError, Global};
use std::test::Fail;

/// The whole Name of the certificate's subject: its common name is notary.
const SUBJECT: [u8; 19] = [
    0x30, 0x11, 0x31, 0x0F, 0x30, 0x0D, 0x06, 0x03, 0x55, 0x04, 0x03, 0x0C, 0x06, 0x6E, 0x6F, 0x74,
    0x61, 0x72, 0x79,
];

/// How many octets the certificate has.
const LEN: usize = 276;

/// The place of its version number.
const VERSION: usize = 11;

/// The key of the certificate.
fn key() -> [u8; 60] {
    let mut key = [0x22; 60];
    key[..12].copy_from_slice(&[0, 0, 0, 1, 0, 0, 0, 5, 0, 0, 0, 4]);
    key
}

/// The own certificate of the name notary with serial 1, whose signature is the octets 01 02 03.
fn own(alloc: Global) -> Result<Vec<u8>, AllocError> {
    let Some(from) = Moment::from_unix(1_735_689_600) else {
        return Err(AllocError);
    };
    let Some(until) = Moment::from_unix(1_767_225_600) else {
        return Err(AllocError);
    };
    let parts = OwnParts {
        name: "notary".as_bytes(),
        from,
        until,
    };
    let tbs = own_tbs(alloc, &parts, &key(), 1)?;
    own_certificate(alloc, &tbs, &[1, 2, 3])
}

/// The certificate so many times, one after another.
fn owns(alloc: Global, count: usize) -> Result<Vec<u8>, AllocError> {
    let own = own(alloc)?;
    let mut octets = Vec::new(alloc);
    for _ in 0..count {
        octets.extend_from_slice(&own)?;
    }
    Ok(octets)
}

/// The same, with another version number in the third one.
fn third_with_version(alloc: Global, count: usize, version: u8) -> Result<Vec<u8>, AllocError> {
    let mut octets = owns(alloc, count)?;
    if let Some(changed) = octets.get_mut(2 * LEN + VERSION) {
        *changed = version;
    }
    Ok(octets)
}

/// Takes what threads may share.
fn lend<T: Sync>(_value: &T) {}

/// How many anchors the octets are, or why they are no trust file.
fn count(alloc: Global, octets: &[u8]) -> Result<usize, TrustFile> {
    match Trust::decode(alloc, octets) {
        Ok(trust) => Ok(trust.anchors().len()),
        Err(fault) => Err(fault),
    }
}

/// A refusal of a trust file at this place.
fn refused(place: u64) -> Result<usize, TrustFile> {
    Err(TrustFile::Der { place })
}

#[test]
fn one_to_sixteen_certificates(rt: HostRuntime) -> Result<(), Fail> {
    assert_eq!(rt; count(rt.alloc(), &owns(rt.alloc(), 1)?), Ok(1));
    assert_eq!(rt; count(rt.alloc(), &owns(rt.alloc(), 16)?), Ok(16));
    assert_eq!(rt;
        count(rt.alloc(), &owns(rt.alloc(), 17)?),
        Err(TrustFile::TooMany)
    );
    assert_eq!(rt; count(rt.alloc(), &[]), Err(TrustFile::Empty));
    Ok(())
}

#[test]
fn anchors_of_certificates(rt: HostRuntime) -> Result<(), Fail> {
    let octets = owns(rt.alloc(), 2)?;
    match Trust::decode(rt.alloc(), &octets) {
        Err(_) => assert!(rt; false),
        Ok(trust) => {
            lend(&trust);
            for anchor in trust.anchors() {
                assert_eq!(rt; anchor.subject(), SUBJECT.as_slice());
                assert_eq!(rt; anchor.key(), Some(key().as_slice()));
            }
        }
    }
    Ok(())
}

#[test]
fn third_value_is_bad(rt: HostRuntime) -> Result<(), Fail> {
    // version 4 is none that is known, and version 1 is the default
    for (version, place) in [(3, 552), (0, 561)] {
        let octets = third_with_version(rt.alloc(), 17, version)?;
        assert_eq!(rt;
            count(rt.alloc(), &octets),
            refused(place),
            "version {version}"
        );
    }
    assert_eq!(rt;
        count(rt.alloc(), &third_with_version(rt.alloc(), 3, 1)?),
        Ok(3)
    );
    Ok(())
}

#[test]
fn octets_behind(rt: HostRuntime) -> Result<(), Fail> {
    let mut fifteen = owns(rt.alloc(), 15)?;
    fifteen.push(0x30)?;
    assert_eq!(rt; count(rt.alloc(), &fifteen), refused(4140));
    let mut sixteen = owns(rt.alloc(), 16)?;
    sixteen.push(0x30)?;
    assert_eq!(rt; count(rt.alloc(), &sixteen), Err(TrustFile::TooMany));
    assert_eq!(rt; count(rt.alloc(), &[0x02, 0x01, 0x02]), refused(0));
    Ok(())
}

#[test]
fn bag_of_sixteen(rt: HostRuntime) -> Result<(), Fail> {
    let own = own(rt.alloc())?;
    let mut bag = Bag::new(rt.alloc());
    lend(&bag);
    assert!(rt; bag.is_empty());
    for position in 0..16 {
        assert_eq!(rt; bag.add(&own, 0x30), Ok(position));
    }
    assert_eq!(rt; bag.add(&own, 0x30), Err(BagFault::Full));
    assert_eq!(rt; bag.add(&[], 0x30), Err(BagFault::Full));
    assert_eq!(rt; bag.len(), 16);
    Ok(())
}

#[test]
fn bag_of_tagged_certificates(rt: HostRuntime) -> Result<(), Fail> {
    let mut tagged = own(rt.alloc())?;
    if let Some(tag) = tagged.get_mut(0) {
        *tag = 0xA0;
    }
    let mut bag = Bag::new(rt.alloc());
    let another = BagFault::Bad(X509::Der(Der::new(0, Why::Tag)));
    assert_eq!(rt; bag.add(&tagged, 0x30), Err(another));
    assert_eq!(rt; bag.len(), 0);
    assert_eq!(rt; bag.add(&tagged, 0xA0), Ok(0));
    assert_eq!(rt; bag.len(), 1);
    Ok(())
}
