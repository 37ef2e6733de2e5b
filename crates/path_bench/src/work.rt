//! What is timed.

ghost use Rattle.std.specs.Prelude.{◌≡◌, ◌<◌, length};

use dv_lms::{Steps, verify};
use dv_outside::Shelf;
use dv_path::{Bag, Trust, find_path};
use dv_time::Moment;
use dv_x509::Certificate;
use std::alloc::{AllocError, Global};
use std::marker::Brand;
use std::sync::ledger::{Blank, Ledger};

/// The tag of a certificate in a file.
const SEQUENCE: u8 = 0x30;

/// The most octets of a trust file.
const TRUST_LIMIT: u64 = 131_072;

/// The most octets of a certificate.
const CERTIFICATE_LIMIT: u64 = 8_192;

/// 2025-01-01T00:00:00Z, in seconds since 1970.
const NEW_YEAR: u64 = 1_735_689_600;

/// Anchors, the certificates of a bag, and the octets of the first of them.
#[derive(Drop)]
pub struct Mesh {
    trust: Trust,
    bag: Bag,
    first: Vec<u8>,
    when: Moment,
    ghost some: { 0 < length bag },
}

/// The anchors and the certificates in files; None where one of these can't be read, or isn't what it should be, or there is no certificate.
pub fn read_mesh<F: Shelf>(
    alloc: Global,
    shelf: &mut F,
    trust: &str,
    names: &[String],
) -> Option<Mesh> {
    let octets = shelf.read(alloc, trust, TRUST_LIMIT).ok()?;
    let trust = Trust::decode(alloc, &octets).ok()?;
    let [first, ..] = names else {
        return None;
    };
    let first = shelf.read(alloc, first.as_str(), CERTIFICATE_LIMIT).ok()?;
    let mut bag = Bag::new(alloc);
    for name in names {
        let octets = shelf.read(alloc, name.as_str(), CERTIFICATE_LIMIT).ok()?;
        bag.add(&octets, SEQUENCE).ok()?;
    }
    if bag.is_empty() {
        return None;
    }
    let when = Moment::from_unix(NEW_YEAR)?;
    Some(Mesh {
        trust,
        bag,
        first,
        when,
    })
}

impl Mesh {
    /// Whether there is a path from the first certificate to an anchor.
    pub fn has_path(&self, alloc: Global) -> Result<bool, AllocError> {
        searched::<Brand>(alloc, self, Blank::new(1))
    }

    /// Whether the first certificate is signed under its own key.
    pub fn is_signed(&self) -> bool {
        let Ok(certificate) = Certificate::decode(&self.first, SEQUENCE) else {
            return false;
        };
        let Some(key) = certificate.key() else {
            return false;
        };
        let (_, signature) = certificate.signature;
        verified::<Brand>(key, certificate.tbs, signature, Blank::new(1))
    }
}

/// Searches with a new counter.
fn searched<L: Ledger>(alloc: Global, mesh: &Mesh, blank: Blank) -> Result<bool, AllocError>
    requires name { blank.name ≡ L.name }
    requires parts { blank.parts ≡ L.parts }
    requires some { 0 < blank.parts }
{
    let mut checks = Steps::<L>::new(blank);
    let path = find_path(
        alloc,
        &mesh.trust,
        &mesh.bag,
        0,
        mesh.when,
        None,
        &mut checks,
    )?;
    Ok(path.is_some())
}

/// Verifies with a new counter.
fn verified<L: Ledger>(key: &[u8], message: &[u8], signature: &[u8], blank: Blank) -> bool
    requires name { blank.name ≡ L.name }
    requires parts { blank.parts ≡ L.parts }
    requires some { 0 < blank.parts }
{
    verify(key, message, signature, &mut Steps::<L>::new(blank))
}
