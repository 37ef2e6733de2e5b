//! Trust files.

ghost use Rattle.std.specs.Prelude.{◌≡◌, ◌≤◌, ◌↔◌, ◌++◌, ◌∷◌, [], IfErr, IfOk, IsErrOf, OnOk, length};
ghost use Rattle.std.specs.Option.{option_copied};
ghost use Rattle.dv_x509.specs.Uses.{key_of};
ghost use Rattle.dv_x509.specs.View.{view_certificate};
ghost use Rattle.dv_path.specs.Anchors.{anchor_of};
ghost use Rattle.dv_path.specs.TrustFiles.{IsTrustCause, IsTrustFile};

use crate::faults::TrustFile;
use dv_asn1::Cursor;
use dv_files::{NoCertificate, laws, next_certificate};
use dv_x509::Certificate;
use std::alloc::{AllocError, Global};
use std::marker::Model;

/// The most certificates that a trust file has.
pub const ANCHOR_LIMIT: usize = 16;

/// A trust anchor (RFC 5280 6.1.1): the name and the HSS key of a certificate, of which nothing else is looked at. One without
/// an HSS key issues nothing.
#[derive(Debug, Drop)]
pub(crate) struct Anchor {
    subject: Vec<u8>,
    key: Option<[u8; 60]>,
}

impl Model for Anchor {
    ghost use Rattle.dv_path.specs.Anchors.{Anchored};

    ghost Value = { Anchored };

    ghost view = { λ a. record { subject = a.subject.items; key = a.key } };
}

impl Anchor {
    /// The anchor of a certificate.
    fn new(alloc: Global, certificate: &Certificate<'_>) -> Result<Anchor, AllocError>
        ensures { IfOk result (λ a. a ≡ anchor_of (view_certificate certificate.now)) }
    {
        let subject = certificate.subject.raw.to_vec(alloc)?;
        Ok(Anchor {
            subject,
            key: key_octets(certificate),
        })
    }

    /// The name, as a whole Name.
    pub(crate) fn subject(&self) -> &[u8]
        ensures { result.now ≡ self.now.subject }
    {
        self.subject.as_slice()
    }

    /// The HSS key.
    pub(crate) fn key(&self) -> Option<&[u8]>
        ensures { option_copied result ≡ self.now.key }
    {
        match &self.key {
            None => None,
            Some(key) => Some(key.as_slice()),
        }
    }
}

/// The HSS key of a certificate.
fn key_octets(certificate: &Certificate<'_>) -> Option<[u8; 60]>
    ensures { result ≡ key_of (view_certificate certificate.now) }
{
    match certificate.key() {
        None => None,
        Some(key) => {
            let mut octets = [0; 60];
            octets.copy_from_slice(key);
            Some(octets)
        }
    }
}

/// The trust anchors of a service, 1 to 16 of them. Contracts see it as their list.
#[derive(Debug, Drop)]
pub struct Trust {
    anchors: Vec<Anchor>,
}

impl Model for Trust {
    ghost use Rattle.std.specs.Prelude.{◌≤◌, List, length};
    ghost use Rattle.dv_path.specs.Anchors.{Anchored};

    ghost Value = { List Anchored };

    ghost view = { λ t. t.anchors.items };

    ghost invariant = { λ t. length t.anchors.items ≤ 16 };
}

impl Trust {
    /// The anchors of the certificates of a trust file, in order: 1 to 16 certificates (RFC 5280 4.1), each under tag 30, one
    /// after another.
    ///
    /// [`TrustFile::Empty`] comes exactly where there are no octets. Else [`TrustFile::Der`] comes exactly where one of the
    /// first 16 values doesn't decode as a certificate, at the place of the first check that fails there, counted in the file,
    /// and [`TrustFile::TooMany`] exactly where 16 certificates stand there with octets behind them, into which isn't looked.
    pub fn decode(alloc: Global, bytes: &[u8]) -> Result<Trust, TrustFile>
        ensures found { IfOk result (IsTrustFile bytes.now) }
        ensures empty { IsErrOf result TrustFile.Empty ↔ (bytes.now ≡ []) }
        ensures refused { IfErr result (IsTrustCause bytes.now) }
    {
        if bytes.is_empty() {
            return Err(TrustFile::Empty);
        }
        laws::reading_begins();
        laws::reading_goes_on();
        laws::reading_stops();
        let mut next = Cursor::new(bytes);
        let mut anchors = Vec::new(alloc);
        while anchors.len() < ANCHOR_LIMIT {
            let certificate = match next_certificate(&mut next) {
                Err(NoCertificate { place }) => return Err(TrustFile::Der { place }),
                Ok((_, certificate)) => certificate,
            };
            add(alloc, &mut anchors, &certificate)?;
            if next.at_end() {
                return Ok(Trust { anchors });
            }
        }
        Err(TrustFile::TooMany)
    }

    /// The anchors, in order.
    pub(crate) fn anchors(&self) -> &[Anchor]
        ensures value { result.now ≡ self.now }
        ensures few { length result.now ≤ 16 }
    {
        self.anchors.as_slice()
    }
}

/// Adds the anchor of a certificate.
fn add(
    alloc: Global,
    anchors: &mut Vec<Anchor>,
    certificate: &Certificate<'_>,
) -> Result<(), AllocError>
    ensures { OnOk result (anchors.new.items ≡ anchors.old.items ++ anchor_of (view_certificate certificate.now) ∷ []) }
{
    let anchor = Anchor::new(alloc, certificate)?;
    anchors.push(anchor)?;
    Ok(())
}
