//! The certificates of a record.

ghost use Rattle.std.specs.Prelude.{◌≡◌, ◌≤◌, ◌<◌, ◌+◌, ◌^◌, ◌∷◌, ◌++◌, [], Err, OnOk, length, List, ℕ};
ghost use Rattle.dv_asn1.specs.Lists.{lists_of};
ghost use Rattle.dv_schema.specs.Answers.{Reads};
ghost use Rattle.dv_draft.specs.Records.{certificate_at, certificates_at, kept_at, list_at};
ghost use Rattle.dv_draft.specs.Read.{Tells};

use crate::reading::ReadRecord;
use dv_asn1::{Cursor, Der, Why};
use dv_x509::{Certificate, X509};
use std::alloc::{AllocError, Global};

/// The tag of a SEQUENCE.
const SEQUENCE: u8 = 0x30;

/// The most certificates that a record has.
const CERTIFICATES_LIMIT: usize = 6;

/// The list of 1 to 6 certificates at the cursor, which then stands behind it.
pub(crate) fn read_certificates(
    alloc: Global,
    c: &mut Cursor<'_>,
) -> Result<Vec<Vec<u8>>, ReadRecord>
    ensures told { Tells (λ cs. (lists_of cs.items, c.new)) result (list_at c.old) }
    ensures shorter { length c.new.rest ≤ length c.old.rest }
{
    let own = c.place();
    let inside = c.enter(SEQUENCE)?;
    if inside.at_end() {
        return Err(ReadRecord::Der(Der::new(own, Why::Value)));
    }
    certificates_in(alloc, inside, own)
}

/// The certificates that are left, to the end of the list at the place `own`.
fn certificates_in(
    alloc: Global,
    contents: Cursor<'_>,
    own: u64,
) -> Result<Vec<Vec<u8>>, ReadRecord>
    ensures { Tells (λ cs. lists_of cs.items) result (certificates_at 6 own contents.entry) }
{
    let mut next = contents;
    let mut certificates = Vec::new(alloc);
    while !next.at_end() {
        if certificates.len() == CERTIFICATES_LIMIT {
            return Err(ReadRecord::Der(Der::new(own, Why::Value)));
        }
        let octets = read_certificate(&mut next)?;
        keep(alloc, &mut certificates, octets)?;
    }
    Ok(certificates)
}

/// Adds a copy of octets to the certificates.
fn keep(alloc: Global, certificates: &mut Vec<Vec<u8>>, octets: &[u8]) -> Result<(), AllocError>
    ensures { OnOk result (lists_of certificates.new.items ≡ lists_of certificates.old.items ++ octets.now ∷ []) }
{
    let copy = octets.to_vec(alloc)?;
    certificates.push(copy)?;
    Ok(())
}

/// The octets of the certificate at the cursor. After a refusal the cursor is where it was.
fn read_certificate<'a>(c: &mut Cursor<'a>) -> Result<&'a [u8], Der>
    ensures { Reads (λ x. x.now) result c.old c.new (certificate_at c.old) }
{
    let mut next = c.fork();
    next.enter(SEQUENCE)?;
    let octets = c.up_to(&next);
    if let Err(cause) = Certificate::decode(octets, SEQUENCE) {
        return Err(refusal_at(c.place(), cause));
    }
    *c = next;
    Ok(octets)
}

/// The refusal of the contents, where the certificate at this place is refused for this cause.
fn refusal_at(place: u64, cause: X509) -> Der
    requires { (d : Der) → cause ≡ X509.Der d → place + d.place < 2 ^ 64 }
    ensures { (octets : List ℕ) → kept_at place octets (Err cause) ≡ Err result }
{
    match cause {
        X509::Der(refusal) => Der::new(place + refusal.place, refusal.why),
        X509::Version | X509::Algorithm | X509::TooLong => Der::new(place, Why::Value),
    }
}
