//! The list of entries in a certificate of service.

ghost use Rattle.std.specs.Prelude.{◌≡◌, ◌≤◌, IfOk, length};
ghost use Rattle.dv_asn1.specs.Writing.{room_of, Writes};
ghost use Rattle.dv_svc_pkc.specs.Validated.{entries_in};

use crate::entry::Finding;
use dv_asn1::{Octets, Writer};
use std::alloc::{AllocError, Global};

/// The contents octets of the list of their entries. It takes one allocation, of their size.
pub(crate) fn certs_of(alloc: Global, findings: &[Finding<'_>]) -> Result<Octets, AllocError>
    requires { length findings.now ≤ 8 }
    ensures { IfOk result (λ o. o ≡ entries_in findings.now) }
{
    let mut octets = vec![in alloc; 0u8; entries_len(findings)]?;
    fill(findings, &mut octets);
    Ok(Octets::new(octets))
}

/// Fills a slice of their size with the entries.
fn fill(findings: &[Finding<'_>], into: &mut [u8])
    requires { length into.old ≡ length (entries_in findings.now) }
    ensures { into.new ≡ entries_in findings.now }
{
    let mut out = Writer::new(into);
    write_entries(findings, &mut out);
}

/// How many octets the entries have, one behind another.
fn entries_len(findings: &[Finding<'_>]) -> usize
    requires { length findings.now ≤ 8 }
    ensures { result ≡ length (entries_in findings.now) }
{
    let mut total = 0;
    for finding in findings {
        total += finding.encoded_len();
    }
    total
}

/// Writes the entries, one behind another.
fn write_entries(findings: &[Finding<'_>], out: &mut Writer<'_>)
    requires { length (entries_in findings.now) ≤ room_of out.old }
    ensures { Writes out.old out.new (entries_in findings.now) }
{
    for finding in findings {
        finding.write(out);
    }
}
