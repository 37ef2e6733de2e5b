//! The list of entries in a certificate of service.

ghost use Rattle.std.specs.Prelude.{◌≡◌, ◌≤◌, IfOk, length};
ghost use Rattle.dv_asn1.specs.Writing.{room_of, Writes};
ghost use Rattle.dv_svc_document.specs.Kept.{octets_in};

use crate::entry::Entry;
use dv_asn1::{Octets, Writer};
use std::alloc::{AllocError, Global};

/// The contents octets of the list of the entries. It takes one allocation, of their size.
pub(crate) fn certs_of(alloc: Global, entries: &[Entry<'_>]) -> Result<Octets, AllocError>
    requires { length entries.now ≤ 8 }
    ensures { IfOk result (λ o. o ≡ octets_in entries.now) }
{
    let mut octets = vec![in alloc; 0u8; entries_len(entries)]?;
    fill(entries, &mut octets);
    Ok(Octets::new(octets))
}

/// Fills a slice of their size with the entries.
fn fill(entries: &[Entry<'_>], into: &mut [u8])
    requires { length into.old ≡ length (octets_in entries.now) }
    ensures { into.new ≡ octets_in entries.now }
{
    let mut out = Writer::new(into);
    write_entries(entries, &mut out);
}

/// How many octets the entries have, one behind another.
fn entries_len(entries: &[Entry<'_>]) -> usize
    requires { length entries.now ≤ 8 }
    ensures { result ≡ length (octets_in entries.now) }
{
    let mut total = 0;
    for entry in entries {
        total += entry.encoded_len();
    }
    total
}

/// Writes the entries, one behind another.
fn write_entries(entries: &[Entry<'_>], out: &mut Writer<'_>)
    requires { length (octets_in entries.now) ≤ room_of out.old }
    ensures { Writes out.old out.new (octets_in entries.now) }
{
    for entry in entries {
        entry.write(out);
    }
}
