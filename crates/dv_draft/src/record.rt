//! The contents of the records of certificates of service.

ghost use Rattle.std.specs.Prelude.{◌≡◌, ◌≤◌, ◌<◌, ◌++◌, IfOk, length, sum_by, MatchOption};
ghost use Rattle.std.specs.List.{concat};
ghost use Rattle.dv_schema.specs.Schema.{spelling};
ghost use Rattle.dv_schema.specs.Tlv.{tlv};
ghost use Rattle.dv_asn1.specs.Lists.{lists_of};
ghost use Rattle.dv_asn1.specs.Writing.{room_of, Writes};
ghost use Rattle.dv_draft.specs.Records.{record_of as record_octets};
ghost use Rattle.dv_draft.specs.Types.{draft as draft_type};
ghost use Rattle.dv_draft.specs.Views.{view_draft};

use crate::draft::Draft;
use crate::server::Server;
use dv_asn1::{Writer, value_len};
use std::alloc::{AllocError, Global};

const SEQUENCE: u8 = 0x30;

/// No memory is found for a record with a part of more octets than this.
const PART_LIMIT: usize = 0xFFF_FFFF_FFFF;

/// The contents of the record of a draft: the certificates of its server, and the draft.
///
/// It takes one allocation, of their size.
pub fn record_of(alloc: Global, draft: &Draft, server: &Server) -> Result<Vec<u8>, AllocError>
    ensures { IfOk result (λ v. v.items ≡ record_octets server.now.certificates (view_draft draft.now)) }
{
    let certificates = server.certificates.as_slice();
    let Some(listed) = octets_len(certificates) else {
        return Err(AllocError);
    };
    let drafted = draft.encoded_len();
    if drafted > PART_LIMIT {
        return Err(AllocError);
    }
    let mut octets = vec![in alloc; 0u8; value_len(listed) + drafted]?;
    fill(&mut octets, listed, certificates, draft);
    Ok(octets)
}

/// How many octets the certificates have, one behind another; None exactly past [`PART_LIMIT`].
fn octets_len(certificates: &[Vec<u8>]) -> Option<usize>
    ensures { MatchOption result (17592186044415 < sum_by (λ v. length v.items) certificates.now)
        (λ n. (n ≡ sum_by (λ v. length v.items) certificates.now) × (n ≤ 17592186044415)) }
{
    let mut total = 0;
    for certificate in certificates {
        if certificate.len() > PART_LIMIT - total {
            return None;
        }
        total += certificate.len();
    }
    Some(total)
}

/// Fills a slice of their size with the contents of a record, whose certificates have so many octets.
fn fill(into: &mut [u8], listed: usize, certificates: &[Vec<u8>], draft: &Draft)
    requires listed { listed ≡ length (concat (lists_of certificates.now)) }
    requires size { length into.old ≡ length (tlv 48 (concat (lists_of certificates.now)) ++ spelling draft_type (view_draft draft.now)) }
    ensures { into.new ≡ tlv 48 (concat (lists_of certificates.now)) ++ spelling draft_type (view_draft draft.now) }
{
    let mut out = Writer::new(into);
    write(listed, certificates, draft, &mut out);
}

/// Writes the contents of a record, whose certificates have so many octets.
fn write(listed: usize, certificates: &[Vec<u8>], draft: &Draft, out: &mut Writer<'_>)
    requires listed { listed ≡ length (concat (lists_of certificates.now)) }
    requires room { length (tlv 48 (concat (lists_of certificates.now)) ++ spelling draft_type (view_draft draft.now)) ≤ room_of out.old }
    ensures { Writes out.old out.new (tlv 48 (concat (lists_of certificates.now)) ++ spelling draft_type (view_draft draft.now)) }
{
    out.header(SEQUENCE, listed);
    write_all(certificates, out);
    draft.write(out);
}

/// Writes the certificates, one behind another.
fn write_all(certificates: &[Vec<u8>], out: &mut Writer<'_>)
    requires { length (concat (lists_of certificates.now)) ≤ room_of out.old }
    ensures { Writes out.old out.new (concat (lists_of certificates.now)) }
{
    for certificate in certificates {
        out.bytes(certificate);
    }
}
