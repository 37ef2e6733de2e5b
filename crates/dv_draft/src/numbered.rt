//! The DVCSCertInfo of a draft.

ghost use Rattle.std.specs.Prelude.{◌≡◌, ◌≤◌, ◌++◌, IfOk, length};
ghost use Rattle.dv_schema.specs.Tlv.{integer_octets, tlv};
ghost use Rattle.dv_asn1.specs.Writing.{room_of, Writes};
ghost use Rattle.dv_draft.specs.CertInfo.{after_serial, before_serial, cert_info_of};
ghost use Rattle.dv_draft.specs.Views.{view_draft};

use crate::draft::Draft;
use dv_asn1::{Writer, number_len, value_len};
use std::alloc::{AllocError, Global};

const INTEGER: u8 = 0x02;

const SEQUENCE: u8 = 0x30;

/// No memory is found for a draft whose fields have more octets than this.
const FIELDS_LIMIT: usize = 0xFFF_FFFF_FFFF;

/// The DVCSCertInfo (RFC 3029 9.1) of a draft with this serial number, a minimal INTEGER.
///
/// It takes one allocation, of their size.
pub fn assemble(alloc: Global, draft: &Draft, serial: u64) -> Result<Vec<u8>, AllocError>
    ensures { IfOk result (λ v. v.items ≡ cert_info_of serial (view_draft draft.now)) }
{
    let fields = draft.fields_len();
    if fields > FIELDS_LIMIT {
        return Err(AllocError);
    }
    let contents = fields + 2 + number_len(serial);
    let mut octets = vec![in alloc; 0u8; value_len(contents)]?;
    fill(&mut octets, contents, draft, serial);
    Ok(octets)
}

/// Fills a slice of the value's size with it, whose contents have this many octets.
fn fill(into: &mut [u8], contents: usize, draft: &Draft, serial: u64)
    requires contents { contents ≡ length (before_serial (view_draft draft.now) ++ tlv 2 (integer_octets serial) ++ after_serial (view_draft draft.now)) }
    requires size { length into.old ≡ length (tlv 48 (before_serial (view_draft draft.now) ++ tlv 2 (integer_octets serial) ++ after_serial (view_draft draft.now))) }
    ensures { into.new ≡ tlv 48 (before_serial (view_draft draft.now) ++ tlv 2 (integer_octets serial) ++ after_serial (view_draft draft.now)) }
{
    let mut out = Writer::new(into);
    write(contents, draft, serial, &mut out);
}

/// Writes the value, whose contents have this many octets.
fn write(contents: usize, draft: &Draft, serial: u64, out: &mut Writer<'_>)
    requires contents { contents ≡ length (before_serial (view_draft draft.now) ++ tlv 2 (integer_octets serial) ++ after_serial (view_draft draft.now)) }
    requires room { length (tlv 48 (before_serial (view_draft draft.now) ++ tlv 2 (integer_octets serial) ++ after_serial (view_draft draft.now))) ≤ room_of out.old }
    ensures { Writes out.old out.new (tlv 48 (before_serial (view_draft draft.now) ++ tlv 2 (integer_octets serial) ++ after_serial (view_draft draft.now))) }
{
    out.header(SEQUENCE, contents);
    draft.write_before_serial(out);
    out.number(INTEGER, serial);
    draft.write_after_serial(out);
}
