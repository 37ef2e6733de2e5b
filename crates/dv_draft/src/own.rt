//! The contents of the records of own certificates.

ghost use Rattle.std.specs.Prelude.{◌≡◌, ◌≤◌, ◌<◌, ◌^◌, IfOk, length};
ghost use Rattle.std.specs.Str.{IsUtf8};
ghost use Rattle.dv_schema.specs.Schema.{contents as contents_of, spelling};
ghost use Rattle.dv_asn1.specs.Writing.{room_of, Writes};
ghost use Rattle.dv_draft.specs.OwnRecords.{own_record as own_record_type, own_record_fields, view_own};

use dv_asn1::{Writer, value_len};
use dv_time::write_generalized;
use dv_x509::OwnParts;
use std::alloc::{AllocError, Global};

const UTF8_STRING: u8 = 0x0C;

const SEQUENCE: u8 = 0x30;

/// How many octets two GeneralizedTimes have.
const TIMES_LEN: usize = 34;

/// No memory is found for a record with a name of more octets than this.
const NAME_LIMIT: usize = 0xFFFF_FFFF;

/// The contents of the record of an own certificate.
///
/// It takes one allocation, of their size.
pub fn own_record(alloc: Global, parts: &OwnParts<'_>) -> Result<Vec<u8>, AllocError>
    requires { IsUtf8 parts.now.name.now }
    ensures { IfOk result (λ v. v.items ≡ spelling own_record_type (view_own parts.now)) }
{
    if parts.name.len() > NAME_LIMIT {
        return Err(AllocError);
    }
    let mut octets = vec![in alloc; 0u8; value_len(contents_len(parts))]?;
    fill(&mut octets, parts);
    Ok(octets)
}

/// How many contents octets the record has.
fn contents_len(parts: &OwnParts<'_>) -> usize
    requires { length parts.now.name.now < 2 ^ 32 }
    ensures octets { result ≡ length (contents_of own_record_fields (view_own parts.now)) }
    ensures few { result < 2 ^ 33 }
{
    value_len(parts.name.len()) + TIMES_LEN
}

/// Fills a slice of the record's size with it.
fn fill(into: &mut [u8], parts: &OwnParts<'_>)
    requires short { length parts.now.name.now < 2 ^ 32 }
    requires size { length into.old ≡ length (spelling own_record_type (view_own parts.now)) }
    ensures { into.new ≡ spelling own_record_type (view_own parts.now) }
{
    let mut out = Writer::new(into);
    write(parts, &mut out);
}

/// Writes the record.
fn write(parts: &OwnParts<'_>, out: &mut Writer<'_>)
    requires short { length parts.now.name.now < 2 ^ 32 }
    requires room { length (spelling own_record_type (view_own parts.now)) ≤ room_of out.old }
    ensures { Writes out.old out.new (spelling own_record_type (view_own parts.now)) }
{
    out.header(SEQUENCE, contents_len(parts));
    out.tlv(UTF8_STRING, parts.name);
    out.bytes(&write_generalized(parts.from));
    out.bytes(&write_generalized(parts.until));
}
