//! Copies of the octets of a draft on either side of its serial number.

ghost use Rattle.std.specs.Prelude.{◌≡◌, IfOk, length};
ghost use Rattle.dv_draft.specs.CertInfo.{after_serial as after, before_serial as before};
ghost use Rattle.dv_draft.specs.Views.{view_draft};

use dv_asn1::Writer;
use dv_draft::Draft;
use std::alloc::{AllocError, Global};

/// The octets before the serial number, in one allocation.
pub(crate) fn before_serial(alloc: Global, draft: &Draft) -> Result<Vec<u8>, AllocError>
    ensures { IfOk result (λ v. v.items ≡ before (view_draft draft.now)) }
{
    let mut octets = vec![in alloc; 0u8; draft.before_serial_len()]?;
    fill_before(&mut octets, draft);
    Ok(octets)
}

/// Fills a slice of their size with the octets before the serial number.
fn fill_before(into: &mut [u8], draft: &Draft)
    requires { length into.old ≡ length (before (view_draft draft.now)) }
    ensures { into.new ≡ before (view_draft draft.now) }
{
    let mut out = Writer::new(into);
    draft.write_before_serial(&mut out);
}

/// The octets behind it, in one allocation.
pub(crate) fn after_serial(alloc: Global, draft: &Draft) -> Result<Vec<u8>, AllocError>
    ensures { IfOk result (λ v. v.items ≡ after (view_draft draft.now)) }
{
    let mut octets = vec![in alloc; 0u8; draft.after_serial_len()]?;
    fill_after(&mut octets, draft);
    Ok(octets)
}

/// Fills a slice of their size with the octets behind the serial number.
fn fill_after(into: &mut [u8], draft: &Draft)
    requires { length into.old ≡ length (after (view_draft draft.now)) }
    ensures { into.new ≡ after (view_draft draft.now) }
{
    let mut out = Writer::new(into);
    draft.write_after_serial(&mut out);
}
