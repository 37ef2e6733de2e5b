//! Certificates in the order of a SET OF (X.690 11.6).

ghost use Rattle.std.specs.Prelude.{◌≡◌, ◌≤◌, IfOk, length};
ghost use Rattle.std.specs.List.{concat, insert};
ghost use Rattle.dv_schema.specs.Octets.{is_less as less};
ghost use Rattle.dv_asn1.specs.Lists.{lists_of};
ghost use Rattle.dv_cert.specs.Sealed.{ascending as in_order, inserted};
ghost use Rattle.dv_cert.specs.Slices.{octets_of};

use std::alloc::{AllocError, Global};

/// Whether one encoding is less than another, at the first octet where they differ.
fn is_less(left: &[u8], right: &[u8]) -> bool
    ensures { result ≡ less left.now right.now }
{
    left < right
}

/// Where the octets stand in a list that ascends: behind those that are less, up to the first that isn't.
fn place_in(sorted: &[&[u8]], octets: &[u8]) -> usize
    ensures within { result ≤ length sorted.now }
    ensures order { insert (octets_of sorted.now) result octets.now ≡ inserted octets.now (octets_of sorted.now) }
{
    for (i, other) in sorted.iter().enumerate() {
        if !is_less(other, octets) {
            return i;
        }
    }
    sorted.len()
}

/// The certificates in ascending order.
pub(crate) fn ascending(alloc: Global, certificates: &[Vec<u8>]) -> Result<Vec<&[u8]>, AllocError>
    ensures { IfOk result (λ v. octets_of v.items ≡ in_order (lists_of certificates.now)) }
{
    let mut sorted = Vec::with_capacity(alloc, certificates.len())?;
    for certificate in certificates {
        let octets = certificate.as_slice();
        let place = place_in(&sorted, octets);
        sorted.insert(place, octets)?;
    }
    Ok(sorted)
}

/// The octets of the parts, one behind another.
pub(crate) fn joined(alloc: Global, parts: &[&[u8]]) -> Result<Vec<u8>, AllocError>
    ensures { IfOk result (λ v. v.items ≡ concat (octets_of parts.now)) }
{
    let mut octets = Vec::new(alloc);
    for part in parts {
        octets.extend_from_slice(part)?;
    }
    Ok(octets)
}
