//! The signed attributes of a signer.

ghost use Rattle.std.specs.Prelude.{◌≡◌, ◌<◌, List, [], IfOk, IsOkAnd, length, map, not, option_map, Ok, Some};
ghost use Rattle.std.specs.Option.{option_copied};
ghost use Rattle.dv_schema.specs.Octets.{are_apart};
ghost use Rattle.dv_schema.specs.Schema.{ValueOf};
ghost use Rattle.dv_schema.specs.Reading.{Spot, read};
ghost use Rattle.dv_schema.specs.Tlv.{tlv};
ghost use Rattle.dv_schema.specs.Types.{any};
ghost use Rattle.dv_cms.specs.Types.{attribute as attribute_type};
ghost use Rattle.dv_members.specs.Members.{values_in};
ghost use Rattle.dv_x509.specs.Uses.{first_named};
ghost use Rattle.dv_signed.specs.AttributeView.{view_attribute};
ghost use Rattle.dv_signed.specs.Attributes.{AreAttributes, are_octets, are_right, has_content_type, message_digest_of, names_its_certificate, one_value, type_of, values_under};
ghost use Rattle.dv_signed.specs.Kinds.{digest_by};
ghost use Rattle.dv_signed.specs.Turns.{attribute_turn};

use crate::digest::holds_digest;
use crate::essential::names_certificate;
use crate::header::is_value;
use dv_asn1::{Cursor, Der, same};
use dv_names::DigestKind;
use dv_names::identifiers::{CONTENT_TYPE, MESSAGE_DIGEST, SIGNING_CERTIFICATE_V2};
use dv_repeats::{Keyed, first_repeated};

/// The tag of an Attribute.
const SEQUENCE: u8 = 0x30;

/// The tag of an OBJECT IDENTIFIER.
const OBJECT_IDENTIFIER: u8 = 0x06;

/// The tag of its values.
const SET: u8 = 0x31;

/// An Attribute (RFC 5652 5.3) of a signer.
#[derive(Clone, Copy)]
pub(crate) struct Attribute<'a> {
    /// The contents octets of its type.
    oid: &'a [u8],
    /// The contents octets of the set of its values.
    values: &'a [u8],
}

/// Passes an attribute of a set that was read: its values aren't looked at again.
#[tactic(auto, unfolding(dv_schema::specs::Reading::read))]
fn next_attribute<'a>(c: &mut Cursor<'a>) -> Result<Attribute<'a>, Der>
    ensures same { (x : ValueOf attribute_type × Spot) → read attribute_type c.old ≡ Ok x
        → IsOkAnd result (λ a. view_attribute a ≡ x.0) × (c.new ≡ x.1) }
    ensures less { IfOk result (λ a. length c.new.rest < length c.old.rest) }
{
    let mut inside = c.enter(SEQUENCE)?;
    let oid = inside.read_oid()?;
    let values = inside.enter(SET)?;
    Ok(Attribute {
        oid,
        values: values.rest(),
    })
}

/// The contents octets of the values of the first attribute with this type, in the contents of a set that was read.
pub(crate) fn find_values<'a>(attributes: &Cursor<'a>, oid: &[u8]) -> Option<&'a [u8]>
    ensures { (vs : List (ValueOf attribute_type)) → AreAttributes attributes.now vs
        → option_copied result ≡ option_map (λ a. a.1.0) (first_named type_of oid.now vs) }
{
    let mut next = attributes.fork();
    while !next.at_end() {
        match next_attribute(&mut next) {
            Err(_) => return None,
            Ok(attribute) => {
                if same(oid, attribute.oid) {
                    return Some(attribute.values);
                }
            }
        }
    }
    None
}

/// Attributes by their types.
struct ByType;

impl Keyed for ByType {
    ghost turn = { attribute_turn };

    fn pass_key<'a>(c: &mut Cursor<'a>) -> Option<&'a [u8]> {
        match next_attribute(c) {
            Ok(attribute) => Some(attribute.oid),
            Err(_) => None,
        }
    }
}

/// Whether two attributes have one type, in the contents of a set that was read.
pub(crate) fn has_repeated_type(attributes: &Cursor<'_>) -> bool
    ensures { (vs : List (ValueOf attribute_type)) → AreAttributes attributes.now vs
        → result ≡ not (are_apart [] (map type_of vs)) }
{
    first_repeated::<ByType>(attributes).is_some()
}

/// The one value of the first attribute with this type, in the contents of a set that was read; None where it isn't there
/// with one.
pub(crate) fn find_value<'a>(attributes: &Cursor<'a>, oid: &[u8]) -> Option<&'a [u8]>
    ensures { (vs : List (ValueOf attribute_type)) → AreAttributes attributes.now vs
        → option_copied result ≡ one_value (values_under oid.now vs) }
{
    match find_values(attributes, oid) {
        None => None,
        Some(values) => one_value(values),
    }
}

/// The one value in the contents of a set; None where they aren't one value.
pub(crate) fn one_value(values: &[u8]) -> Option<&[u8]>
    ensures { option_copied result ≡ one_value (Some (values_in any values.now)) }
{
    let mut next = Cursor::new(values);
    match next.skip_value() {
        Err(_) => None,
        Ok(value) => { if next.at_end() { Some(value) } else { None } }
    }
}

/// Whether contentType is there with one value, and that is the content type, of which these are the contents octets
/// (RFC 5652 11.1).
pub(crate) fn has_content_type(attributes: &Cursor<'_>, content_type: &[u8]) -> bool
    ensures { (vs : List (ValueOf attribute_type)) → AreAttributes attributes.now vs
        → result ≡ has_content_type content_type.now vs }
{
    match find_value(attributes, &CONTENT_TYPE) {
        None => false,
        Some(value) => is_value(value, OBJECT_IDENTIFIER, content_type),
    }
}

/// Whether the one value of messageDigest is the digest of the content (RFC 5652 11.2).
pub(crate) fn has_digest(attributes: &Cursor<'_>, kind: DigestKind, content: &[u8]) -> bool
    ensures { (vs : List (ValueOf attribute_type)) → AreAttributes attributes.now vs
        → result ≡ are_octets (message_digest_of vs) (tlv 4 (digest_by kind content.now)) }
{
    match find_value(attributes, &MESSAGE_DIGEST) {
        None => false,
        Some(value) => holds_digest(value, kind, content),
    }
}

/// Whether signingCertificateV2 is absent, or has one value, whose first hash is that of the certificate (RFC 5035 3).
pub(crate) fn names_its_certificate(attributes: &Cursor<'_>, certificate: &[u8]) -> bool
    ensures { (vs : List (ValueOf attribute_type)) → AreAttributes attributes.now vs
        → result ≡ names_its_certificate certificate.now vs }
{
    match find_values(attributes, &SIGNING_CERTIFICATE_V2) {
        None => true,
        Some(values) => match one_value(values) {
            None => false,
            Some(value) => names_certificate(value, certificate),
        },
    }
}

/// Whether the attributes are as they must be: no type stands twice, and contentType, messageDigest and
/// signingCertificateV2 are right.
pub(crate) fn are_right(attributes: &Cursor<'_>, content_type: &[u8], certificate: &[u8]) -> bool
    ensures { (vs : List (ValueOf attribute_type)) → AreAttributes attributes.now vs
        → result ≡ are_right content_type.now certificate.now vs }
{
    !has_repeated_type(attributes)
        && has_content_type(attributes, content_type)
        && find_value(attributes, &MESSAGE_DIGEST).is_some()
        && names_its_certificate(attributes, certificate)
}

#[cfg(test)]
mod tests;
