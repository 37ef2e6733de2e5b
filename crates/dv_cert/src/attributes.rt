//! The signed attributes of a certificate of service.

ghost use Rattle.std.specs.Prelude.{◌≡◌, ◌++◌, length};
ghost use Rattle.dv_schema.specs.Tlv.{tlv};
ghost use Rattle.dv_cert.specs.declared.attributes.TheConstants.{BEFORE_CONTENT, BEFORE_OWN};
ghost use Rattle.dv_cert.specs.Sealed.{attributes_with};

use dv_asn1::Writer;

/// How many octets the attributes have.
pub(crate) const ATTRIBUTES_LEN: usize = 134;

/// How many octets are signed: the attributes under the tag of a SET OF.
pub(crate) const SIGNED_LEN: usize = 137;

/// contentType (RFC 5652 11.1) with id-ct-DVCSResponseData, and messageDigest (RFC 5652 11.2) up to its digest.
const BEFORE_CONTENT: [u8; 45] = [
    0x30, 0x1A, 0x06, 0x09, 0x2A, 0x86, 0x48, 0x86, 0xF7, 0x0D, 0x01, 0x09, 0x03, 0x31, 0x0D, 0x06,
    0x0B, 0x2A, 0x86, 0x48, 0x86, 0xF7, 0x0D, 0x01, 0x09, 0x10, 0x01, 0x08, 0x30, 0x2F, 0x06, 0x09,
    0x2A, 0x86, 0x48, 0x86, 0xF7, 0x0D, 0x01, 0x09, 0x04, 0x31, 0x22, 0x04, 0x20,
];

/// signingCertificateV2 (RFC 5035 3) up to its digest.
const BEFORE_OWN: [u8; 25] = [
    0x30, 0x37, 0x06, 0x0B, 0x2A, 0x86, 0x48, 0x86, 0xF7, 0x0D, 0x01, 0x09, 0x10, 0x02, 0x2F, 0x31,
    0x28, 0x30, 0x26, 0x30, 0x24, 0x30, 0x22, 0x04, 0x20,
];

/// The tag of a SET OF.
const SET: u8 = 0x31;

/// The attributes for the digest of the content and for that of the server's own certificate, in ascending order.
pub(crate) fn attributes(content: &[u8; 32], own: &[u8; 32]) -> [u8; ATTRIBUTES_LEN]
    ensures { result ≡ attributes_with content.now own.now }
{
    let mut octets = [0; ATTRIBUTES_LEN];
    fill_attributes(&mut octets, content, own);
    octets
}

/// Fills a slice with the attributes.
fn fill_attributes(into: &mut [u8], content: &[u8; 32], own: &[u8; 32])
    requires { length into.old ≡ 134 }
    ensures { into.new ≡ BEFORE_CONTENT ++ (content.now ++ (BEFORE_OWN ++ own.now)) }
{
    let mut out = Writer::new(into);
    out.bytes(&BEFORE_CONTENT);
    out.bytes(content);
    out.bytes(&BEFORE_OWN);
    out.bytes(own);
}

/// What is signed (RFC 5652 5.4): the attributes as a SET OF.
pub(crate) fn set_of(attributes: &[u8; ATTRIBUTES_LEN]) -> [u8; SIGNED_LEN]
    ensures { result ≡ tlv 49 attributes.now }
{
    let mut octets = [0; SIGNED_LEN];
    fill_set(&mut octets, attributes);
    octets
}

/// Fills a slice with the SET OF.
fn fill_set(into: &mut [u8], attributes: &[u8])
    requires { length into.old ≡ length (tlv 49 attributes.now) }
    ensures { into.new ≡ tlv 49 attributes.now }
{
    let mut out = Writer::new(into);
    out.tlv(SET, attributes);
}
