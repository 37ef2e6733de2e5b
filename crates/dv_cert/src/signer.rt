//! The signer of a certificate of service.

ghost use Rattle.std.specs.Prelude.{◌≡◌, ◌≤◌, ◌+◌, ◌++◌, IfOk, length};
ghost use Rattle.dv_schema.specs.Tlv.{tlv};
ghost use Rattle.dv_asn1.specs.Writing.{room_of, Writes};
ghost use Rattle.dv_draft.specs.Records.{IsCertificate};
ghost use Rattle.dv_cert.specs.Sealed.{digest_algorithm, signature_algorithm, signer_back, signer_front, signer_of};

use crate::PART_LIMIT;
use dv_asn1::{Writer, value_len};
use dv_names::identifiers::{ID_ALG_HSS_LMS_HASHSIG, SHA_256};
use dv_x509::Certificate;
use std::alloc::{AllocError, Global};

const INTEGER: u8 = 0x02;

const OCTET_STRING: u8 = 0x04;

const OBJECT_IDENTIFIER: u8 = 0x06;

const SEQUENCE: u8 = 0x30;

const CONTEXT_0: u8 = 0xA0;

/// The version of a SignerInfo whose signer is named by issuer and serial number (RFC 5652 5.3).
const SIGNER_VERSION: u8 = 1;

/// The contents of the IssuerAndSerialNumber (RFC 5652 10.2.4) that names a certificate.
pub(crate) fn signer_of_own(alloc: Global, own: &[u8]) -> Result<Vec<u8>, AllocError>
    requires { IsCertificate own.now }
    ensures { IfOk result (λ v. v.items ≡ signer_of own.now) }
{
    match Certificate::decode(own, SEQUENCE) {
        Err(_) => unreachable!(),
        Ok(certificate) => issuer_and_serial(alloc, certificate.issuer.raw, certificate.serial),
    }
}

/// The issuer, a whole Name, and an INTEGER with these contents.
fn issuer_and_serial(alloc: Global, issuer: &[u8], serial: &[u8]) -> Result<Vec<u8>, AllocError>
    ensures { IfOk result (λ v. v.items ≡ issuer.now ++ tlv 2 serial.now) }
{
    if issuer.len() > PART_LIMIT || serial.len() > PART_LIMIT {
        return Err(AllocError);
    }
    let mut octets = vec![in alloc; 0u8; issuer.len() + value_len(serial.len())]?;
    fill_issuer(&mut octets, issuer, serial);
    Ok(octets)
}

/// Fills a slice of their size with the issuer and the INTEGER.
fn fill_issuer(into: &mut [u8], issuer: &[u8], serial: &[u8])
    requires { length into.old ≡ length (issuer.now ++ tlv 2 serial.now) }
    ensures { into.new ≡ issuer.now ++ tlv 2 serial.now }
{
    let mut out = Writer::new(into);
    out.bytes(issuer);
    out.tlv(INTEGER, serial);
}

/// Writes the AlgorithmIdentifier of SHA-256 (RFC 5754 2.2), without parameters.
pub(crate) fn write_digest_algorithm(out: &mut Writer<'_>)
    requires { length digest_algorithm ≤ room_of out.old }
    ensures { Writes out.old out.new digest_algorithm }
{
    out.header(SEQUENCE, 11);
    out.tlv(OBJECT_IDENTIFIER, &SHA_256);
}

/// Writes the AlgorithmIdentifier of HSS (RFC 9708 3), without parameters.
fn write_signature_algorithm(out: &mut Writer<'_>)
    requires { length signature_algorithm ≤ room_of out.old }
    ensures { Writes out.old out.new signature_algorithm }
{
    out.header(SEQUENCE, 13);
    out.tlv(OBJECT_IDENTIFIER, &ID_ALG_HSS_LMS_HASHSIG);
}

/// A SignerInfo (RFC 5652 5.3): the contents octets of its issuer and serial number, those of its signed attributes, and its
/// signature.
#[derive(Clone, Copy)]
pub(crate) struct SignerInfo<'a, 'b> {
    pub(crate) signer: &'a [u8],
    pub(crate) attributes: &'a [u8],
    pub(crate) signature: &'b [u8],
    ghost signer_short: { length signer.now ≤ 1099511627775 },
    ghost attributes_short: { length attributes.now ≤ 1099511627775 },
    ghost signature_short: { length signature.now ≤ 1099511627775 },
}

impl SignerInfo<'_, '_> {
    ghost use Rattle.dv_cert.specs.Messages.{signer_octets};

    /// How many octets the version, the issuer and serial number, and the digest algorithm have.
    #[tactic(auto, unfolding(crate::specs::Sealed::signer_front))]
    fn front_len(&self) -> usize
        ensures octets { result ≡ length (signer_front self.now.signer.now) }
        ensures few { result ≤ length self.now.signer.now + 26 }
    {
        3 + value_len(self.signer.len()) + 13
    }

    /// How many octets the attributes, the signature algorithm and the signature have.
    #[tactic(auto, unfolding(crate::specs::Sealed::signer_back))]
    fn back_len(&self) -> usize
        ensures octets { result ≡ length (signer_back self.now.attributes.now self.now.signature.now) }
        ensures few { result ≤ length self.now.attributes.now + length self.now.signature.now + 35 }
    {
        value_len(self.attributes.len()) + 15 + value_len(self.signature.len())
    }

    /// How many octets it has.
    #[tactic(auto, unfolding(crate::specs::Sealed::signer_info_with))]
    pub(crate) fn encoded_len(&self) -> usize
        ensures octets { result ≡ length (signer_octets self.now) }
        ensures few { result ≤ length self.now.signer.now + length self.now.attributes.now + length self.now.signature.now + 71 }
    {
        value_len(self.front_len() + self.back_len())
    }

    /// Writes the version, the issuer and serial number, and the digest algorithm.
    #[tactic(auto, unfolding(crate::specs::Sealed::signer_front))]
    fn write_front(&self, out: &mut Writer<'_>)
        requires { length (signer_front self.now.signer.now) ≤ room_of out.old }
        ensures { Writes out.old out.new (signer_front self.now.signer.now) }
    {
        out.tlv(INTEGER, &[SIGNER_VERSION]);
        out.tlv(SEQUENCE, self.signer);
        write_digest_algorithm(out);
    }

    /// Writes the attributes, the signature algorithm and the signature.
    #[tactic(auto, unfolding(crate::specs::Sealed::signer_back))]
    fn write_back(&self, out: &mut Writer<'_>)
        requires { length (signer_back self.now.attributes.now self.now.signature.now) ≤ room_of out.old }
        ensures { Writes out.old out.new (signer_back self.now.attributes.now self.now.signature.now) }
    {
        out.tlv(CONTEXT_0, self.attributes);
        write_signature_algorithm(out);
        out.tlv(OCTET_STRING, self.signature);
    }

    /// Writes it.
    #[tactic(auto, unfolding(crate::specs::Sealed::signer_info_with))]
    pub(crate) fn write(&self, out: &mut Writer<'_>)
        requires { length (signer_octets self.now) ≤ room_of out.old }
        ensures { Writes out.old out.new (signer_octets self.now) }
    {
        out.header(SEQUENCE, self.front_len() + self.back_len());
        self.write_front(out);
        self.write_back(out);
    }
}
