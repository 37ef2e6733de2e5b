//! The DVCSCertInfo in a message, by its parts.

ghost use Rattle.std.specs.Prelude.{◌≡◌, ◌≤◌, ◌+◌, ◌∷◌, ◌++◌, length};
ghost use Rattle.sha2.specs.Sha256.{sha256};
ghost use Rattle.dv_schema.specs.Tlv.{integer_octets, length_octets, tlv};
ghost use Rattle.dv_asn1.specs.Writing.{room_of, Writes};
ghost use Rattle.dv_names.specs.declared.identifiers.TheConstants.{ID_CT_DVCS_RESPONSE_DATA};
ghost use Rattle.dv_cert.specs.Sealed.{content_of};

use dv_asn1::{Writer, header_len, number_len, value_len};
use dv_names::identifiers::ID_CT_DVCS_RESPONSE_DATA;
use sha2::{Digest, Sha256};

const INTEGER: u8 = 0x02;

const OCTET_STRING: u8 = 0x04;

const OBJECT_IDENTIFIER: u8 = 0x06;

const SEQUENCE: u8 = 0x30;

const CONTEXT_0: u8 = 0xA0;

/// A DVCSCertInfo (RFC 3029 9.1): the octets before its serial number, this, and the octets behind it.
#[derive(Clone, Copy)]
pub(crate) struct Info<'a> {
    pub(crate) before: &'a [u8],
    pub(crate) serial: u64,
    pub(crate) after: &'a [u8],
    ghost before_short: { length before.now ≤ 1099511627775 },
    ghost after_short: { length after.now ≤ 1099511627775 },
}

impl Info<'_> {
    ghost use Rattle.dv_cert.specs.Messages.{info_octets};

    /// How many contents octets it has.
    fn contents_len(&self) -> usize
        ensures octets { result ≡ length (self.now.before.now ++ (tlv 2 (integer_octets self.now.serial) ++ self.now.after.now)) }
        ensures few { result ≤ length self.now.before.now + length self.now.after.now + 20 }
    {
        self.before.len() + value_len(number_len(self.serial)) + self.after.len()
    }

    /// How many octets it has.
    #[tactic(auto, unfolding(crate::specs::Sealed::info_of))]
    fn encoded_len(&self) -> usize
        ensures octets { result ≡ length (info_octets self.now) }
        ensures few { result ≤ length self.now.before.now + length self.now.after.now + 30 }
    {
        value_len(self.contents_len())
    }

    /// Writes it.
    #[tactic(auto, unfolding(crate::specs::Sealed::info_of))]
    fn write(&self, out: &mut Writer<'_>)
        requires { length (info_octets self.now) ≤ room_of out.old }
        ensures { Writes out.old out.new (info_octets self.now) }
    {
        out.header(SEQUENCE, self.contents_len());
        out.bytes(self.before);
        out.number(INTEGER, self.serial);
        out.bytes(self.after);
    }

    /// How many contents octets the EncapsulatedContentInfo around it has.
    fn content_contents_len(&self) -> usize
        ensures octets { result ≡ length (tlv 6 ID_CT_DVCS_RESPONSE_DATA ++ tlv 160 (tlv 4 (info_octets self.now))) }
        ensures few { result ≤ length self.now.before.now + length self.now.after.now + 63 }
    {
        13 + value_len(value_len(self.encoded_len()))
    }

    /// How many octets the EncapsulatedContentInfo around it has.
    #[tactic(auto, unfolding(crate::specs::Sealed::content_of))]
    pub(crate) fn content_len(&self) -> usize
        ensures octets { result ≡ length (content_of (info_octets self.now)) }
        ensures few { result ≤ length self.now.before.now + length self.now.after.now + 73 }
    {
        value_len(self.content_contents_len())
    }

    /// Writes it in an EncapsulatedContentInfo (RFC 5652 5.2).
    #[tactic(auto, unfolding(crate::specs::Sealed::content_of))]
    pub(crate) fn write_content(&self, out: &mut Writer<'_>)
        requires { length (content_of (info_octets self.now)) ≤ room_of out.old }
        ensures { Writes out.old out.new (content_of (info_octets self.now)) }
    {
        out.header(SEQUENCE, self.content_contents_len());
        out.tlv(OBJECT_IDENTIFIER, &ID_CT_DVCS_RESPONSE_DATA);
        out.header(CONTEXT_0, value_len(self.encoded_len()));
        out.header(OCTET_STRING, self.encoded_len());
        self.write(out);
    }

    /// Its SHA-256 digest. Nothing is copied but the header and the serial number.
    #[tactic(auto, unfolding(crate::specs::Sealed::info_of))]
    pub(crate) fn digest(&self) -> [u8; 32]
        ensures { result ≡ sha256 (info_octets self.now) }
    {
        let contents = self.contents_len();
        let mut header = [0; 10];
        let header = &mut header[..header_len(contents)];
        write_header(header, contents);
        let mut number = [0; 11];
        let number = &mut number[..value_len(number_len(self.serial))];
        write_number(number, self.serial);
        let mut hasher = Sha256::new();
        hasher.update(&*header);
        hasher.update(self.before);
        hasher.update(&*number);
        hasher.update(self.after);
        hasher.finalize()
    }
}

/// Fills a slice with the header of a SEQUENCE whose contents have this many octets.
fn write_header(into: &mut [u8], contents: usize)
    requires { length into.old ≡ length (48 ∷ length_octets contents) }
    ensures { into.new ≡ 48 ∷ length_octets contents }
{
    let mut out = Writer::new(into);
    out.header(SEQUENCE, contents);
}

/// Fills a slice with an INTEGER.
fn write_number(into: &mut [u8], value: u64)
    requires { length into.old ≡ length (tlv 2 (integer_octets value)) }
    ensures { into.new ≡ tlv 2 (integer_octets value) }
{
    let mut out = Writer::new(into);
    out.number(INTEGER, value);
}
