//! The whole message of a certificate of service.

ghost use Rattle.std.specs.Prelude.{◌≡◌, ◌≤◌, ◌+◌, length};
ghost use Rattle.dv_asn1.specs.Writing.{room_of, Writes};
ghost use Rattle.dv_cert.specs.Sealed.{signed_back, signed_data_with, signed_front};

use crate::info::Info;
use crate::signer::{SignerInfo, write_digest_algorithm};
use dv_asn1::{Writer, value_len};
use dv_names::identifiers::ID_SIGNED_DATA;

const INTEGER: u8 = 0x02;

const OBJECT_IDENTIFIER: u8 = 0x06;

const SEQUENCE: u8 = 0x30;

const SET: u8 = 0x31;

const CONTEXT_0: u8 = 0xA0;

/// The version of a SignedData whose content isn't id-data (RFC 5652 5.1).
const SIGNED_VERSION: u8 = 3;

/// A ContentInfo (RFC 5652 3) with a SignedData: its certificates, one behind another, its content, and its one signer.
#[derive(Clone, Copy)]
pub(crate) struct Message<'a, 'b> {
    pub(crate) certificates: &'a [u8],
    pub(crate) info: Info<'a>,
    pub(crate) signer: SignerInfo<'a, 'b>,
    ghost short: { length certificates.now ≤ 1099511627775 },
}

impl Message<'_, '_> {
    ghost use Rattle.dv_cert.specs.Messages.{info_octets, message_octets, signer_octets};

    /// How many octets the version, the digest algorithms and the content have.
    #[tactic(auto, unfolding(crate::specs::Sealed::signed_front))]
    fn front_len(&self) -> usize
        ensures octets { result ≡ length (signed_front (info_octets self.now.info)) }
        ensures few { result ≤ length self.now.info.before.now + length self.now.info.after.now + 91 }
    {
        18 + self.info.content_len()
    }

    /// How many octets the certificates and the signers have.
    #[tactic(auto, unfolding(crate::specs::Sealed::signed_back))]
    fn back_len(&self) -> usize
        ensures octets { result ≡ length (signed_back self.now.certificates.now (signer_octets self.now.signer)) }
        ensures few { result ≤ length self.now.certificates.now + length self.now.signer.signer.now + length self.now.signer.attributes.now + length self.now.signer.signature.now + 91 }
    {
        value_len(self.certificates.len()) + value_len(self.signer.encoded_len())
    }

    /// How many octets the SignedData has.
    #[tactic(auto, unfolding(crate::specs::Sealed::signed_data_with))]
    fn data_len(&self) -> usize
        ensures octets { result ≡ length (signed_data_with self.now.certificates.now (info_octets self.now.info) (signer_octets self.now.signer)) }
        ensures few { result ≤ length self.now.info.before.now + length self.now.info.after.now + length self.now.certificates.now + length self.now.signer.signer.now + length self.now.signer.attributes.now + length self.now.signer.signature.now + 192 }
    {
        value_len(self.front_len() + self.back_len())
    }

    /// How many octets it has.
    #[tactic(auto, unfolding(crate::specs::Sealed::message_with))]
    pub(crate) fn encoded_len(&self) -> usize
        ensures octets { result ≡ length (message_octets self.now) }
        ensures few { result ≤ length self.now.info.before.now + length self.now.info.after.now + length self.now.certificates.now + length self.now.signer.signer.now + length self.now.signer.attributes.now + length self.now.signer.signature.now + 223 }
    {
        value_len(11 + value_len(self.data_len()))
    }

    /// Writes the version, the digest algorithms and the content.
    #[tactic(auto, unfolding(crate::specs::Sealed::signed_front))]
    fn write_front(&self, out: &mut Writer<'_>)
        requires { length (signed_front (info_octets self.now.info)) ≤ room_of out.old }
        ensures { Writes out.old out.new (signed_front (info_octets self.now.info)) }
    {
        out.tlv(INTEGER, &[SIGNED_VERSION]);
        out.header(SET, 13);
        write_digest_algorithm(out);
        self.info.write_content(out);
    }

    /// Writes the certificates and the signers.
    #[tactic(auto, unfolding(crate::specs::Sealed::signed_back))]
    fn write_back(&self, out: &mut Writer<'_>)
        requires { length (signed_back self.now.certificates.now (signer_octets self.now.signer)) ≤ room_of out.old }
        ensures { Writes out.old out.new (signed_back self.now.certificates.now (signer_octets self.now.signer)) }
    {
        out.tlv(CONTEXT_0, self.certificates);
        out.header(SET, self.signer.encoded_len());
        self.signer.write(out);
    }

    /// Writes the SignedData.
    #[tactic(auto, unfolding(crate::specs::Sealed::signed_data_with))]
    fn write_data(&self, out: &mut Writer<'_>)
        requires { length (signed_data_with self.now.certificates.now (info_octets self.now.info) (signer_octets self.now.signer)) ≤ room_of out.old }
        ensures { Writes out.old out.new (signed_data_with self.now.certificates.now (info_octets self.now.info) (signer_octets self.now.signer)) }
    {
        out.header(SEQUENCE, self.front_len() + self.back_len());
        self.write_front(out);
        self.write_back(out);
    }

    /// Writes it.
    #[tactic(auto, unfolding(crate::specs::Sealed::message_with))]
    fn write(&self, out: &mut Writer<'_>)
        requires { length (message_octets self.now) ≤ room_of out.old }
        ensures { Writes out.old out.new (message_octets self.now) }
    {
        out.header(SEQUENCE, 11 + value_len(self.data_len()));
        out.tlv(OBJECT_IDENTIFIER, &ID_SIGNED_DATA);
        out.header(CONTEXT_0, self.data_len());
        self.write_data(out);
    }

    /// Fills a slice of its size with it.
    pub(crate) fn fill(&self, into: &mut [u8])
        requires { length into.old ≡ length (message_octets self.now) }
        ensures { into.new ≡ message_octets self.now }
    {
        let mut out = Writer::new(into);
        self.write(&mut out);
    }
}
