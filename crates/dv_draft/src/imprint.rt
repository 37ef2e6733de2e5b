//! The imprint of a draft.

ghost use Rattle.std.specs.Prelude.{◌≡◌, ◌≤◌, length};
ghost use Rattle.dv_schema.specs.Schema.{contents as contents_of, spelling};
ghost use Rattle.dv_asn1.specs.Writing.{room_of, Writes};
ghost use Rattle.dv_names.specs.Digest.{length_of};
ghost use Rattle.dv_names.specs.Types.{algorithm_fields, digest_fields};
ghost use Rattle.dv_draft.specs.Types.{imprint};

use dv_asn1::{Octets, Writer};
use dv_names::DigestKind;
use dv_names::identifiers::{SHA_256, SHA_384, SHA_512};

const OCTET_STRING: u8 = 0x04;

const OBJECT_IDENTIFIER: u8 = 0x06;

const SEQUENCE: u8 = 0x30;

/// The value NULL (X.690 8.8).
const NULL: [u8; 2] = [0x05, 0x00];

/// What a certificate of service binds: a digest, and the algorithm that made it (a DigestInfo, RFC 8017 9.2).
#[derive(Debug, Drop)]
pub struct Imprint {
    pub kind: DigestKind,
    /// Whether the algorithm has the parameters NULL; else it has none.
    pub with_null: bool,
    pub digest: Octets,
    ghost sized: { length digest ≡ length_of kind },
}

impl Imprint {
    ghost use Rattle.dv_draft.specs.Parts.{identifier_of, view_imprint};

    /// How many octets the DigestInfo has, at most 83.
    pub fn encoded_len(&self) -> usize
        ensures octets { result ≡ length (spelling imprint (view_imprint self.now)) }
        ensures few { result ≤ 83 }
    {
        2 + self.contents_len()
    }

    /// Writes the DigestInfo.
    pub fn write(&self, out: &mut Writer<'_>)
        requires { length (spelling imprint (view_imprint self.now)) ≤ room_of out.old }
        ensures { Writes out.old out.new (spelling imprint (view_imprint self.now)) }
    {
        out.header(SEQUENCE, self.contents_len());
        out.header(SEQUENCE, self.algorithm_len());
        out.tlv(OBJECT_IDENTIFIER, &self.identifier());
        if self.with_null {
            out.bytes(&NULL);
        }
        out.tlv(OCTET_STRING, self.digest.as_slice());
    }

    /// How many contents octets the DigestInfo has.
    fn contents_len(&self) -> usize
        ensures octets { result ≡ length (contents_of digest_fields (view_imprint self.now)) }
        ensures few { result ≤ 81 }
    {
        2 + self.algorithm_len() + 2 + self.digest.as_slice().len()
    }

    /// How many contents octets the AlgorithmIdentifier has.
    fn algorithm_len(&self) -> usize
        ensures octets { result ≡ length (contents_of algorithm_fields (view_imprint self.now).0) }
        ensures few { result ≤ 13 }
    {
        if self.with_null { 13 } else { 11 }
    }

    /// The contents octets of the identifier of the algorithm.
    fn identifier(&self) -> [u8; 9]
        ensures { result ≡ identifier_of self.now.kind }
    {
        match self.kind {
            DigestKind::Sha256 => SHA_256,
            DigestKind::Sha384 => SHA_384,
            DigestKind::Sha512 => SHA_512,
        }
    }
}
