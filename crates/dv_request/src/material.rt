//! What a request that is made is about.

ghost use Rattle.std.specs.Prelude.{◌≡◌, ◌≤◌, ◌+◌, ◌↔◌, IsTrue, length};
ghost use Rattle.dv_schema.specs.Schema.{spelling};
ghost use Rattle.dv_asn1.specs.Writing.{room_of, Writes};
ghost use Rattle.dv_request.specs.Materials.{data_of, data_overhead, octets_in};
ghost use Rattle.dv_request.specs.Types.{data_of_request};

use crate::certificates::{are_short, certs_len, write_certs};
use crate::digest::{digest_len, write_digest};
use crate::make::REQUEST_LIMIT;
use dv_asn1::{Writer, header_len};

/// What a request is about.
#[derive(Clone, Copy, Debug)]
pub enum Material<'a> {
    /// The octets themselves, for cpd and vsd.
    Octets(&'a [u8]),
    /// Their SHA-256 digest, for ccpd.
    Digest(&'a [u8; 32]),
    /// Certificates, each with the tag of a SEQUENCE, for cpkc: the target, and then its chain.
    Certificates(&'a [Vec<u8>]),
}

impl Material<'_> {
    /// Whether it has no more octets than a request may have.
    pub(crate) fn is_short(&self) -> bool
        ensures { IsTrue result ↔ (octets_in self.now ≤ 262144) }
    {
        match self {
            Material::Octets(octets) => octets.len() <= REQUEST_LIMIT,
            Material::Digest(_) => true,
            Material::Certificates(certificates) => are_short(certificates),
        }
    }

    /// How many octets the data have.
    pub(crate) fn encoded_len(&self) -> usize
        requires { octets_in self.now ≤ 262144 }
        ensures octets { result ≡ length (spelling data_of_request (data_of self.now)) }
        ensures few { result ≤ octets_in self.now + data_overhead self.now }
    {
        match self {
            Material::Octets(octets) => header_len(octets.len()) + octets.len(),
            Material::Digest(digest) => digest_len(digest),
            Material::Certificates(certificates) => certs_len(certificates),
        }
    }

    /// Writes the data.
    pub(crate) fn write(&self, out: &mut Writer<'_>)
        requires short { octets_in self.now ≤ 262144 }
        requires room { length (spelling data_of_request (data_of self.now)) ≤ room_of out.old }
        ensures { Writes out.old out.new (spelling data_of_request (data_of self.now)) }
    {
        match self {
            Material::Octets(octets) => out.tlv(0x04, octets),
            Material::Digest(digest) => write_digest(digest, out),
            Material::Certificates(certificates) => write_certs(certificates, out),
        }
    }
}
