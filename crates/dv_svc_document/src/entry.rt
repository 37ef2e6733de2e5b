//! The entries of signers in a certificate of service.

ghost use Rattle.std.specs.Prelude.{◌≡◌, ◌≤◌, length, sum_by};
ghost use Rattle.std.specs.List.{flat_map};
ghost use Rattle.std.specs.Option.{ForSome, option_copied};
ghost use Rattle.dv_schema.specs.Schema.{contents as contents_of, spelling};
ghost use Rattle.dv_schema.specs.Fits.{Fits};
ghost use Rattle.dv_schema.specs.Tlv.{tlv};
ghost use Rattle.dv_asn1.specs.Writing.{room_of, Writes};
ghost use Rattle.dv_status.specs.Types.{status_info};
ghost use Rattle.dv_status.specs.Views.{view_status};
ghost use Rattle.dv_request.specs.Made.{retagged};
ghost use Rattle.dv_request.specs.Types.{target_chain, target_fields};
ghost use Rattle.dv_path.specs.Rows.{octets_of};
ghost use Rattle.dv_svc_document.specs.Entries.{AreShort, chain_with, entry_with, status_with};

use dv_asn1::{Writer, value_len};
use dv_status::StatusInfo;

const SEQUENCE: u8 = 0x30;

/// The tag of a certificate as a token (RFC 3029 7.5).
const CERTIFICATE: u8 = 0xA0;

/// The tag of a status as a token.
const STATUS: u8 = 0xA2;

/// The status granted (RFC 4210 5.2.3).
const GRANTED: u8 = 0;

/// The status rejection.
const REJECTION: u8 = 2;

/// What the certificate of service says of a signer: the certificate that it names, those of its path above that one, each as its
/// whole octets under tag 30, and its failure bit.
#[derive(Debug, Drop)]
pub(crate) struct Entry<'a> {
    pub(crate) certificate: Option<&'a [u8]>,
    pub(crate) above: Vec<&'a [u8]>,
    pub(crate) bit: Option<u8>,
    ghost known: { ForSome bit (λ b. b ≤ 26) },
    ghost short: { AreShort (option_copied certificate) (octets_of above.items) },
    ghost spelled: { ∥ Fits target_chain 30 (entry_with (option_copied certificate) (octets_of above.items) bit) ∥₁ },
}

impl Entry<'_> {
    ghost use Rattle.dv_svc_document.specs.Kept.{entry_in};

    /// How many octets the entry has.
    pub(crate) fn encoded_len(&self) -> usize
        ensures octets { result ≡ length (spelling target_chain (entry_in self.now)) }
        ensures few { result ≤ 49216 }
    {
        value_len(self.contents_len())
    }

    /// Writes the entry.
    pub(crate) fn write(&self, out: &mut Writer<'_>)
        requires { length (spelling target_chain (entry_in self.now)) ≤ room_of out.old }
        ensures { Writes out.old out.new (spelling target_chain (entry_in self.now)) }
    {
        out.header(SEQUENCE, self.contents_len());
        match self.certificate {
            None => write_status(self.bit, out),
            Some(octets) => {
                write_certificate(octets, out);
                self.write_chain(out);
            }
        }
    }

    /// How many contents octets the entry has.
    fn contents_len(&self) -> usize
        ensures octets { result ≡ length (contents_of target_fields (entry_in self.now)) }
        ensures few { result ≤ 49206 }
    {
        match self.certificate {
            None => status_len(self.bit),
            Some(octets) => octets.len() + value_len(self.chain_len()),
        }
    }

    /// How many contents octets the chain has: the certificates above, and the status.
    fn chain_len(&self) -> usize
        ensures octets { result ≡ length (chain_with (octets_of self.now.above.items) self.now.bit) }
        ensures few { result ≤ 41004 }
    {
        octets_len(&self.above) + status_len(self.bit)
    }

    /// Writes the chain.
    fn write_chain(&self, out: &mut Writer<'_>)
        requires { length (tlv 48 (chain_with (octets_of self.now.above.items) self.now.bit)) ≤ room_of out.old }
        ensures { Writes out.old out.new (tlv 48 (chain_with (octets_of self.now.above.items) self.now.bit)) }
    {
        out.header(SEQUENCE, self.chain_len());
        write_certificates(&self.above, out);
        write_status(self.bit, out);
    }
}

/// The status of a signer with this failure bit, or of one with none.
fn status_of(bit: Option<u8>) -> StatusInfo<'static>
    requires { ForSome bit (λ b. b ≤ 26) }
    ensures { view_status result ≡ status_with bit }
{
    match bit {
        None => StatusInfo::new(GRANTED, None),
        Some(_) => StatusInfo::new(REJECTION, bit),
    }
}

/// How many octets such a status has as a token.
fn status_len(bit: Option<u8>) -> usize
    requires { ForSome bit (λ b. b ≤ 26) }
    ensures octets { result ≡ length (spelling (status_info 162) (status_with bit)) }
    ensures few { result ≤ 44 }
{
    status_of(bit).encoded_len()
}

/// Writes such a status as a token.
fn write_status(bit: Option<u8>, out: &mut Writer<'_>)
    requires bit { ForSome bit (λ b. b ≤ 26) }
    requires room { length (spelling (status_info 162) (status_with bit)) ≤ room_of out.old }
    ensures { Writes out.old out.new (spelling (status_info 162) (status_with bit)) }
{
    status_of(bit).write_under(STATUS, out);
}

/// How many octets the certificates have, one behind another.
fn octets_len(certificates: &[&[u8]]) -> usize
    requires { sum_by (λ s. length s.now) certificates.now ≤ 40960 }
    ensures { result ≡ sum_by (λ s. length s.now) certificates.now }
{
    certificates.iter().map(|octets| octets.len()).sum()
}

/// Writes the certificates as tokens, one behind another.
fn write_certificates(certificates: &[&[u8]], out: &mut Writer<'_>)
    requires { length (flat_map (λ s. retagged 160 s.now) certificates.now) ≤ room_of out.old }
    ensures { Writes out.old out.new (flat_map (λ s. retagged 160 s.now) certificates.now) }
{
    for octets in certificates {
        write_certificate(octets, out);
    }
}

/// Writes a certificate as a token: under its tag, in place of that of a SEQUENCE.
fn write_certificate(octets: &[u8], out: &mut Writer<'_>)
    requires { length (retagged 160 octets.now) ≤ room_of out.old }
    ensures { Writes out.old out.new (retagged 160 octets.now) }
{
    match octets {
        [] => {}
        [_, contents @ ..] => {
            out.bytes(&[CERTIFICATE]);
            out.bytes(contents);
        }
    }
}
