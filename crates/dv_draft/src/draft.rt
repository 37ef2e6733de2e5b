//! Drafts, and what a request is answered.

ghost use Rattle.std.specs.Prelude.{◌≡◌, ◌+◌, ◌<◌, ◌≤◌, ◌^◌, ℕ, length, option_map};
ghost use Rattle.std.specs.Option.{option_copied};
ghost use Rattle.dv_schema.specs.Schema.{contents as contents_of, spelled_if, spelling};
ghost use Rattle.dv_schema.specs.Tlv.{tlv};
ghost use Rattle.dv_schema.specs.Fits.{Fits};
ghost use Rattle.dv_asn1.specs.Writing.{room_of, Writes};
ghost use Rattle.dv_draft.specs.CertInfo.{after_serial, before_serial};
ghost use Rattle.dv_draft.specs.Parts.{draft_of, view_status};
ghost use Rattle.dv_draft.specs.Types.{draft, draft_fields, plain_status};

use crate::imprint::Imprint;
use crate::service_status::Status;
use dv_asn1::{Octets, Writer, header_len};
use dv_time::{Moment, write_generalized};

const SEQUENCE: u8 = 0x30;

/// The tag of the policy.
const POLICY: u8 = 0xA1;

/// The tag of the signers of the request.
const REQ_SIGNATURE: u8 = 0xA2;

/// The tag of the targets.
const CERTS: u8 = 0xA3;

/// How many octets a GeneralizedTime has.
const TIME_LEN: usize = 17;

/// All of a DVCSCertInfo (RFC 3029 9.1) but its serial number.
#[derive(Debug, Drop)]
pub struct Draft {
    /// The whole value of the request's information.
    pub info: Octets,
    pub imprint: Imprint,
    pub time: Moment,
    pub status: Option<Status>,
    /// The contents octets of a PolicyInformation.
    pub policy: Option<Octets>,
    /// The contents octets of the signers of the request.
    pub req_signature: Option<Octets>,
    /// The contents octets of targets with their chains, at least one.
    pub certs: Option<Octets>,
    ghost spelled: { ∥ Fits draft 32 (draft_of info imprint time status policy req_signature certs) ∥₁ },
    ghost short: { length (spelling draft (draft_of info imprint time status policy req_signature certs)) < 2 ^ 63 },
}

impl Draft {
    ghost use Rattle.dv_draft.specs.Views.{view_draft};

    /// How many octets stand before the serial number.
    pub fn before_serial_len(&self) -> usize
        ensures { result ≡ length (before_serial (view_draft self.now)) }
    {
        self.info.as_slice().len() + self.imprint.encoded_len()
    }

    /// Writes what stands before the serial number: the request's information, and the imprint.
    pub fn write_before_serial(&self, out: &mut Writer<'_>)
        requires { length (before_serial (view_draft self.now)) ≤ room_of out.old }
        ensures { Writes out.old out.new (before_serial (view_draft self.now)) }
    {
        out.bytes(self.info.as_slice());
        self.imprint.write(out);
    }

    /// How many octets stand behind the serial number.
    pub fn after_serial_len(&self) -> usize
        ensures { result ≡ length (after_serial (view_draft self.now)) }
    {
        TIME_LEN
            + status_len(self.status)
            + part_len(self.policy.as_ref())
            + part_len(self.req_signature.as_ref())
            + part_len(self.certs.as_ref())
    }

    /// Writes what stands behind the serial number: the time, the status, the policy, the signers and the targets.
    pub fn write_after_serial(&self, out: &mut Writer<'_>)
        requires { length (after_serial (view_draft self.now)) ≤ room_of out.old }
        ensures { Writes out.old out.new (after_serial (view_draft self.now)) }
    {
        out.bytes(&write_generalized(self.time));
        write_status(self.status, out);
        write_part(POLICY, self.policy.as_ref(), out);
        write_part(REQ_SIGNATURE, self.req_signature.as_ref(), out);
        write_part(CERTS, self.certs.as_ref(), out);
    }

    /// How many octets all fields have.
    pub fn fields_len(&self) -> usize
        ensures octets { result ≡ length (contents_of draft_fields (view_draft self.now)) }
        ensures parts { result ≡ length (before_serial (view_draft self.now)) + length (after_serial (view_draft self.now)) }
    {
        self.before_serial_len() + self.after_serial_len()
    }

    /// How many octets the draft has in its record.
    pub fn encoded_len(&self) -> usize
        ensures octets { result ≡ length (spelling draft (view_draft self.now)) }
        ensures short { result < 2 ^ 63 }
    {
        let fields = self.fields_len();
        header_len(fields) + fields
    }

    /// Writes the draft as its record has it.
    pub fn write(&self, out: &mut Writer<'_>)
        requires { length (spelling draft (view_draft self.now)) ≤ room_of out.old }
        ensures { Writes out.old out.new (spelling draft (view_draft self.now)) }
    {
        out.header(SEQUENCE, self.fields_len());
        self.write_before_serial(out);
        self.write_after_serial(out);
    }
}

/// How many octets a status has, where there is one.
fn status_len(status: Option<Status>) -> usize
    ensures { result ≡ length (spelled_if (spelling plain_status) (option_map view_status status)) }
{
    match status {
        None => 0,
        Some(status) => status.encoded_len(),
    }
}

/// Writes a status, where there is one.
fn write_status(status: Option<Status>, out: &mut Writer<'_>)
    requires { length (spelled_if (spelling plain_status) (option_map view_status status)) ≤ room_of out.old }
    ensures { Writes out.old out.new (spelled_if (spelling plain_status) (option_map view_status status)) }
{
    if let Some(status) = status {
        status.write(out);
    }
}

/// How many octets a part has under a tag, where there is one.
fn part_len(part: Option<&Octets>) -> usize
    requires { length (spelled_if (tlv 0) (option_copied part)) < 2 ^ 63 }
    ensures { (tag : ℕ) → result ≡ length (spelled_if (tlv tag) (option_copied part.entry)) }
{
    match part {
        None => 0,
        Some(contents) => {
            let contents = contents.as_slice().len();
            header_len(contents) + contents
        }
    }
}

/// Writes the contents octets of a part under its tag, where there is one.
fn write_part(tag: u8, part: Option<&Octets>, out: &mut Writer<'_>)
    requires { length (spelled_if (tlv tag) (option_copied part)) ≤ room_of out.old }
    ensures { Writes out.old out.new (spelled_if (tlv tag) (option_copied part.entry)) }
{
    if let Some(contents) = part {
        out.tlv(tag, contents.as_slice());
    }
}

/// What a request is answered.
#[derive(Debug, Drop)]
pub enum Answer {
    /// The draft of a certificate.
    Draft(Draft),
    /// A notice with this failure bit (RFC 4210 5.2.3), counted from 0.
    Notice { bit: u8 },
}
