//! The entries of targets in a certificate of service.

ghost use Rattle.std.specs.Prelude.{◌≡◌, ◌≤◌, ◌<◌, ◌^◌, length, sum_by, true};
ghost use Rattle.std.specs.List.{flat_map};
ghost use Rattle.dv_schema.specs.Schema.{contents as contents_of, spelled_if, spelling, sequence_of};
ghost use Rattle.dv_schema.specs.Fits.{Fits};
ghost use Rattle.dv_asn1.specs.Writing.{room_of, Writes};
ghost use Rattle.dv_status.specs.Types.{status_info};
ghost use Rattle.dv_status.specs.Views.{view_status};
ghost use Rattle.dv_request.specs.PartViews.{view_path, view_token};
ghost use Rattle.dv_request.specs.TargetView.{view_target};
ghost use Rattle.dv_request.specs.Types.{path_input, target_chain, target_fields, token as token_type};
ghost use Rattle.dv_svc_pkc.specs.Entries.{entry_with, granted_if, tokens_with};
ghost use Rattle.dv_svc_pkc.specs.Slices.{octets_if};

use crate::input::{input_len, write_input};
use dv_asn1::{Writer, value_len};
use dv_request::{TargetChain, Token};
use dv_status::StatusInfo;
use dv_status::failure::SIGNER_NOT_TRUSTED;

const SEQUENCE: u8 = 0x30;

/// The tag of a status as a token (RFC 3029 7.5).
const STATUS: u8 = 0xA2;

/// The status granted (RFC 4210 5.2.3).
const GRANTED: u8 = 0;

/// The status rejection.
const REJECTION: u8 = 2;

/// What validation found of a target: the certificates of its path above it, each as its whole octets under tag A0, or that
/// there is no path.
#[derive(Debug, Drop)]
pub(crate) struct Finding<'a> {
    pub(crate) target: TargetChain<'a>,
    pub(crate) above: Option<Vec<&'a [u8]>>,
    ghost spelled: { ∥ Fits target_chain 30 (entry_with (view_target target) (octets_if above)) ∥₁ },
    ghost short: { length (spelling target_chain (entry_with (view_target target) (octets_if above))) < 2 ^ 40 },
}

impl Finding<'_> {
    ghost use Rattle.dv_svc_pkc.specs.Validated.{entry_in};

    /// How many octets the entry has.
    pub(crate) fn encoded_len(&self) -> usize
        ensures octets { result ≡ length (spelling target_chain (entry_in self.now)) }
        ensures few { result < 2 ^ 40 }
    {
        value_len(self.contents_len())
    }

    /// Writes the entry: the target as it stands, its chain, and its path input.
    pub(crate) fn write(&self, out: &mut Writer<'_>)
        requires { length (spelling target_chain (entry_in self.now)) ≤ room_of out.old }
        ensures { Writes out.old out.new (spelling target_chain (entry_in self.now)) }
    {
        out.header(SEQUENCE, self.contents_len());
        write_token(&self.target.target, out);
        out.header(SEQUENCE, self.chain_len());
        self.write_chain(out);
        if let Some(input) = &self.target.input {
            write_input(input, out);
        }
    }

    /// How many contents octets the entry has.
    fn contents_len(&self) -> usize
        ensures { result ≡ length (contents_of target_fields (entry_in self.now)) }
    {
        let input = match &self.target.input {
            None => 0,
            Some(input) => input_len(input),
        };
        token_len(&self.target.target) + value_len(self.chain_len()) + input
    }

    /// How many contents octets the chain of the entry has.
    fn chain_len(&self) -> usize
        ensures { result ≡ length (contents_of (sequence_of true token_type) (tokens_with (octets_if self.now.above))) }
    {
        match &self.above {
            None => status_len(false),
            Some(above) => octets_len(above) + status_len(true),
        }
    }

    /// Writes the contents of the chain of the entry: the certificates above the target, and its status.
    fn write_chain(&self, out: &mut Writer<'_>)
        requires { length (contents_of (sequence_of true token_type) (tokens_with (octets_if self.now.above))) ≤ room_of out.old }
        ensures { Writes out.old out.new (contents_of (sequence_of true token_type) (tokens_with (octets_if self.now.above))) }
    {
        match &self.above {
            None => write_status(false, out),
            Some(above) => {
                write_all(above, out);
                write_status(true, out);
            }
        }
    }
}

/// The status of a target that is granted, or of one that isn't.
fn status_of(granted: bool) -> StatusInfo<'static>
    ensures { view_status result ≡ granted_if granted }
{
    if granted {
        StatusInfo::new(GRANTED, None)
    } else {
        StatusInfo::new(REJECTION, Some(SIGNER_NOT_TRUSTED))
    }
}

/// How many octets such a status has as a token.
fn status_len(granted: bool) -> usize
    ensures { result ≡ length (spelling (status_info 162) (granted_if granted)) }
{
    status_of(granted).encoded_len()
}

/// Writes such a status as a token.
fn write_status(granted: bool, out: &mut Writer<'_>)
    requires { length (spelling (status_info 162) (granted_if granted)) ≤ room_of out.old }
    ensures { Writes out.old out.new (spelling (status_info 162) (granted_if granted)) }
{
    status_of(granted).write_under(STATUS, out);
}

/// How many octets a token has.
fn token_len(token: &Token<'_>) -> usize
    ensures { result ≡ length (spelling token_type (view_token token.now)) }
{
    match token {
        Token::Certificate(octets) | Token::Other(octets) => octets.len(),
        Token::Status(status) => status.encoded_len(),
    }
}

/// Writes a token.
fn write_token(token: &Token<'_>, out: &mut Writer<'_>)
    requires { length (spelling token_type (view_token token.now)) ≤ room_of out.old }
    ensures { Writes out.old out.new (spelling token_type (view_token token.now)) }
{
    match token {
        Token::Certificate(octets) | Token::Other(octets) => out.bytes(octets),
        Token::Status(status) => status.write_under(STATUS, out),
    }
}

/// How many octets the slices have, one behind another.
fn octets_len(slices: &[&[u8]]) -> usize
    requires { sum_by (λ s. length s.now) slices.now < 2 ^ 40 }
    ensures { result ≡ sum_by (λ s. length s.now) slices.now }
{
    slices.iter().map(|octets| octets.len()).sum()
}

/// Writes the slices, one behind another.
fn write_all(slices: &[&[u8]], out: &mut Writer<'_>)
    requires { length (flat_map (λ s. s.now) slices.now) ≤ room_of out.old }
    ensures { Writes out.old out.new (flat_map (λ s. s.now) slices.now) }
{
    for octets in slices {
        out.bytes(octets);
    }
}
