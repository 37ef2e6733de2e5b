//! Requests that are made.

ghost use Rattle.std.specs.Prelude.{◌≡◌, ◌≤◌, ◌<◌, ◌+◌, ◌↔◌, IfOk, IsErrOf, IsTrue, length, option_map, true, false};
ghost use Rattle.std.specs.Option.{option_copied};
ghost use Rattle.dv_schema.specs.Rules.{is_integer};
ghost use Rattle.dv_schema.specs.Schema.{contents as contents_of, spelled_if, spelling};
ghost use Rattle.dv_asn1.specs.Writing.{room_of, Writes};
ghost use Rattle.dv_request.specs.Made.{is_good_nonce, request_of, time_of};
ghost use Rattle.dv_request.specs.Materials.{AreCertificates, data_of, data_overhead, goes_with, octets_in};
ghost use Rattle.dv_request.specs.Types.{dvcs_request, information_fields, nonce as nonce_type, request_fields, request_information, request_time};

use crate::info::NONCE_LIMIT;
use crate::material::Material;
use crate::service::Service;
use dv_asn1::{Writer, header_len};
use dv_cms::{content_header_len, write_content_header};
use dv_time::{Moment, write_generalized};
use std::alloc::Global;
use thiserror::Error;

/// The most octets that a request has.
pub const REQUEST_LIMIT: usize = 262_144;

/// The contents octets of id-ct-DVCSRequestData, 1.2.840.113549.1.9.16.1.7.
pub const REQUEST_DATA_TYPE: [u8; 11] = [42, 134, 72, 134, 247, 13, 1, 9, 16, 1, 7];

const SEQUENCE: u8 = 0x30;

/// Why no request was made.
#[derive(Clone, Copy, Debug, PartialEq, Eq, Error)]
pub enum Make {
    /// The nonce is no INTEGER of at most [`NONCE_LIMIT`] contents octets.
    #[error("the nonce is no integer of 1 to 64 octets in its shortest form")]
    Nonce = 1,
    /// The request would have more than [`REQUEST_LIMIT`] octets.
    #[error("the request would have more than 262144 octets")]
    TooLong = 2,
    /// There was no memory for it.
    #[error("out of memory")]
    Memory = 3,
}

/// A request that is about to be written.
#[derive(Clone, Copy)]
struct Draft<'a> {
    service: Service,
    material: &'a Material<'a>,
    nonce: Option<&'a [u8]>,
    at: Option<Moment>,
    ghost good: { is_good_nonce (option_copied nonce) ≡ true },
    ghost short: { octets_in material.now ≤ 262144 },
}

impl Draft<'_> {
    ghost use Rattle.dv_request.specs.DraftView.{message_from, view_draft, view_head};

    /// How many contents octets the information has.
    fn information_len(&self) -> usize
        ensures octets { result ≡ length (contents_of information_fields (view_head self.now)) }
        ensures few { result ≤ 86 }
    {
        3 + nonce_len(self.nonce) + time_len(self.at)
    }

    fn write_information(&self, out: &mut Writer<'_>)
        requires { length (spelling request_information (view_head self.now)) ≤ room_of out.old }
        ensures { Writes out.old out.new (spelling request_information (view_head self.now)) }
    {
        out.header(SEQUENCE, self.information_len());
        out.number(0x0A, self.service.number() as u64);
        if let Some(octets) = self.nonce {
            out.tlv(0x02, octets);
        }
        if let Some(moment) = self.at {
            out.bytes(&write_generalized(moment));
        }
    }

    /// How many contents octets the DVCSRequest has.
    fn contents_len(&self) -> usize
        ensures octets { result ≡ length (contents_of request_fields (view_draft self.now)) }
        ensures few { result ≤ octets_in self.now.material.now + data_overhead self.now.material.now + 88 }
    {
        2 + self.information_len() + self.material.encoded_len()
    }

    fn encoded_len(&self) -> usize
        ensures octets { result ≡ length (spelling dvcs_request (view_draft self.now)) }
        ensures few { result ≤ octets_in self.now.material.now + data_overhead self.now.material.now + 98 }
    {
        let contents = self.contents_len();
        header_len(contents) + contents
    }

    fn write(&self, out: &mut Writer<'_>)
        requires { length (spelling dvcs_request (view_draft self.now)) ≤ room_of out.old }
        ensures { Writes out.old out.new (spelling dvcs_request (view_draft self.now)) }
    {
        out.header(SEQUENCE, self.contents_len());
        self.write_information(out);
        self.material.write(out);
    }

    /// How many octets the ContentInfo has.
    fn message_len(&self) -> usize
        ensures octets { result ≡ length (message_from self.now) }
        ensures few { result ≤ octets_in self.now.material.now + data_overhead self.now.material.now + 131 }
    {
        let content = self.encoded_len();
        content_header_len(&REQUEST_DATA_TYPE, content) + content
    }

    /// Fills a slice of the ContentInfo's size with it.
    fn fill(&self, into: &mut [u8])
        requires { length into.old ≡ length (message_from self.now) }
        ensures { into.new ≡ message_from self.now }
    {
        let mut out = Writer::new(into);
        self.write_message(&mut out);
    }

    fn write_message(&self, out: &mut Writer<'_>)
        requires { length (message_from self.now) ≤ room_of out.old }
        ensures { Writes out.old out.new (message_from self.now) }
    {
        write_content_header(&REQUEST_DATA_TYPE, self.encoded_len(), out);
        self.write(out);
    }
}

/// The request for a service, with at most a nonce and a moment: the whole ContentInfo of type id-ct-DVCSRequestData
/// (RFC 3029 8), whose DVCSRequest has just these fields.
///
/// It takes one allocation, of the request's size. Where several causes stand together the first of them is answered:
/// [`Make::Nonce`] exactly where the nonce is empty, has more than 64 octets or is not in its shortest form;
/// [`Make::TooLong`] exactly where the request would have more than [`REQUEST_LIMIT`] octets; [`Make::Memory`] for want of
/// memory.
pub fn make_request(
    alloc: Global,
    service: Service,
    material: &Material<'_>,
    nonce: Option<&[u8]>,
    at: Option<Moment>,
) -> Result<Vec<u8>, Make>
    requires agree { IsTrue (goes_with service material.now) }
    requires certificates { AreCertificates material.now }
    ensures request { IfOk result (λ v. v.items ≡ request_of service (data_of material.now) (option_copied nonce.entry) at) }
    ensures nonce { IsErrOf result Make.Nonce ↔ (is_good_nonce (option_copied nonce.entry) ≡ false) }
    ensures too_long { IsErrOf result Make.TooLong
        ↔ ((is_good_nonce (option_copied nonce.entry) ≡ true)
        × (262144 < length (request_of service (data_of material.now) (option_copied nonce.entry) at))) }
    // A message of up to 262,000 octets makes no request that is too long.
    ensures overhead { is_good_nonce (option_copied nonce.entry) ≡ true → octets_in material.now ≤ 262144
        → length (request_of service (data_of material.now) (option_copied nonce.entry) at) ≤ octets_in material.now + data_overhead material.now + 131 }
{
    if !is_good(nonce) {
        return Err(Make::Nonce);
    }
    if !material.is_short() {
        return Err(Make::TooLong);
    }
    let draft = Draft {
        service,
        material,
        nonce,
        at,
    };
    let whole = draft.message_len();
    if whole > REQUEST_LIMIT {
        return Err(Make::TooLong);
    }
    let Ok(mut written) = vec![in alloc; 0u8; whole] else {
        return Err(Make::Memory);
    };
    draft.fill(&mut written);
    Ok(written)
}

/// Whether the nonce, where there is one, is the contents of an INTEGER of at most 64 octets.
fn is_good(nonce: Option<&[u8]>) -> bool
    ensures { result ≡ is_good_nonce (option_copied nonce.entry) }
{
    match nonce {
        None => true,
        Some(octets) => octets.len() <= NONCE_LIMIT && is_shortest(octets),
    }
}

/// Whether these are the contents of an INTEGER (X.690 8.3.2): the fewest octets that say it.
fn is_shortest(octets: &[u8]) -> bool
    ensures { result ≡ is_integer octets.now }
{
    match octets {
        [] => false,
        [_] => true,
        [first, second, ..] => {
            !(*first == 0x00 && *second < 128) && !(*first == 0xFF && *second >= 128)
        }
    }
}

/// How many octets the nonce has, where there is one.
fn nonce_len(nonce: Option<&[u8]>) -> usize
    requires { is_good_nonce (option_copied nonce) ≡ true }
    ensures octets { result ≡ length (spelled_if (spelling nonce_type) (option_copied nonce.entry)) }
    ensures few { result ≤ 66 }
{
    match nonce {
        None => 0,
        Some(octets) => 2 + octets.len(),
    }
}

/// How many octets the moment has, where there is one.
fn time_len(at: Option<Moment>) -> usize
    ensures octets { result ≡ length (spelled_if (spelling request_time) (option_map time_of at)) }
    ensures few { result ≤ 17 }
{
    match at {
        None => 0,
        Some(moment) => write_generalized(moment).len(),
    }
}

#[cfg(test)]
mod tests;
