//! What octets of a content type are.

ghost use Rattle.std.specs.Prelude.{◌≡◌, ◌≢◌, ◌<◌, ◌^◌, length, option_map, IfOk, IsOk, MatchOption};
ghost use Rattle.dv_status.specs.Fail.{fail_octets};
ghost use Rattle.dv_show.specs.declared.shown.ContentType.{ContentType as TypeOfContent};
ghost use Rattle.dv_show.specs.declared.shown.Shown.{Shown as Value};
ghost use Rattle.dv_show.specs.Values.{identifier_of, IsContent, IsLeast, type_of};

use crate::shown::{ContentType, Shown};
use dv_asn1::{Der, Why};
use dv_names::identifiers::ID_CT_DVCS_RESPONSE_DATA;
use dv_request::{REQUEST_DATA_TYPE, Request};
use dv_response::Response;
use dv_status::FailBits;

/// How many failure bits there may be (RFC 4210 5.2.3): a failInfo has at most four octets of them.
const FAILURE_BITS: u8 = 32;

/// The content type with this identifier, given by its contents octets; None exactly where there is none.
pub(crate) fn content_type(identifier: &[u8]) -> Option<ContentType>
    ensures { MatchOption result ((t : TypeOfContent) → identifier_of t ≢ identifier.now)
        (λ t. identifier_of t ≡ identifier.now) }
{
    if identifier == REQUEST_DATA_TYPE.as_slice() {
        Some(ContentType::RequestData)
    } else if identifier == ID_CT_DVCS_RESPONSE_DATA.as_slice() {
        Some(ContentType::ResponseData)
    } else {
        None
    }
}

/// What octets of a content type are, in signed data or not; a refusal's place counts from the first of them.
pub(crate) fn content_in<'a>(
    kind: ContentType,
    octets: &'a [u8],
    signed: bool,
) -> Result<Shown<'a>, Der>
    requires { length octets.now < 2 ^ 32 }
    ensures found { IfOk result (λ value. (type_of value ≡ kind) × IsContent value signed octets.now) }
    ensures only { (value : Value) → type_of value ≡ kind → IsContent value signed octets.now → IsOk result }
{
    match kind {
        ContentType::RequestData => request_in(octets, signed),
        ContentType::ResponseData => response_in(octets, signed),
    }
}

/// The request that the octets are.
fn request_in<'a>(octets: &'a [u8], signed: bool) -> Result<Shown<'a>, Der>
    requires { length octets.now < 2 ^ 32 }
    ensures found { IfOk result (λ value. (type_of value ≡ ContentType.RequestData) × IsContent value signed octets.now) }
    ensures only { (value : Value) → type_of value ≡ ContentType.RequestData → IsContent value signed octets.now → IsOk result }
{
    match Request::decode(octets) {
        Ok(request) => Ok(Shown::Request {
            service: request.info.service,
            signed,
        }),
        Err(refusal) => Err(refusal),
    }
}

/// The response that the octets are. A certificate of service that isn't signed is refused for its tag.
fn response_in<'a>(octets: &'a [u8], signed: bool) -> Result<Shown<'a>, Der>
    ensures found { IfOk result (λ value. (type_of value ≡ ContentType.ResponseData) × IsContent value signed octets.now) }
    ensures only { (value : Value) → type_of value ≡ ContentType.ResponseData → IsContent value signed octets.now → IsOk result }
{
    match Response::decode(octets) {
        Ok(Response::Refused(notice)) => Ok(Shown::Notice(least_failure(notice.status.fail))),
        Ok(Response::Certified(info)) => {
            if signed {
                Ok(Shown::Certificate(info))
            } else {
                Err(Der::new(0, Why::Tag))
            }
        }
        Err(refusal) => Err(refusal),
    }
}

/// The least failure bit that is set, or None where none is.
fn least_failure(fail: Option<FailBits>) -> Option<u8>
    ensures { IsLeast (option_map fail_octets fail) result }
{
    let fail = fail?;
    for bit in 0..FAILURE_BITS {
        if fail.has(bit) {
            return Some(bit);
        }
    }
    None
}
