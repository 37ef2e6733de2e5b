//! What a value in a file is.

use dv_request::Service;
use dv_response::CertInfo;

/// What a value in a file is.
#[derive(Clone, Copy, Debug)]
pub enum Shown<'a> {
    /// A request for this service, in signed data or not.
    Request { service: Service, signed: bool },
    /// An error notice, with the least failure bit that is set, counted from 0, where one is.
    Notice(Option<u8>),
    /// A certificate of service.
    Certificate(CertInfo<'a>),
}

/// The content types of the values that are shown (RFC 3029 8, 9).
#[derive(Clone, Copy)]
pub(crate) enum ContentType {
    /// id-ct-DVCSRequestData.
    RequestData,
    /// id-ct-DVCSResponseData.
    ResponseData,
}
