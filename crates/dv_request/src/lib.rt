//! Requests to a Data Validation and Certification Server (RFC 3029), in the profile of this project.
//!
//! What it is for: a [`Request`] is read from its octets and written again, and [`make_request`] makes the message that
//! asks for a service.
//!
//! What it promises: [`Request::decode`] answers the value that the octets spell, or the first refusal with its place, and
//! takes no memory; what it answers names spans of the octets and copies nothing. [`Request::target`] and
//! [`TargetChain::link`] answer the member at an index, and None exactly past the last one. What [`Request::encode`] wrote
//! decodes to the same request. [`make_request`] makes the spelling of the message with just the fields that it is
//! given, and says exactly when it makes none.
//!
//! The definitions, to be read in this order: `Types` (the table of types), `PartViews`, `TargetView`, `DataView`,
//! `Information`, `InfoView` and `RequestView` (the types of the code as values), `Links` and `Targets` (what
//! kept octets hold), `Made` and `Materials` (the requests that are made).
//!
//! What it stands on: `dv_asn1`, `dv_members`, `dv_time`, `dv_names`, `dv_status` and `dv_cms`, over the definitions of `dv_schema`.
#![tactic(auto)]

mod certificates;
mod data;
mod digest;
mod info;
pub mod laws;
mod make;
mod material;
mod path_input;
mod request;
mod request_time;
mod service;
mod target;
mod token;

pub use data::Data;
pub use info::{NONCE_LIMIT, RequestInfo};
pub use make::{Make, REQUEST_DATA_TYPE, REQUEST_LIMIT, make_request};
pub use material::Material;
pub use path_input::PathInput;
pub use request::Request;
pub use request_time::RequestTime;
pub use service::Service;
pub use target::TargetChain;
pub use token::Token;
