//! What a message is answered: the draft of a certificate of service, or a notice (RFC 3029 8 and 9).
//!
//! What it is for: a server gets the octets of a message, at a moment. [`answer`] makes the reply to them: the draft of the
//! service that the request asks for, or the notice of the first step that refuses it, and the request's
//! transactionIdentifier beside it.
//!
//! What it promises: the reply is the one of `IsReply` in specs/Replies.antt, and [`one_reply`] says that a message has no
//! other. specs/Messages.antt says which octets are a request's message, signed or not, specs/Steps.antt and
//! specs/Failures.antt have the steps that a request passes, in their order, specs/Offices.antt what these look at of the
//! server, and specs/Checks.antt how many signatures are verified for a reply at most.
//!
//! What it stands on: `dv_request`, `dv_cms` and `dv_signed` for what a request says, `dv_svc_document` for its signers,
//! `dv_x509` for the server's own certificate, `dv_svc_possession`, `dv_svc_document` and `dv_svc_pkc` for drafts, `dv_draft`
//! for what they are made of, `dv_path` for trust anchors, `dv_lms` for the count of verifications, `dv_status` for the names
//! of failures, and `dv_time` for moments.
#![tactic(auto)]

mod office;
mod reply;
mod request;
mod signed;
mod signers;
mod steps;

pub use reply::{Reply, answer, one_reply};
