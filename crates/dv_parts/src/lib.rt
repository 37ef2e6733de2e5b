//! What the services of a server share (RFC 3029 2).
//!
//! What it is for: each service looks at what a request hands in, and then makes the draft of a certificate of service from what it found:
//! [`drafted`] makes it. [`imprint_by_server`] is the imprint that a server makes of octets, and [`validation_moment`] the moment for
//! which it validates.
//!
//! What it promises: a draft is exactly that of the definition, `draft_with` in specs/Drafts.antt; `IsAnswer` in specs/Answered.antt says what
//! a notice and a draft answer.
//!
//! What it stands on: `dv_draft` and `dv_request`, and the digests of `sha2`.
#![tactic(auto)]

mod draft;
mod imprint;
mod moment;

pub use draft::{Found, copied, drafted};
pub use imprint::imprint_by_server;
pub use moment::validation_moment;
