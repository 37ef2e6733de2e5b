//! What a serving run makes of its input: a stream is split into requests, and each request gets a certificate of service or a notice.
//!
//! What it is for: a server reads octets in pieces, which end anywhere. A [`Framer`] makes requests of them: SEQUENCE
//! values of DER (X.690), one after another, each of at most [`REQUEST_LIMIT`] octets. [`header`] tells by the first
//! octets how long a request is, before it is there. [`issue_one`] makes what is sent for one, and reserves the record of
//! a draft before its certificate is signed. [`serve`] reads, asks the clock at each request, and puts what the request gets,
//! until the run ends by an [`End`].
//!
//! What it promises: the requests that a framer gives are those of the stream, each once, in order and whole, and no
//! others. `Requests` in specs/Requests.antt says what the requests of a stream are, [`one_split`] that a stream has no
//! other ones, and [`any_pieces`] that it doesn't matter how the stream is cut. Where octets begin no request the
//! stream stops, and its place is told. A framer keeps fewer octets than a request may have, and none after a stop;
//! want of memory leaves it as it was. What [`issue_one`] gives is that of `IsGiven` in specs/Issuing.antt, by the reply
//! of `dv_answer` and by the register. A run of [`serve`] is one of `Serves` in specs/Serving.antt: the requests of the
//! stream are answered in order, each at the second that the clock told for it and from the records that the register had
//! then; what is sent at each moment is a front of these answers; and each end says what was told, reserved and sent by
//! then. A fault is answered only where its count rose. The register is safe at every moment of the run. [`laws`] says what
//! calls add to what is sent.
//!
//! What it stands on: `dv_answer` for the reply to a message, `dv_draft` for drafts and their records, `dv_path` for trust
//! anchors, `dv_cert` for certificates of service and notices, `dv_status` for the names of failures, `dv_register` and
//! `dv_lms` for the register and its key, `dv_time` for moments, and `dv_outside` for the input, the clock, the file and the
//! output.
#![tactic(auto)]

mod framer;
mod front;
mod issuing;
pub mod laws;
mod serving;

pub use framer::{Fed, Framer, any_pieces, one_split};
pub use front::{Front, REQUEST_LIMIT, header, one_answer};
pub use issuing::{Desk, Issued, issue_one};
pub use serving::{End, serve};
