//! The work of the commands on a register: making it, serving requests from it, and putting one of its certificates again.
//!
//! What it is for: [`init`] makes the register of a key in an empty file, adds record 0 for the key's own certificate, and puts
//! that certificate. [`reissue`] opens a register and puts the certificate of the record with a serial number again, octet for
//! octet. [`serve_register`] opens a register and serves the requests of a stream. They take values; the words of a command are
//! read elsewhere.
//!
//! What it promises: what each answers, what is sent then and which list the register has is said in specs/Answers.antt and
//! specs/Serving.antt, by cases on the answer. A run of each is a life of the register, at whatever moment it ends: [`laws`] says so, and so what
//! `dv_register` promises over any lives holds of these runs.
//!
//! What it stands on: `dv_session` for the serving loop, `dv_register` for the register and its key, `dv_draft` for what its records say, `dv_x509` and `dv_cert`
//! for the octets of certificates and the rule of what may leave, `dv_outside` for the file and the output, and `thiserror`.
#![tactic(auto)]

mod certificate;
mod initializing;
pub mod laws;
mod refusals;
mod reissuing;
mod serving;

pub use initializing::init;
pub use refusals::{Init, Reissue};
pub use reissuing::reissue;
pub use serving::{NotServed, serve_register};

#[cfg(test)]
mod tests;
