//! Command lines, from their words to their values.
//!
//! What it is for: [`read_words`] reads the words behind the program's name as a [`Line`]: a command, and the values of its words
//! and options.
//!
//! What it promises: the line is the one that the words are, and an error other than want of memory comes exactly where they are
//! none. What words are a line of, and with which values, is the definition `line_of` of specs/Line.antt. Numbers, names, moments and
//! identifiers of a line lie within the limits that their texts are held to.
//!
//! What it stands on: `dv_words`, which takes the words apart, `dv_time` for moments, `dv_names` for identifiers, and `hex`.
#![tactic(auto)]

mod faulty;
mod init;
pub mod laws;
mod line;
mod nonce;
mod policy;
mod register;
mod reissue;
mod request;
mod serve;
mod service;
mod show;
mod validate;
mod values;
mod words;

pub use faulty::{Faulty, NoLine};
pub use line::Line;
pub use nonce::Nonce;
pub use policy::Policy;
pub use service::Service;
pub use words::read_words;

#[cfg(test)]
mod tests;
