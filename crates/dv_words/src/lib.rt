//! The words of a command line, read with clap.
//!
//! What it is for: an [`OptionForm`] names an option of a command, which takes a value, and [`parse`] takes the words of a
//! command with such options apart: which value each option has, and which words stand for themselves.
//!
//! What it promises: `parse` gives what the words say exactly where they are a command's words, and refuses them exactly
//! where they are none, but for want of memory. What a command's words are is the grammar of specs/Grammar.antt, which
//! knows nothing of how they are read. It holds for every list of options, so a new command needs no new proof.
//!
//! The grammar: an option is written `--NAME VALUE`, where VALUE doesn't begin with `-`, or `--NAME=VALUE`, where it may be
//! anything; no option is given twice; every other word stands for itself, and doesn't begin with `-`; after `--` each word
//! stands for itself, whatever it is.
//!
//! What it stands on: `clap`. A word that begins with one `-` alone is refused here, before clap sees it.
#![tactic(auto)]

mod fault;
mod form;
pub mod laws;
mod numbers;
mod parsed;
mod words;

pub use fault::{Refusal, WordsFault};
pub use form::OptionForm;
pub use numbers::number;
pub use parsed::Parsed;
pub use words::parse;
