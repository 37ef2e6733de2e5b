//! How a command ends: the exit statuses, the lines that say why, and the files that a command on a register reads.
//!
//! [`Status`] is why a command ended, with its number. [`read_key`] reads the seed of a key, and [`read_desk`] all files of the server;
//! what they find is what the files are, where a shelf tells them, and each refusal is a status with its cause. [`say_no_line`] says
//! why words are no line of the program.
//!
//! The crate stands on `dv_files` and `dv_path`, which read the files' octets, on `dv_lines` for the words, and on `dv_outside`.
#![tactic(auto)]

mod files;
mod messages;
mod status;
mod usage;

pub use files::{Names, read_desk, read_key};
pub use messages::{open_status, refused, say, say_place};
pub use status::Status;
pub use usage::{HELP, USAGE, say_no_line};
