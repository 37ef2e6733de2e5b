//! The commands that end by themselves: `request`, `init`, `reissue` and `show`.
//!
//! [`run_tool`] runs the command that the words say, over whatever outside it is lent. Its contract says what each command puts and
//! leaves, by its exit status.
//!
//! The crate stands on `dv_exit` for the files and the statuses, on `dv_request` and `dv_show`, which make what is put, on `dv_commands`,
//! which works on registers, and on `dv_outside`.
#![tactic(auto)]

mod init;
mod reissue;
mod request;
mod run;
mod show;
mod validate;

pub use run::run_tool;

#[cfg(test)]
mod tests;
