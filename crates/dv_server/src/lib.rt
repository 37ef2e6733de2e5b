//! The server's line.
//!
//! [`run_serve`] reads the server's files, opens its register and serves the requests of its input, over whatever outside it is lent.
//! Its contract says what was put, what the register holds, and how the run ended, by its exit status.
//!
//! The crate stands on `dv_exit` for the files and the statuses, on `dv_commands` and `dv_session`, which serve, and on `dv_outside`.
#![tactic(auto)]

mod run;

pub use run::run_serve;
