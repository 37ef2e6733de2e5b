//! Runs of the two top calls over the outside in memory.

mod server;
mod trial;
mod validation;
