//! Moments, their civil dates and times, and their DER forms.
//!
//! What it is for: a [`Moment`] is a second of the years 1950 to 9999 in UTC, as GeneralizedTime and UTCTime say it (X.680 46
//! and 47, in the one form that X.690 11.7, 11.8 and RFC 5280 4.1.2.5 leave).
//!
//! What it promises: each moment has one text `YYYYMMDDHHMMSSZ`, and each such text of a real civil date and time is that of
//! one moment. Reading answers the moment or the first refusal with its place; what is written is read as the same moment.
//! No call takes memory.
//!
//! What it stands on: `jiff_core`, the calendar of `jiff`, for civil dates and their day numbers, and `dv_asn1`, over the
//! definitions of `dv_schema`.
#![tactic(auto)]

mod civil;
pub mod laws;
mod moment;
mod texts;
mod value;

pub use moment::{Moment, add_days};
pub use texts::{parse, text};
pub use value::{read_generalized, read_time, time_len, write_generalized, write_time};

#[cfg(test)]
mod tests;
