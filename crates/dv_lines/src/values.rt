//! The values of options and words.
ghost use Rattle.std.specs.Prelude.{◌≡◌, option_map};
ghost use Rattle.dv_lines.specs.Line.{IsRead, nonce_octets, policy_octets};
ghost use Rattle.dv_lines.specs.Values.{first_of, moment_of, name_of, nonce_of, number_within, optional, period_of, policy_of, service_of};

use crate::faulty::{Faulty, NoLine};
use crate::nonce::Nonce;
use crate::policy::Policy;
use crate::service::Service;
use dv_names::{OidText, oid_from_text};
use dv_time::{Moment, add_days, parse};
use dv_words::number;
use hex::FromHexError;
use std::alloc::Global;

/// The most days for which a key stands: about a hundred years.
const MOST_DAYS: u64 = 36_500;

/// The highest first serial: 2^62.
const MOST_FIRST: u64 = 1 << 62;

/// The most octets of a server's name.
const MOST_NAME_OCTETS: usize = 64;

/// The most octets of a policy's dotted decimal.
const MOST_POLICY_OCTETS: usize = 1024;

/// The service that a word names.
pub(crate) fn service(word: &str) -> Option<Service>
    ensures { result ≡ service_of word.now }
{
    match word {
        "cpd" => Some(Service::Cpd),
        "vsd" => Some(Service::Vsd),
        "ccpd" => Some(Service::Ccpd),
        _ => None,
    }
}

/// The nonce that 2 to 128 hexadecimal digits write.
fn nonce_of_digits<'a>(alloc: Global, digits: &'a str) -> Result<Nonce, NoLine<'a>>
    ensures { IsRead nonce_octets (nonce_of digits.entry.now) result }
{
    let octets = match hex::decode(alloc, digits) {
        Ok(octets) => octets,
        Err(FromHexError::OutOfMemory) => return Err(NoLine::Memory),
        Err(_) => return Err(NoLine::Faulty(Faulty::Digits(digits))),
    };
    let has_room = !octets.is_empty() && octets.len() <= 64;
    match Nonce::new(octets) {
        Some(nonce) => Ok(nonce),
        None if has_room => Err(NoLine::Faulty(Faulty::Nonce(digits))),
        None => Err(NoLine::Faulty(Faulty::Digits(digits))),
    }
}

/// The nonce of the option, where it is given.
pub(crate) fn optional_nonce<'a>(
    alloc: Global,
    digits: Option<&'a str>,
) -> Result<Option<Nonce>, NoLine<'a>>
    ensures { IsRead (option_map nonce_octets) (optional nonce_of (option_map (λ t. t.now) digits.entry)) result }
{
    match digits {
        None => Ok(None),
        Some(digits) => match nonce_of_digits(alloc, digits) {
            Ok(nonce) => Ok(Some(nonce)),
            Err(fault) => Err(fault),
        },
    }
}

/// The moment that a text writes.
fn moment_of_text(text: &str) -> Option<Moment>
    ensures { result ≡ moment_of text.now }
{
    parse(text.as_bytes())
}

/// The moment of the option, where it is given.
pub(crate) fn optional_moment<'a>(text: Option<&'a str>) -> Result<Option<Moment>, NoLine<'a>>
    ensures { IsRead (λ m. m) (optional moment_of (option_map (λ t. t.now) text.entry)) result }
{
    match text {
        None => Ok(None),
        Some(text) => match moment_of_text(text) {
            Some(moment) => Ok(Some(moment)),
            None => Err(NoLine::Faulty(Faulty::Time(text))),
        },
    }
}

/// The number that a text writes, where it isn't outside these ends.
fn number_between(text: &str, least: u64, most: u64) -> Option<u64>
    ensures { result ≡ number_within least most text.now }
{
    match number(text) {
        Some(number) if least <= number && number <= most => Some(number),
        _ => None,
    }
}

/// The first and the last moment of a key, by `--from` and `--days`, which both must be given.
pub(crate) fn period<'a>(
    from: Option<&'a str>,
    days: Option<&'a str>,
) -> Result<(Moment, Moment), NoLine<'a>>
    ensures { IsRead (λ p. p) (period_of (option_map (λ t. t.now) from.entry) (option_map (λ t. t.now) days.entry)) result }
{
    let Some(start) = from else {
        return Err(NoLine::Faulty(Faulty::Missing("--from TIME")));
    };
    let Some(span) = days else {
        return Err(NoLine::Faulty(Faulty::Missing("--days N")));
    };
    let Some(from) = moment_of_text(start) else {
        return Err(NoLine::Faulty(Faulty::Time(start)));
    };
    let Some(days) = number_between(span, 1, MOST_DAYS) else {
        return Err(NoLine::Faulty(Faulty::Days(span)));
    };
    match add_days(from, days as u32) {
        Some(until) => Ok((from, until)),
        None => Err(NoLine::Faulty(Faulty::Until(span))),
    }
}

/// The serial of the key's certificate, by `--first`: 1 where it isn't given.
pub(crate) fn first_serial<'a>(text: Option<&'a str>) -> Result<u64, NoLine<'a>>
    ensures { IsRead (λ n. n) (first_of (option_map (λ t. t.now) text.entry)) result }
{
    match text {
        None => Ok(1),
        Some(text) => match number_between(text, 1, MOST_FIRST) {
            Some(first) => Ok(first),
            None => Err(NoLine::Faulty(Faulty::First(text))),
        },
    }
}

/// The server's name.
pub(crate) fn server_name<'a>(text: &'a str) -> Result<&'a str, NoLine<'a>>
    ensures { IsRead (λ t. t.now) (name_of text.entry.now) result }
{
    if text.is_empty() || text.len() > MOST_NAME_OCTETS {
        return Err(NoLine::Faulty(Faulty::Name(text)));
    }
    Ok(text)
}

/// The policy that a dotted decimal names.
fn policy_of_text<'a>(alloc: Global, text: &'a str) -> Result<Policy, NoLine<'a>>
    ensures { IsRead policy_octets (policy_of text.entry.now) result }
{
    if text.len() > MOST_POLICY_OCTETS {
        return Err(NoLine::Faulty(Faulty::Policy(text)));
    }
    match oid_from_text(alloc, text) {
        Ok(octets) => Ok(Policy::new(octets)),
        Err(OidText::Memory) => Err(NoLine::Memory),
        Err(OidText::Text { .. }) => Err(NoLine::Faulty(Faulty::Policy(text))),
    }
}

/// The policy of the option, where it is given.
pub(crate) fn optional_policy<'a>(
    alloc: Global,
    text: Option<&'a str>,
) -> Result<Option<Policy>, NoLine<'a>>
    ensures { IsRead (option_map policy_octets) (optional policy_of (option_map (λ t. t.now) text.entry)) result }
{
    match text {
        None => Ok(None),
        Some(text) => match policy_of_text(alloc, text) {
            Ok(policy) => Ok(Some(policy)),
            Err(fault) => Err(fault),
        },
    }
}
