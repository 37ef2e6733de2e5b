//! The line of `request`.
ghost use Rattle.std.specs.Prelude.{◌≡◌, ◌<◌, map, length, drop, option_map, option_and_then, string_bytes};
ghost use Rattle.dv_words.specs.Uses.{uses_of};
ghost use Rattle.dv_lines.specs.Line.{IsRead, request_by, request_of, request_options, single_by, texts_of, told_by, words_in};

use crate::faulty::{Faulty, NoLine, no_line};
use crate::line::Line;
use crate::validate::validate_with;
use crate::values::{optional_moment, optional_nonce, service};
use dv_words::{OptionForm, parse};
use std::alloc::Global;

static OPTIONS: [OptionForm; 2] = [
    OptionForm {
        name: "nonce",
        value: "HEX",
    },
    OptionForm {
        name: "at",
        value: "TIME",
    },
];

/// The line with this service and file, and these values of the options.
fn single_with<'a>(
    alloc: Global,
    word: &'a str,
    files: &[&'a str],
    nonce: Option<&'a str>,
    at: Option<&'a str>,
) -> Result<Line<'a>, NoLine<'a>>
    ensures { IsRead told_by (single_by word.entry.now (map (λ f. f.now) files.entry.now) (option_map (λ t. t.now) nonce.entry) (option_map (λ t. t.now) at.entry)) result }
{
    let file = match files {
        [file] => *file,
        [_, word, ..] => return Err(NoLine::Faulty(Faulty::Unexpected(word))),
        [] => return Err(NoLine::Faulty(Faulty::Missing("FILE"))),
    };
    let Some(service) = service(word) else {
        return Err(NoLine::Faulty(Faulty::Service(word)));
    };
    let nonce = optional_nonce(alloc, nonce)?;
    let at = optional_moment(at)?;
    Ok(Line::Request {
        service,
        file,
        nonce,
        at,
    })
}

/// The line with these words, and these values of the options.
fn request_with<'a>(
    alloc: Global,
    words: Option<&[&'a str]>,
    nonce: Option<&'a str>,
    at: Option<&'a str>,
) -> Result<Line<'a>, NoLine<'a>>
    ensures { IsRead told_by (request_by (words_in words.entry) (option_map (λ t. t.now) nonce.entry) (option_map (λ t. t.now) at.entry)) result }
{
    let Some(words) = words else {
        return Err(NoLine::Faulty(Faulty::Missing("SERVICE")));
    };
    match words {
        [] => Err(NoLine::Faulty(Faulty::Missing("SERVICE"))),
        [service, files @ ..] if *service == "cpkc" => validate_with(alloc, files, nonce, at),
        [service, files @ ..] => single_with(alloc, service, files, nonce, at),
    }
}

/// The line of `request`, the word with which these words begin.
pub(crate) fn read_request<'a>(alloc: Global, words: &'a [String]) -> Result<Line<'a>, NoLine<'a>>
    requires { 0 < length words.now }
    ensures { IsRead told_by (option_and_then request_of (uses_of request_options (drop 1 (texts_of words.entry.now)))) result }
{
    match parse(alloc, "request", OPTIONS.as_slice(), words) {
        Ok(parsed) => request_with(
            alloc,
            parsed.others(),
            parsed.value("nonce"),
            parsed.value("at"),
        ),
        Err(fault) => Err(no_line(fault)),
    }
}
