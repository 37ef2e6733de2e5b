//! The line of `serve`.
ghost use Rattle.std.specs.Prelude.{◌≡◌, ◌<◌, map, length, drop, option_map, string_bytes};
ghost use Rattle.dv_words.specs.Uses.{uses_of};
ghost use Rattle.dv_lines.specs.Line.{IsRead, line_at, serve_by, serve_of, serve_options, texts_of, told_by, words_in};

use crate::faulty::{Faulty, NoLine, no_line};
use crate::line::Line;
use crate::register::register_in;
use crate::values::optional_policy;
use dv_words::{OptionForm, parse};
use std::alloc::Global;

static OPTIONS: [OptionForm; 1] = [OptionForm {
    name: "policy",
    value: "OID",
}];

/// The line with this register, seed, certificate and trust, and this value of the option.
fn serve_with<'a>(
    alloc: Global,
    register: &'a str,
    words: Option<&[&'a str]>,
    policy: Option<&'a str>,
) -> Result<Line<'a>, NoLine<'a>>
    ensures { IsRead told_by (serve_by register.entry.now (words_in words.entry) (option_map (λ t. t.now) policy.entry)) result }
{
    let (seed, certificate, trust) = match words {
        Some([seed, certificate, trust]) => (*seed, *certificate, *trust),
        Some([_, _, _, word, ..]) => return Err(NoLine::Faulty(Faulty::Unexpected(word))),
        Some([_, _]) => return Err(NoLine::Faulty(Faulty::Missing("TRUST"))),
        Some([_]) => return Err(NoLine::Faulty(Faulty::Missing("CERTIFICATE"))),
        _ => return Err(NoLine::Faulty(Faulty::Missing("SEED"))),
    };
    let policy = optional_policy(alloc, policy)?;
    Ok(Line::Serve {
        register,
        seed,
        certificate,
        trust,
        policy,
    })
}

/// The line of `serve`, the word with which these words begin.
pub(crate) fn read_serve<'a>(alloc: Global, words: &'a [String]) -> Result<Line<'a>, NoLine<'a>>
    ensures { IsRead told_by (line_at serve_options serve_of (drop 1 (texts_of words.entry.now))) result }
{
    let register = register_in(words)?;
    match parse(alloc, "serve", OPTIONS.as_slice(), &words[1..]) {
        Ok(parsed) => serve_with(alloc, register, parsed.others(), parsed.value("policy")),
        Err(fault) => Err(no_line(fault)),
    }
}
