//! The line of `init`.
ghost use Rattle.std.specs.Prelude.{◌≡◌, ◌<◌, map, length, drop, option_map, string_bytes};
ghost use Rattle.dv_words.specs.Uses.{uses_of};
ghost use Rattle.dv_lines.specs.Line.{IsRead, init_by, init_of, init_options, line_at, texts_of, told_by, words_in};

use crate::faulty::{Faulty, NoLine, no_line};
use crate::line::Line;
use crate::register::register_in;
use crate::values::{first_serial, period, server_name};
use dv_words::{OptionForm, parse};
use std::alloc::Global;

static OPTIONS: [OptionForm; 3] = [
    OptionForm {
        name: "from",
        value: "TIME",
    },
    OptionForm {
        name: "days",
        value: "N",
    },
    OptionForm {
        name: "first",
        value: "N",
    },
];

/// The line with this register, seed and name, and these values of the options.
fn init_with<'a>(
    register: &'a str,
    words: Option<&[&'a str]>,
    from: Option<&'a str>,
    days: Option<&'a str>,
    first: Option<&'a str>,
) -> Result<Line<'a>, NoLine<'a>>
    ensures { IsRead told_by
        (init_by register.entry.now (words_in words.entry) (option_map (λ t. t.now) from.entry) (option_map (λ t. t.now) days.entry) (option_map (λ t. t.now) first.entry)) result }
{
    let (seed, name) = match words {
        Some([seed, name]) => (*seed, *name),
        Some([_, _, word, ..]) => return Err(NoLine::Faulty(Faulty::Unexpected(word))),
        Some([_]) => return Err(NoLine::Faulty(Faulty::Missing("NAME"))),
        _ => return Err(NoLine::Faulty(Faulty::Missing("SEED"))),
    };
    let name = server_name(name)?;
    let (from, until) = period(from, days)?;
    let first = first_serial(first)?;
    Ok(Line::Init {
        register,
        seed,
        name,
        from,
        until,
        first,
    })
}

/// The line of `init`, the word with which these words begin.
pub(crate) fn read_init<'a>(alloc: Global, words: &'a [String]) -> Result<Line<'a>, NoLine<'a>>
    ensures { IsRead told_by (line_at init_options init_of (drop 1 (texts_of words.entry.now))) result }
{
    let register = register_in(words)?;
    match parse(alloc, "init", OPTIONS.as_slice(), &words[1..]) {
        Ok(parsed) => init_with(
            register,
            parsed.others(),
            parsed.value("from"),
            parsed.value("days"),
            parsed.value("first"),
        ),
        Err(fault) => Err(no_line(fault)),
    }
}
