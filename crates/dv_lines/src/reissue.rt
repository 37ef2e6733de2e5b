//! The line of `reissue`.
ghost use Rattle.std.specs.Prelude.{◌≡◌, ◌<◌, [], map, length, drop, string_bytes};
ghost use Rattle.dv_words.specs.Uses.{uses_of};
ghost use Rattle.dv_lines.specs.Line.{IsRead, line_at, reissue_by, reissue_of, texts_of, told_by, words_in};

use crate::faulty::{Faulty, NoLine, no_line};
use crate::line::Line;
use crate::register::register_in;
use dv_words::{OptionForm, number, parse};
use std::alloc::Global;

static OPTIONS: [OptionForm; 0] = [];

/// The line with this register, seed and serial.
fn reissue_with<'a>(register: &'a str, words: Option<&[&'a str]>) -> Result<Line<'a>, NoLine<'a>>
    ensures { IsRead told_by (reissue_by register.entry.now (words_in words.entry)) result }
{
    let (seed, word) = match words {
        Some([seed, serial]) => (*seed, *serial),
        Some([_, _, word, ..]) => return Err(NoLine::Faulty(Faulty::Unexpected(word))),
        Some([_]) => return Err(NoLine::Faulty(Faulty::Missing("SERIAL"))),
        _ => return Err(NoLine::Faulty(Faulty::Missing("SEED"))),
    };
    match number(word) {
        Some(serial) => Ok(Line::Reissue {
            register,
            seed,
            serial,
        }),
        None => Err(NoLine::Faulty(Faulty::Serial(word))),
    }
}

/// The line of `reissue`, the word with which these words begin.
pub(crate) fn read_reissue<'a>(alloc: Global, words: &'a [String]) -> Result<Line<'a>, NoLine<'a>>
    ensures { IsRead told_by (line_at [] reissue_of (drop 1 (texts_of words.entry.now))) result }
{
    let register = register_in(words)?;
    match parse(alloc, "reissue", OPTIONS.as_slice(), &words[1..]) {
        Ok(parsed) => reissue_with(register, parsed.others()),
        Err(fault) => Err(no_line(fault)),
    }
}
