//! The line of `show`.
ghost use Rattle.std.specs.Prelude.{◌≡◌, ◌<◌, [], map, length, drop, option_and_then, string_bytes};
ghost use Rattle.dv_words.specs.Uses.{uses_of};
ghost use Rattle.dv_lines.specs.Line.{IsRead, show_by, show_of, texts_of, told_by, words_in};

use crate::faulty::{Faulty, NoLine, no_line};
use crate::line::Line;
use dv_words::{OptionForm, parse};
use std::alloc::Global;

static OPTIONS: [OptionForm; 0] = [];

/// The line with this file.
fn show_with<'a>(words: Option<&[&'a str]>) -> Result<Line<'a>, NoLine<'a>>
    ensures { IsRead told_by (show_by (words_in words.entry)) result }
{
    match words {
        Some([file]) => Ok(Line::Show { file }),
        Some([_, word, ..]) => Err(NoLine::Faulty(Faulty::Unexpected(word))),
        _ => Err(NoLine::Faulty(Faulty::Missing("FILE"))),
    }
}

/// The line of `show`, the word with which these words begin.
pub(crate) fn read_show<'a>(alloc: Global, words: &'a [String]) -> Result<Line<'a>, NoLine<'a>>
    requires { 0 < length words.now }
    ensures { IsRead told_by (option_and_then show_of (uses_of [] (drop 1 (texts_of words.entry.now)))) result }
{
    match parse(alloc, "show", OPTIONS.as_slice(), words) {
        Ok(parsed) => show_with(parsed.others()),
        Err(fault) => Err(no_line(fault)),
    }
}
