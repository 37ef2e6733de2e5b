//! The words of the program.
ghost use Rattle.std.specs.Prelude.{◌≡◌, IfOk};
ghost use Rattle.dv_lines.specs.Line.{IsRead, KeepsLimits, line_of, texts_of, told_by};

use crate::faulty::{Faulty, NoLine};
use crate::init::read_init;
use crate::line::Line;
use crate::reissue::read_reissue;
use crate::request::read_request;
use crate::serve::read_serve;
use crate::show::read_show;
use std::alloc::Global;

/// The line that the words are, which are those behind the program's name. An error other than `Memory` comes exactly where they
/// are no line.
pub fn read_words<'a>(alloc: Global, words: &'a [String]) -> Result<Line<'a>, NoLine<'a>>
    ensures line { IsRead told_by (line_of (texts_of words.entry.now)) result }
    ensures limits { IfOk result (λ line. KeepsLimits (told_by line)) }
{
    let Some(command) = words.first() else {
        return Err(NoLine::Faulty(Faulty::NoCommand));
    };
    match command.as_str() {
        "request" => read_request(alloc, words),
        "show" => read_show(alloc, words),
        "init" => read_init(alloc, words),
        "serve" => read_serve(alloc, words),
        "reissue" => read_reissue(alloc, words),
        "--help" => Err(NoLine::Help),
        word => Err(NoLine::Faulty(Faulty::Command(word))),
    }
}
