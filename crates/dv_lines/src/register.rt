//! The word of a register.
ghost use Rattle.std.specs.Prelude.{◌≡◌, ◌<◌, IfOk, length, drop};
ghost use Rattle.dv_words.specs.Uses.{is_dashed};
ghost use Rattle.dv_lines.specs.Line.{IsRead, register_of, texts_of};

use crate::faulty::{Faulty, NoLine};

/// Whether the word begins with `-`.
fn begins_with_dash(word: &str) -> bool
    ensures { result ≡ is_dashed word.now }
{
    match word.as_bytes() {
        [b'-', ..] => true,
        _ => false,
    }
}

/// The register that a command names right behind its own word, with which these words begin.
pub(crate) fn register_in<'a>(words: &'a [String]) -> Result<&'a str, NoLine<'a>>
    ensures register { IsRead (λ word. word.now) (register_of (drop 1 (texts_of words.entry.now))) result }
    ensures some { IfOk result (λ _. 1 < length words.entry.now) }
{
    let [_, word, ..] = words else {
        return Err(NoLine::Faulty(Faulty::Missing("REGISTER")));
    };
    let word = word.as_str();
    if word == "--help" {
        return Err(NoLine::Help);
    }
    if begins_with_dash(word) {
        return Err(NoLine::Faulty(Faulty::Register(word)));
    }
    Ok(word)
}
