//! The reading of words.
ghost use Rattle.std.specs.Prelude.{◌≡◌, ◌≢◌, ◌<◌, IfOk, IfErr, map, length, drop, string_bytes, false, true, is_some, List};
ghost use Rattle.clap.specs.Words.{app_of};
ghost use Rattle.dv_words.specs.Uses.{Use, has_name, has_short, is_single_dashed, uses_of};
ghost use Rattle.dv_words.specs.Commands.{app_with, names_of, others_id, IsParsed, IsReading};
ghost use Rattle.dv_words.specs.Grammar.{IsCommand, are_names};

use crate::fault::{WordsFault, fault_of};
use crate::form::OptionForm;
use crate::parsed::Parsed;
use clap::{Arg, ArgAction, Command};
use std::alloc::{AllocError, Global};

/// clap's command with these options: each takes a value, and all other words go to one argument.
fn command_of<'a>(
    alloc: Global,
    command_word: &'a str,
    options: &[OptionForm],
) -> Result<Command<'a>, AllocError>
    ensures { IfOk result (λ c. app_of c ≡ app_with command_word.entry.now (names_of options.entry.now)) }
{
    let mut command = Command::new(alloc, command_word);
    for option in options {
        let arg = Arg::new(alloc, option.name)
            .long(option.name)
            .action(ArgAction::Set)
            .value_name(option.value);
        command = command.arg(arg)?;
    }
    command.arg(Arg::new(alloc, "words").action(ArgAction::Append))
}

/// Whether the word begins with one `-` alone.
fn begins_with_one_dash(word: &str) -> bool
    ensures { result ≡ is_single_dashed word.now }
{
    match word.as_bytes() {
        [b'-', b'-', ..] => false,
        [b'-', ..] => true,
        _ => false,
    }
}

/// The first word before `--` that begins with one `-` alone.
fn one_dash_word(words: &[String]) -> Option<&str>
    ensures { is_some result ≡ has_short (map (λ w. string_bytes w) words.now) }
{
    for word in words {
        let word = word.as_str();
        if word == "--" {
            return None;
        }
        if begins_with_one_dash(word) {
            return Some(word);
        }
    }
    None
}

/// Takes the words of a command apart. The first of them is the command's own word, whatever it is; `command_word` is what
/// texts for people call the command.
pub fn parse<'a>(
    alloc: Global,
    command_word: &'a str,
    options: &[OptionForm],
    words: &'a [String],
) -> Result<Parsed<'a>, WordsFault<'a>>
    requires some { 0 < length words.now }
    requires fresh { has_name (names_of options.now) others_id ≡ false }
    requires names { are_names (names_of options.now) ≡ true }

    // What the words behind the first say, where they say something.
    ensures reading { IsReading (uses_of (names_of options.entry.now) (drop 1 (map (λ w. string_bytes w) words.entry.now))) result }

    // The same in the words of the grammar.
    ensures ok { IfOk result (λ parsed. (said : List Use) × IsCommand (names_of options.entry.now) (drop 1 (map (λ w. string_bytes w) words.entry.now)) said × IsParsed said parsed) }
    ensures refused { IfErr result (λ fault. fault ≢ WordsFault.Memory
        → (said : List Use) → ¬ IsCommand (names_of options.entry.now) (drop 1 (map (λ w. string_bytes w) words.entry.now)) said) }
{
    match one_dash_word(&words[1..]) {
        Some(word) => return Err(WordsFault::OneDash(word)),
        None => {}
    }
    let Ok(command) = command_of(alloc, command_word, options) else {
        return Err(WordsFault::Memory);
    };
    match command.try_get_matches_from(words) {
        Ok(matches) => Ok(Parsed { matches }),
        Err(error) => Err(fault_of(alloc, &error)),
    }
}

#[cfg(test)]
mod tests;
