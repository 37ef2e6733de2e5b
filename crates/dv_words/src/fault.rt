//! Why words weren't taken apart.
ghost use Rattle.std.specs.Prelude.{◌≢◌};
ghost use Rattle.clap.specs.Values.{kind_of};
ghost use Rattle.clap.specs.declared.error.kind.ErrorKind.TheVariants.{OutOfMemory};

use clap::Error;
use clap::error::ErrorKind;
use std::alloc::Global;
use std::fmt;

/// Why a list of words is no command's words, or wasn't read. Its `Display` says which word is wrong and what was expected.
#[derive(Debug, Drop)]
pub enum WordsFault<'a> {
    /// This word begins with one `-` alone.
    OneDash(&'a str),
    /// The words aren't in the form of the command's words.
    Refused(Refusal),
    /// Help is asked for, by `--help`.
    Help,
    /// There wasn't enough memory to tell.
    Memory,
}

/// What is wrong with words.
#[derive(Debug, Drop)]
pub struct Refusal {
    text: String,
}

impl fmt::Display for Refusal {
    fn fmt<W: fmt::Write>(&self, f: &mut fmt::Formatter<W>) -> fmt::Result {
        let text = self.text.as_str();
        let text = text.strip_prefix("error: ").unwrap_or(text);
        // What follows the first empty line is clap's advice and usage.
        match text.split_once("\n\n") {
            Some((reason, _)) => f.write_str(reason),
            None => f.write_str(text),
        }
    }
}

impl fmt::Display for WordsFault<'_> {
    fn fmt<W: fmt::Write>(&self, f: &mut fmt::Formatter<W>) -> fmt::Result {
        match self {
            WordsFault::OneDash(word) => {
                write!(
                    f,
                    "unexpected argument '{word}' found: options begin with '--', and other words that begin with '-' stand behind '--'"
                )
            }
            WordsFault::Refused(refusal) => write!(f, "{refusal}"),
            WordsFault::Help => f.write_str("help was asked for"),
            WordsFault::Memory => f.write_str("there is not enough memory for the words"),
        }
    }
}

impl std::error::Error for WordsFault<'_> {}

/// The fault that clap's error means. It is `Memory` wherever memory ran out, also for the error's own text.
pub(crate) fn fault_of<'a>(alloc: Global, error: &Error) -> WordsFault<'a>
    ensures { result ≢ WordsFault.Memory → kind_of error.now ≢ OutOfMemory }
{
    match error.kind() {
        ErrorKind::OutOfMemory => WordsFault::Memory,
        ErrorKind::DisplayHelp => WordsFault::Help,
        _ => match format!(in alloc; "{error}") {
            Ok(text) => WordsFault::Refused(Refusal { text }),
            Err(_) => WordsFault::Memory,
        },
    }
}
