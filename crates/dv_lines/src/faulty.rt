//! What is wrong with words that are no line.
ghost use Rattle.std.specs.Prelude.{◌≡◌, ◌↔◌};

use dv_words::WordsFault;
use thiserror::Error;

/// Why words are no line, or weren't read.
#[derive(Debug, Drop, Error)]
pub enum NoLine<'a> {
    /// They are no line of the program.
    #[error("{0}")]
    Faulty(Faulty<'a>),
    /// Help is asked for, by `--help`.
    #[error("help was asked for")]
    Help,
    /// There wasn't enough memory to tell.
    #[error("there is not enough memory for the words")]
    Memory,
}

/// What is wrong with words: which word, and which form was expected.
#[derive(Debug, Drop, Error)]
pub enum Faulty<'a> {
    /// There is no word.
    #[error("there is no command: request, init, serve, reissue or show")]
    NoCommand,
    /// The first word is no command.
    #[error("'{0}' is no command: request, init, serve, reissue or show")]
    Command(&'a str),
    /// The words behind the command aren't in the form of options and other words.
    #[error("{0}")]
    Words(WordsFault<'a>),
    /// A word of the command isn't there.
    #[error("{0} is missing")]
    Missing(&'static str),
    /// A word is too much.
    #[error("unexpected argument '{0}' found")]
    Unexpected(&'a str),
    /// The word names no service.
    #[error("'{0}' is no SERVICE: cpd, vsd, cpkc or ccpd")]
    Service(&'a str),
    /// The value isn't an even number of hexadecimal digits, from 2 to 128.
    #[error("'{0}' is no HEX: an even number of hexadecimal digits, from 2 to 128")]
    Digits(&'a str),
    /// The value is hexadecimal, and spells no INTEGER: it isn't the shortest for its number.
    #[error("'{0}' is no nonce: a shorter HEX spells the same number")]
    Nonce(&'a str),
    /// The value is no moment.
    #[error("'{0}' is no TIME: YYYYMMDDHHMMSSZ, from 1950 to 9999")]
    Time(&'a str),
    /// The word behind the command begins with `-`.
    #[error("'{0}' is no REGISTER: it stands right behind the command, and doesn't begin with '-'")]
    Register(&'a str),
    /// The word isn't 1 to 64 octets.
    #[error("'{0}' is no NAME: 1 to 64 octets")]
    Name(&'a str),
    /// The value of `--days` is no number from 1 to 36,500.
    #[error("'{0}' is no N of --days: 1 to 36500")]
    Days(&'a str),
    /// So many days behind `--from`, 9999-12-31T23:59:59Z is past.
    #[error("'{0}' is no N of --days: with --from it ends past 99991231235959Z")]
    Until(&'a str),
    /// The value of `--first` is no number from 1 to 2^62.
    #[error("'{0}' is no N of --first: 1 to 4611686018427387904")]
    First(&'a str),
    /// The word is no number below 2^64.
    #[error("'{0}' is no SERIAL: 1 to 20 decimal digits, at most 18446744073709551615")]
    Serial(&'a str),
    /// The value names no identifier, or has more than 1,024 octets.
    #[error("'{0}' is no OID: decimal arcs with dots between them, at most 1024 octets")]
    Policy(&'a str),
}

/// The words' fault as one of the line.
pub(crate) fn no_line<'a>(fault: WordsFault<'a>) -> NoLine<'a>
    ensures { (result ≡ NoLine.Memory) ↔ (fault.entry ≡ WordsFault.Memory) }
{
    match fault {
        WordsFault::Memory => NoLine::Memory,
        WordsFault::Help => NoLine::Help,
        fault => NoLine::Faulty(Faulty::Words(fault)),
    }
}
