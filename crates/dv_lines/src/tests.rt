//! Lists of words, with the line that they are or what is wrong with them.

mod commands;
mod inits;
mod moments;
mod names;
mod nonces;
mod options;
mod policies;
mod registers;
mod reissues;
mod requests;
mod serials;
mod serves;

use crate::read_words;
use std::alloc::Global;
use std::process::Abort;
use std::test::Fail;

/// Words, and the text of what comes of them.
type Row = (&'static [&'static str], &'static str);

/// What comes of the words: the line, or what is wrong with them.
fn outcome(alloc: Global, words: &[&str]) -> Result<String, Fail> {
    let mut owned = Vec::new(alloc);
    for word in words {
        owned.push(word.to_string(alloc)?)?;
    }
    match read_words(alloc, owned.as_slice()) {
        Ok(line) => Ok(format!(in alloc; "{line:?}")?),
        Err(fault) => Ok(format!(in alloc; "{fault}")?),
    }
}

/// Compares what comes of each row's words with the text beside them.
fn compare(rt: &(impl Abort + AllocGlobal), rows: &[Row]) -> Result<(), Fail> {
    for (words, wanted) in rows {
        let text = outcome(rt.alloc(), words)?;
        assert_eq!(rt; text.as_str(), *wanted, "{words:?}");
    }
    Ok(())
}
