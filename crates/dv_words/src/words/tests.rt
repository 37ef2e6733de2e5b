//! Words of a command with two options, and what comes of them.

ghost use Rattle.std.specs.Prelude.{◌<◌, length};

use super::*;
use crate::form::OptionForm;
use std::process::Abort;
use std::test::Fail;

/// The options of a command.
static OPTIONS: [OptionForm; 2] = [
    OptionForm {
        name: "nonce",
        value: "HEX",
    },
    OptionForm {
        name: "at",
        value: "TIME",
    },
];

/// Takes the words of a command with two options apart.
fn read<'a>(alloc: Global, words: &'a [String]) -> Result<Parsed<'a>, WordsFault<'a>>
    requires { 0 < length words.now }
{
    parse(alloc, "request", OPTIONS.as_slice(), words)
}

/// What was taken apart: `nonce, at: words`.
fn shown(alloc: Global, parsed: &Parsed<'_>) -> Result<String, AllocError> {
    let nonce = parsed.value("nonce");
    let at = parsed.value("at");
    let others = parsed.others();
    let mut text = String::new(alloc);
    write!(text, "{nonce:?}, ")?;
    write!(text, "{at:?}: ")?;
    write!(text, "{others:?}")?;
    Ok(text)
}

/// What comes of these words behind the command's own: what was taken apart, or the fault's text.
fn outcome(alloc: Global, words: &[&str]) -> Result<String, Fail> {
    let mut owned = Vec::new(alloc);
    owned.push("request".to_string(alloc)?)?;
    for word in words {
        owned.push(word.to_string(alloc)?)?;
    }
    if owned.is_empty() {
        return Err(Fail::from("there are no words"));
    }
    match read(alloc, owned.as_slice()) {
        Ok(parsed) => Ok(shown(alloc, &parsed)?),
        Err(fault) => Ok(format!(in alloc; "{fault}")?),
    }
}

/// Compares what comes of each row's words with the text beside them.
fn compare(rt: &(impl Abort + AllocGlobal), rows: &[(&[&str], &str)]) -> Result<(), Fail> {
    for (words, wanted) in rows {
        let text = outcome(rt.alloc(), words)?;
        assert_eq!(rt; text.as_str(), *wanted, "{words:?}");
    }
    Ok(())
}

#[test]
#[rattlefmt::skip]
fn commands(rt: HostRuntime) -> Result<(), Fail> {
    compare(&rt, &[
        (&[], r#"None, None: None"#),
        (&["cpd", "abc"], r#"None, None: Some(["cpd", "abc"])"#),
        (&["--nonce", "05", "cpd", "abc"], r#"Some("05"), None: Some(["cpd", "abc"])"#),
        (&["cpd", "--nonce=05", "abc"], r#"Some("05"), None: Some(["cpd", "abc"])"#),
        (&["cpd", "abc", "--at", "x", "--nonce", "y"], r#"Some("y"), Some("x"): Some(["cpd", "abc"])"#),
        (&["--nonce=", "abc"], r#"Some(""), None: Some(["abc"])"#),
        (&["--nonce=--at", "abc"], r#"Some("--at"), None: Some(["abc"])"#),
        (&["--nonce=a=b"], r#"Some("a=b"), None: None"#),
        (&["--", "--nonce", "05"], r#"None, None: Some(["--nonce", "05"])"#),
        (&["cpd", "--", "-", "-x", "--"], r#"None, None: Some(["cpd", "-", "-x", "--"])"#),
        (&["", "ä"], r#"None, None: Some(["", "ä"])"#),
    ])
}

#[test]
#[rattlefmt::skip]
fn refusals(rt: HostRuntime) -> Result<(), Fail> {
    compare(&rt, &[
        (&["--nonce"], "a value is required for '--nonce <HEX>' but none was supplied"),
        (&["--nonce", "--at", "x"], "a value is required for '--nonce <HEX>' but none was supplied"),
        (&["--nonce", "--"], "a value is required for '--nonce <HEX>' but none was supplied"),
        (&["--nonce", "1", "--nonce", "2"], "the argument '--nonce <HEX>' cannot be used multiple times"),
        (&["--nonce=1", "a", "--nonce=1"], "the argument '--nonce <HEX>' cannot be used multiple times"),
        (&["--nonc", "1"], "unexpected argument '--nonc' found"),
        (&["--Nonce=1"], "unexpected argument '--Nonce' found"),
        (&["--version"], "unexpected argument '--version' found"),
        (&["---nonce=1"], "unexpected argument '---nonce' found"),
        (&["--help"], "help was asked for"),
        (&["cpd", "--help", "--nonce"], "help was asked for"),
    ])
}

#[test]
#[rattlefmt::skip]
fn one_dash(rt: HostRuntime) -> Result<(), Fail> {
    compare(&rt, &[
        (&["-"], "unexpected argument '-' found: options begin with '--', and other words that begin with '-' stand behind '--'"),
        (&["a", "-x"], "unexpected argument '-x' found: options begin with '--', and other words that begin with '-' stand behind '--'"),
        (&["--nonce", "-h", "--"], "unexpected argument '-h' found: options begin with '--', and other words that begin with '-' stand behind '--'"),
    ])
}
