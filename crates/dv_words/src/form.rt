//! The options of a command.

/// An option, which takes a value: `--name VALUE` or `--name=VALUE`.
#[derive(Clone, Copy, Debug)]
pub struct OptionForm {
    /// The option's name, without the dashes.
    pub name: &'static str,
    /// What the value is called where a text for people names it, as `HEX`.
    pub value: &'static str,
}
