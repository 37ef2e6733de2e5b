//! Why octets are refused, and where.

ghost use Rattle.std.specs.Prelude.{◌≡◌};
ghost use Rattle.dv_schema.specs.Refusal.{name_of};

use std::fmt;

/// Why octets are refused: the first check that a value fails.
#[derive(Clone, Copy, Debug, PartialEq, Eq)]
pub enum Why {
    /// Octets are missing: the enclosing value ends too early.
    End = 1,
    /// The tag isn't allowed here, or it has more than one octet (X.690 8.1.2.4).
    Tag = 2,
    /// The length is indefinite, isn't the shortest (X.690 10.1), or has more than eight octets after its first.
    Length = 3,
    /// The contents aren't allowed for the type.
    Value = 4,
    /// A member of a set is less than the one before it (X.690 11.6).
    Order = 5,
    /// Octets are left after the last member.
    Trailing = 6,
    /// The value lies deeper than 32 levels.
    Depth = 7,
}

impl Why {
    /// One lower-case word for the reason, as diagnostics print it.
    pub fn name(self) -> &'static str
        ensures { result.now ≡ name_of self }
    {
        match self {
            Why::End => "end",
            Why::Tag => "tag",
            Why::Length => "length",
            Why::Value => "value",
            Why::Order => "order",
            Why::Trailing => "trailing",
            Why::Depth => "depth",
        }
    }
}

impl fmt::Display for Why {
    fn fmt<W: fmt::Write>(&self, f: &mut fmt::Formatter<W>) -> fmt::Result {
        f.write_str(self.name())
    }
}

/// A refusal: the place and the reason of the first check that fails.
///
/// The place is an offset, in octets, into what the outermost decoder was given.
#[derive(Clone, Copy, Debug, PartialEq, Eq)]
pub struct Der {
    pub place: u64,
    pub why: Why,
}

impl Der {
    /// The refusal at this place for this reason.
    pub fn new(place: u64, why: Why) -> Der
        ensures { result ≡ record { place = place; why = why } }
    {
        Der { place, why }
    }
}

impl fmt::Display for Der {
    /// Writes, for example, `length refused at 7`.
    fn fmt<W: fmt::Write>(&self, f: &mut fmt::Formatter<W>) -> fmt::Result {
        write!(f, "{} refused at {}", self.why, self.place)
    }
}

impl std::error::Error for Der {}

#[cfg(test)]
mod tests {
    use super::*;
    use std::test::Fail;

    #[test]
    fn words_of_a_refusal(rt: HostRuntime) -> Result<(), Fail> {
        let refusal = Der::new(7, Why::Length);
        let text = format!(in rt.alloc(); "{refusal}")?;
        assert_eq!(rt; text.as_str(), "length refused at 7");
        Ok(())
    }
}
