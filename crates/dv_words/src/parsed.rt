//! What words say.
ghost use Rattle.std.specs.Prelude.{◌≡◌, List, map, option_map, false};
ghost use Rattle.std.specs.Str.{bytes_eq};
ghost use Rattle.dv_words.specs.Uses.{Use, others_of, value_of};
ghost use Rattle.dv_words.specs.Commands.{IsParsed, nonempty, others_id};

use clap::ArgMatches;

/// A command's words, taken apart. Contracts tie it to what the words say by `IsParsed`.
#[derive(Debug, Drop)]
pub struct Parsed<'a> {
    pub(crate) matches: ArgMatches<'a>,
}

impl<'a> Parsed<'a> {
    /// The value that an option has, if it was given.
    pub fn value(&self, option: &str) -> Option<&'a str>
        ensures { (said : List Use) → IsParsed said self.now → bytes_eq others_id option.now ≡ false
            → option_map (λ t. t.now) result ≡ value_of option.now said }
    {
        self.matches.get_str(option)
    }

    /// The words that stand for themselves, in their order. `None` exactly where there are none.
    pub fn others(&self) -> Option<&[&'a str]>
        ensures { (said : List Use) → IsParsed said self.now
            → option_map (λ words. map (λ w. w.now) words.now) result ≡ nonempty (others_of said) }
    {
        self.matches.get_raw("words")
    }
}
