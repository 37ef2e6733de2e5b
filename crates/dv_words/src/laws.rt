//! Laws of the grammar of words.
ghost use Rattle.std.specs.Prelude.{◌≡◌, ◌↔◌, List, Some, true};
ghost use Rattle.dv_words.specs.Grammar.{IsCommand, are_names};
ghost use Rattle.dv_words.specs.Uses.{Text, Use, uses_of};

/// `uses_of` finds what the grammar says of words, and nothing else; so the grammar says one thing of them at most.
pub fn uses_are_the_grammars()
    ensures { (names words : List Text) (said : List Use) → are_names names ≡ true
        → ((uses_of names words ≡ Some said) ↔ IsCommand names words said) }
{}
