//! What holds of each line.
ghost use Rattle.std.specs.Prelude.{◌≡◌, List, Some};
ghost use Rattle.dv_words.specs.Uses.{Text};
ghost use Rattle.dv_lines.specs.Line.{KeepsLimits, line_of, Told};

/// The values of a line lie within their limits.
pub fn lines_keep_limits()
    ensures { (words : List Text) (told : Told) → line_of words ≡ Some told → KeepsLimits told }
{}
