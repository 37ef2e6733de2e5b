//! The line of `request cpkc`.
ghost use Rattle.std.specs.Prelude.{map, option_map};
ghost use Rattle.dv_lines.specs.Line.{IsRead, told_by, validate_by};

use crate::faulty::{Faulty, NoLine};
use crate::line::Line;
use crate::values::{optional_moment, optional_nonce};
use std::alloc::Global;

/// The most files of certificates: the target's, and 15 of its chain.
const MOST_FILES: usize = 16;

/// The line of `request cpkc` with these files, and these values of the options.
pub(crate) fn validate_with<'a>(
    alloc: Global,
    files: &[&'a str],
    nonce: Option<&'a str>,
    at: Option<&'a str>,
) -> Result<Line<'a>, NoLine<'a>>
    ensures { IsRead told_by (validate_by (map (λ f. f.now) files.entry.now) (option_map (λ t. t.now) nonce.entry) (option_map (λ t. t.now) at.entry)) result }
{
    if files.is_empty() {
        return Err(NoLine::Faulty(Faulty::Missing("FILE")));
    }
    if files.len() > MOST_FILES {
        return Err(NoLine::Faulty(Faulty::Unexpected(files[MOST_FILES])));
    }
    let nonce = optional_nonce(alloc, nonce)?;
    let at = optional_moment(at)?;
    let Ok(files) = files.to_vec(alloc) else {
        return Err(NoLine::Memory);
    };
    Ok(Line::Validate { files, nonce, at })
}
