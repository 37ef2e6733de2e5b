//! Which of two lists of nodes is before the other.
ghost use Rattle.std.specs.Prelude.{◌≡◌, ◌↔◌, IsTrue, length};
ghost use Rattle.dv_walks.specs.Walk.{IsBefore, IsLower};
ghost use Rattle.dv_walks.specs.Search.{IsLesserOf};

/// Whether a list is before another: it is shorter, or as long and lower.
fn is_before(a: &[usize], b: &[usize]) -> bool
    ensures { IsTrue result ↔ IsBefore a.now b.now }
{
    if a.len() == b.len() {
        is_lower(a, b)
    } else {
        a.len() < b.len()
    }
}

/// Whether a list has the smaller number at the first place where it differs from another that is as long.
fn is_lower(a: &[usize], b: &[usize]) -> bool
    requires { length a.now ≡ length b.now }
    ensures { IsTrue result ↔ IsLower a.now b.now }
{
    for i in 0..a.len() {
        if a[i] != b[i] {
            return a[i] < b[i];
        }
    }
    false
}

/// The one of two walks that is not behind the other, where they are there.
pub(crate) fn lesser(best: Option<Vec<usize>>, found: Option<Vec<usize>>) -> Option<Vec<usize>>
    ensures { IsLesserOf best found result }
{
    match best {
        None => found,
        Some(best) => match found {
            None => Some(best),
            Some(found) => {
                if is_before(&found, &best) {
                    Some(found)
                } else {
                    Some(best)
                }
            }
        },
    }
}
