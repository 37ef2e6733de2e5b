//! Numbers in words.
ghost use Rattle.std.specs.Prelude.{◌≡◌};
ghost use Rattle.std.specs.List.{list_all};
ghost use Rattle.dv_words.specs.Number.{is_digit, number_of};

/// The most digits of a number.
const MOST_DIGITS: usize = 20;

fn are_digits(bytes: &[u8]) -> bool
    ensures { result ≡ list_all is_digit bytes.now }
{
    bytes.iter().all(|b| 48 <= *b && *b <= 57)
}

/// The number that a word writes: 1 to 20 decimal digits without a sign, of which the first may be 0. `None` exactly where
/// the word writes none, or one past 2^64 - 1.
pub fn number(text: &str) -> Option<u64>
    ensures { result ≡ number_of text.now }
{
    if text.is_empty() || text.len() > MOST_DIGITS || !are_digits(text.as_bytes()) {
        return None;
    }
    text.parse::<u64>().ok()
}

#[cfg(test)]
mod tests {
    use super::*;

    #[test]
    fn numbers(rt: HostRuntime) {
        let rows = [
            ("0", Some(0)),
            ("08", Some(8)),
            ("00000000000000000001", Some(1)),
            ("18446744073709551615", Some(u64::MAX)),
            ("18446744073709551616", None),
            ("000000000000000000001", None),
            ("", None),
            ("+1", None),
            ("-1", None),
            (" 1", None),
            ("1_0", None),
            ("0x1", None),
            ("١", None),
        ];
        for (text, wanted) in rows {
            assert_eq!(rt; number(text), wanted, "{text}");
        }
    }
}
