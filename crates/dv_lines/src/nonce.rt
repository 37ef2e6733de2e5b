//! Nonces.
ghost use Rattle.std.specs.Prelude.{◌≡◌, MatchOption, true, false};
ghost use Rattle.dv_schema.specs.Rules.{is_integer_within};

/// A nonce: the contents octets of an INTEGER, at most 64.
#[derive(Debug, Drop)]
pub struct Nonce {
    octets: Vec<u8>,
    ghost good: { is_integer_within 64 octets.items ≡ true },
}

impl Nonce {
    /// The nonce of these octets. `None` exactly where they aren't the fewest that say an INTEGER, or more than 64.
    pub(crate) fn new(octets: Vec<u8>) -> Option<Nonce>
        ensures { MatchOption result (is_integer_within 64 octets.items ≡ false)
            (λ nonce. (nonce.octets.items ≡ octets.items) × (is_integer_within 64 octets.items ≡ true)) }
    {
        if is_good(octets.as_slice()) {
            Some(Nonce { octets })
        } else {
            None
        }
    }

    /// The octets.
    pub fn as_slice(&self) -> &[u8]
        ensures octets { result.now ≡ self.now.octets.items }
        ensures good { is_integer_within 64 result.now ≡ true }
    {
        self.octets.as_slice()
    }
}

/// Whether these are the contents of an INTEGER of at most 64 octets, the fewest that say it (X.690 8.3.2).
fn is_good(octets: &[u8]) -> bool
    ensures { result ≡ is_integer_within 64 octets.now }
{
    let is_shortest = match octets {
        [] => false,
        [_] => true,
        [0x00, second, ..] => *second >= 0x80,
        [0xFF, second, ..] => *second < 0x80,
        _ => true,
    };
    is_shortest && octets.len() <= 64
}
