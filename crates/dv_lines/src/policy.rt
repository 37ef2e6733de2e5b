//! Policies.
ghost use Rattle.std.specs.Prelude.{◌≡◌, ◌≤◌, length, true};
ghost use Rattle.dv_schema.specs.Rules.{is_oid};
ghost use Rattle.dv_schema.specs.Tlv.{tlv};

/// A policy: the contents octets of its OBJECT IDENTIFIER (X.690 8.19), which with tag and length are at most 2,048.
#[derive(Debug, Drop)]
pub struct Policy {
    octets: Vec<u8>,
    ghost good: { is_oid octets.items ≡ true },
    ghost few: { length (tlv 6 octets.items) ≤ 2048 },
}

impl Policy {
    /// The policy with these octets.
    pub(crate) fn new(octets: Vec<u8>) -> Policy
        requires good { is_oid octets.items ≡ true }
        requires few { length (tlv 6 octets.items) ≤ 2048 }
        ensures { result.octets.items ≡ octets.items }
    {
        Policy { octets }
    }

    /// The octets.
    pub fn as_slice(&self) -> &[u8]
        ensures octets { result.now ≡ self.now.octets.items }
        ensures good { is_oid result.now ≡ true }
        ensures few { length (tlv 6 result.now) ≤ 2048 }
    {
        self.octets.as_slice()
    }
}
