//! Lists that are fields of public types.
//!
//! Each holds just the vector that it is made of, and contracts see it as the list of its items.

ghost use Rattle.std.specs.Prelude.{◌≡◌};
ghost use Rattle.dv_asn1.specs.Lists.{lists_of};

use std::marker::Model;

/// Octets.
#[derive(Debug, Drop)]
pub struct Octets {
    octets: Vec<u8>,
}

impl Model for Octets {
    ghost use Rattle.std.specs.Prelude.{List, ℕ};

    ghost Value = { List ℕ };

    ghost view = { λ o. o.octets.items };
}

impl Octets {
    /// The octets of a vector.
    pub fn new(octets: Vec<u8>) -> Octets
        ensures { result ≡ octets.items }
    {
        Octets { octets }
    }

    /// The octets as a slice.
    pub fn as_slice(&self) -> &[u8]
        ensures { result.now ≡ self.now }
    {
        self.octets.as_slice()
    }

    /// The vector that it was made of.
    pub fn into_vec(self) -> Vec<u8>
        ensures { result.items ≡ self }
    {
        self.octets
    }
}

/// A list of lists of octets.
#[derive(Debug, Drop)]
pub struct OctetLists {
    lists: Vec<Vec<u8>>,
}

impl Model for OctetLists {
    ghost use Rattle.std.specs.Prelude.{List, ℕ};
    ghost use Rattle.dv_asn1.specs.Lists.{lists_of};

    ghost Value = { List (List ℕ) };

    ghost view = { λ o. lists_of o.lists.items };
}

impl OctetLists {
    /// The lists of a vector.
    pub fn new(lists: Vec<Vec<u8>>) -> OctetLists
        ensures { result ≡ lists_of lists.items }
    {
        OctetLists { lists }
    }

    /// The lists as a slice.
    pub fn as_slice(&self) -> &[Vec<u8>]
        ensures { lists_of result.now ≡ self.now }
    {
        self.lists.as_slice()
    }

    /// The vector that it was made of.
    pub fn into_vec(self) -> Vec<Vec<u8>>
        ensures { lists_of result.items ≡ self }
    {
        self.lists
    }
}

/// Numbers of 32 bits, such as positions or places.
#[derive(Debug, Drop)]
pub struct Places {
    places: Vec<u32>,
}

impl Model for Places {
    ghost use Rattle.std.specs.Prelude.{List, ℕ};

    ghost Value = { List ℕ };

    ghost view = { λ p. p.places.items };
}

impl Places {
    /// The numbers of a vector.
    pub fn new(places: Vec<u32>) -> Places
        ensures { result ≡ places.items }
    {
        Places { places }
    }

    /// The numbers as a slice.
    pub fn as_slice(&self) -> &[u32]
        ensures { result.now ≡ self.now }
    {
        self.places.as_slice()
    }

    /// The vector that it was made of.
    pub fn into_vec(self) -> Vec<u32>
        ensures { result.items ≡ self }
    {
        self.places
    }
}
