//! The certificates among which a path is searched.

ghost use Rattle.std.specs.Prelude.{◌≡◌, ◌≤◌, ◌<◌, ◌⊎◌, ◌↔◌, ◌++◌, ◌∷◌, [], Err, IfOk, IsErrOf, IsTrue, OnErr, OnOk, Some, length, option_map, slice_get};
ghost use Rattle.dv_x509.specs.declared.fault.X509.{X509};
ghost use Rattle.dv_x509.specs.Judged.{certificate_in};
ghost use Rattle.dv_x509.specs.View.{view_certificate};
ghost use Rattle.dv_path.specs.Members.{Adds, IsMember, member_of};

use crate::faults::BagFault;
use dv_x509::Certificate;
use std::alloc::{AllocError, Global};
use std::marker::Model;

/// The most certificates that a bag holds.
pub const BAG_LIMIT: usize = 16;

/// A certificate of a bag: its octets, and the tag under which they are one. Contracts see it as the certificate's value.
#[derive(Debug, Drop)]
struct Member {
    octets: Vec<u8>,
    tag: u8,
}

impl Model for Member {
    ghost use Rattle.dv_schema.specs.Schema.{FieldsOf};
    ghost use Rattle.dv_x509.specs.Types.{certificate_fields};
    ghost use Rattle.dv_path.specs.Members.{IsMember, member_of};

    ghost Value = { FieldsOf certificate_fields };

    ghost view = { λ m. member_of m.tag m.octets.items };

    ghost invariant = { λ m. IsMember m.tag m.octets.items };
}

impl Member {
    /// The certificate.
    fn certificate(&self) -> Certificate<'_>
        ensures { view_certificate result ≡ self.now }
    {
        match Certificate::decode(&self.octets, self.tag) {
            Ok(certificate) => certificate,
            Err(_) => unreachable!(),
        }
    }
}

/// At most 16 certificates of keys (RFC 5280 4.1). Contracts see it as the list of their values.
#[derive(Debug, Drop)]
pub struct Bag {
    alloc: Global,
    members: Vec<Member>,
}

impl Model for Bag {
    ghost use Rattle.std.specs.Prelude.{◌≤◌, List, length};
    ghost use Rattle.dv_schema.specs.Schema.{FieldsOf};
    ghost use Rattle.dv_x509.specs.Types.{certificate_fields};

    ghost Value = { List (FieldsOf certificate_fields) };

    ghost view = { λ b. b.members.items };

    ghost invariant = { λ b. length b.members.items ≤ 16 };
}

impl Bag {
    /// A bag without certificates. It takes no memory.
    pub fn new(alloc: Global) -> Bag
        ensures { result ≡ [] }
    {
        Bag {
            alloc,
            members: Vec::new(alloc),
        }
    }

    /// How many certificates the bag holds.
    pub fn len(&self) -> usize
        ensures value { result ≡ length self.now }
        ensures few { result ≤ 16 }
    {
        self.members.len()
    }

    /// Whether the bag holds no certificate.
    pub fn is_empty(&self) -> bool
        ensures { IsTrue result ↔ (self.now ≡ []) }
    {
        self.members.is_empty()
    }

    /// Adds the certificate that the octets are under this tag, 30 or A0 (hexadecimal), and gives its position, counted
    /// from 0.
    ///
    /// [`BagFault::Full`] comes exactly where the bag holds 16 certificates, and else [`BagFault::Bad`] exactly where the
    /// octets don't decode. After a refusal the bag is as it was.
    pub fn add(&mut self, certificate: &[u8], tag: u8) -> Result<u32, BagFault>
        requires { (tag ≡ 48) ⊎ (tag ≡ 160) }
        ensures position { IfOk result (λ position. position ≡ length self.old) }
        ensures added { OnOk result (Adds self.old self.new tag certificate.now) }
        ensures full { IsErrOf result BagFault.Full ↔ (length self.old ≡ 16) }
        ensures bad { (cause : X509) → IsErrOf result (BagFault.Bad cause)
            ↔ ((length self.old < 16) × (certificate_in tag certificate.now ≡ Err cause)) }
        ensures err { OnErr result (self.new ≡ self.old) }
    {
        if self.members.len() == BAG_LIMIT {
            return Err(BagFault::Full);
        }
        if let Err(cause) = Certificate::decode(certificate, tag) {
            return Err(BagFault::Bad(cause));
        }
        let position = self.members.len() as u32;
        self.keep(certificate, tag)?;
        Ok(position)
    }

    /// Adds a copy of a certificate.
    fn keep(&mut self, certificate: &[u8], tag: u8) -> Result<(), AllocError>
        requires room { length self.old < 16 }
        requires member { IsMember tag certificate.now }
        ensures added { OnOk result (self.new ≡ self.old ++ member_of tag certificate.now ∷ []) }
        ensures err { OnErr result (self.new ≡ self.old) }
    {
        let octets = certificate.to_vec(self.alloc)?;
        self.members.push(Member { octets, tag })?;
        Ok(())
    }

    /// The certificate at a position, counted from 0; None exactly past the last one.
    pub fn get(&self, position: usize) -> Option<Certificate<'_>>
        ensures { option_map view_certificate result ≡ slice_get self.now position }
    {
        if position >= self.len() {
            return None;
        }
        Some(self.member(position))
    }

    /// The certificate at a position.
    pub(crate) fn member(&self, position: usize) -> Certificate<'_>
        requires { position < length self.now }
        ensures { slice_get self.now position ≡ Some (view_certificate result) }
    {
        let member = &self.members[position];
        member.certificate()
    }
}
