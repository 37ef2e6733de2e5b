//! Room for a certificate of service: all that its signing needs, taken before its serial number is known.

ghost use Rattle.std.specs.Prelude.{◌≡◌, ◌≤◌, ℕ, All, IfOk, IsSome, List, Some, length};
ghost use Rattle.dv_schema.specs.Schema.{ValueOf};
ghost use Rattle.dv_asn1.specs.Lists.{lists_of};
ghost use Rattle.dv_draft.specs.CertInfo.{cert_info_of};
ghost use Rattle.dv_draft.specs.Records.{IsCertificate};
ghost use Rattle.dv_draft.specs.Types.{draft as draft_type};
ghost use Rattle.dv_draft.specs.Views.{view_draft};
ghost use Rattle.dv_cert.specs.Rooms.{Held, IsReady, IsRoomOf, has_serial};
ghost use Rattle.dv_cert.specs.Sealed.{own_of, sealed, signed_by};

use crate::PART_LIMIT;
use crate::attributes::{ATTRIBUTES_LEN, SIGNED_LEN, attributes, set_of};
use crate::draft_parts::{after_serial, before_serial};
use crate::info::Info;
use crate::message::Message;
use crate::order::{ascending, joined};
use crate::signer::{SignerInfo, signer_of_own};
use dv_draft::Draft;
use sha2::{Digest, Sha256};
use std::alloc::{AllocError, Global};
use std::marker::Model;

/// At most so many octets stand in a message beside the parts of a room: the headers, the identifiers, the serial number, the
/// attributes and the signature.
const MORE: usize = 1800;

/// Room for one certificate of service: its draft, the certificates of the server, and memory for the message.
///
/// Contracts see it as what it holds; `IsRoomOf` says of which draft and certificates it is one.
#[derive(Drop)]
pub struct Room {
    before: Vec<u8>,
    after: Vec<u8>,
    certificates: Vec<u8>,
    signer: Vec<u8>,
    own_digest: [u8; 32],
    serial: Option<u64>,
    attributes: [u8; ATTRIBUTES_LEN],
    out: Vec<u8>,
}

impl Model for Room {
    ghost use Rattle.std.specs.Prelude.{length};
    ghost use Rattle.dv_cert.specs.Rooms.{Held, IsReady};

    ghost Value = { Held };

    ghost view = { λ r. record {
      before = r.before.items;
      after = r.after.items;
      certificates = r.certificates.items;
      signer = r.signer.items;
      own_digest = r.own_digest;
      serial = r.serial;
    } };

    ghost invariant = { λ r. IsReady r.before.items r.after.items r.certificates.items r.signer.items r.own_digest r.serial r.attributes (length r.out.items) };
}

impl Room {
    /// Takes room for the certificate of service of a draft, signed by the holder of the first of these certificates.
    ///
    /// All memory is taken here: copies of the parts, and the octets of the longest message of them.
    pub fn new(alloc: Global, draft: &Draft, certificates: &[Vec<u8>]) -> Result<Room, AllocError>
        requires some { 1 ≤ length certificates.now }
        requires few { length certificates.now ≤ 6 }
        requires decoded { All IsCertificate (lists_of certificates.now) }
        ensures { IfOk result (λ r. IsRoomOf r (view_draft draft.now) (lists_of certificates.now)) }
    {
        let own = certificates[0].as_slice();
        let own_digest = Sha256::digest(own);
        let signer = signer_of_own(alloc, own)?;
        let sorted = ascending(alloc, certificates)?;
        let certificates = joined(alloc, &sorted)?;
        let before = before_serial(alloc, draft)?;
        let after = after_serial(alloc, draft)?;
        if before.len() > PART_LIMIT || after.len() > PART_LIMIT {
            return Err(AllocError);
        }
        if certificates.len() > PART_LIMIT || signer.len() > PART_LIMIT {
            return Err(AllocError);
        }
        let len = before.len() + after.len() + certificates.len() + signer.len() + MORE;
        let out = vec![in alloc; 0u8; len]?;
        Ok(Room {
            before,
            after,
            certificates,
            signer,
            own_digest,
            serial: None,
            attributes: [0; ATTRIBUTES_LEN],
            out,
        })
    }

    /// The octets that are to be signed for a certificate with this serial number, 137 of them (RFC 5652 5.4).
    ///
    /// It takes no memory, and may be called again with another number.
    pub fn to_sign(&mut self, serial: u64) -> [u8; SIGNED_LEN]
        ensures octets { (d : ValueOf draft_type) (certificates : List (List ℕ)) → IsRoomOf self.old d certificates
            → result ≡ signed_by (own_of certificates) (cert_info_of serial d) }
        ensures room { (d : ValueOf draft_type) (certificates : List (List ℕ)) → IsRoomOf self.old d certificates → IsRoomOf self.new d certificates }
        ensures serial { has_serial self.new ≡ Some serial }
    {
        let info = Info {
            before: self.before.as_slice(),
            serial,
            after: self.after.as_slice(),
        };
        let content = info.digest();
        self.attributes = attributes(&content, &self.own_digest);
        self.serial = Some(serial);
        set_of(&self.attributes)
    }

    /// The certificate of service, for the serial number that was given last and this signature of an HSS key of height 5.
    ///
    /// It takes no memory.
    pub fn finish(self, signature: &[u8]) -> Vec<u8>
        requires serial { IsSome (has_serial self) }
        requires len { length signature.now ≡ 1296 }
        ensures { (d : ValueOf draft_type) (certificates : List (List ℕ)) (serial : ℕ) → IsRoomOf self d certificates → has_serial self ≡ Some serial
            → result.items ≡ sealed certificates (cert_info_of serial d) signature.now }
    {
        let Some(serial) = self.serial else {
            unreachable!();
        };
        let mut out = self.out;
        let info = Info {
            before: self.before.as_slice(),
            serial,
            after: self.after.as_slice(),
        };
        let signer = SignerInfo {
            signer: self.signer.as_slice(),
            attributes: &self.attributes,
            signature,
        };
        let certificates = self.certificates.as_slice();
        let message = Message {
            certificates,
            info,
            signer,
        };
        out.truncate(message.encoded_len());
        message.fill(&mut out);
        out
    }
}

#[cfg(test)]
mod tests;
