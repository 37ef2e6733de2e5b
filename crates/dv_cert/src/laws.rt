//! What may leave the server, each law as a function that does nothing and ensures it.

ghost use Rattle.std.specs.Prelude.{◌≡◌, ◌≤◌, ◌+◌, ℕ, List, Ok, Some, slice_get};
ghost use Rattle.dv_schema.specs.Reading.{read_all};
ghost use Rattle.dv_schema.specs.Schema.{ValueOf};
ghost use Rattle.dv_outside.specs.Releases.{Identity, Entry};
ghost use Rattle.dv_lms.specs.Identity.{Identity as Key};
ghost use Rattle.dv_lms.specs.Signed.{public_of};
ghost use Rattle.dv_members.specs.Members.{front_of};
ghost use Rattle.dv_x509.specs.Own.{OwnTbs};
ghost use Rattle.dv_draft.specs.CertInfo.{cert_info_of};
ghost use Rattle.dv_draft.specs.OwnRecords.{own_record};
ghost use Rattle.dv_draft.specs.Records.{record_in};
ghost use Rattle.dv_draft.specs.Types.{draft};
ghost use Rattle.dv_cert.specs.Certificates.{MayLeave, key_of, moment_of, own_signed, sealed_with};
ghost use Rattle.dv_cert.specs.Notice.{notice_of};
ghost use Rattle.dv_cert.specs.Notices.{IsTransaction};

/// The certificate of service of a draft may leave while a register holds its record, signed with the leaf at its index.
#[tactic(auto, using(crate::proofs::LeaveLemmas::service_leaves))]
pub fn certificates_of_service_may_leave()
    ensures { (key : Identity) (held : Key) (first index : ℕ) (list : List Entry) (entry : Entry) (certificates : List (List ℕ)) (d : ValueOf draft)
        → key_of key ≡ Some held → slice_get list index ≡ Some entry → entry.kind ≡ 2 → record_in entry.contents ≡ Ok (certificates, d)
        → MayLeave key first list (sealed_with held index certificates (cert_info_of (first + index) d)) }
{}

/// The own certificate of a register may leave while it holds its record.
#[tactic(auto, using(crate::proofs::LeaveLemmas::own_leaves))]
pub fn own_certificates_may_leave()
    ensures { (key : Identity) (held : Key) (first index : ℕ) (list : List Entry) (entry : Entry) (v : ValueOf own_record)
        → key_of key ≡ Some held → slice_get list index ≡ Some entry → entry.kind ≡ 1 → read_all own_record (front_of entry.contents) ≡ Ok v
        → MayLeave key first list (own_signed held index (OwnTbs v.0 (moment_of v.1.0) (moment_of v.1.1.0) (public_of held) (first + index))) }
{}

/// A notice may leave whatever the register holds.
#[tactic(auto, using(crate::proofs::LeaveLemmas::notice_leaves))]
pub fn notices_may_leave()
    ensures { (key : Identity) (first : ℕ) (list : List Entry) (transaction : List ℕ) (bit : ℕ) → bit ≤ 26 → IsTransaction transaction
        → MayLeave key first list (notice_of transaction bit) }
{}
