//! Laws of drafts and records, each as a function that does nothing and ensures it.

ghost use Rattle.std.specs.Prelude.{◌≡◌, ◌<◌, ◌≤◌, ◌++◌, ◌^◌, ℕ, List, Ok, length};
ghost use Rattle.std.specs.Str.{IsUtf8};
ghost use Rattle.dv_schema.specs.Schema.{ValueOf, spelling};
ghost use Rattle.dv_schema.specs.Fits.{Fits};
ghost use Rattle.dv_schema.specs.Reading.{read_all};
ghost use Rattle.dv_schema.specs.Tlv.{integer_octets, tlv};
ghost use Rattle.dv_time.specs.Text.{last_second};
ghost use Rattle.dv_members.specs.Members.{front_of};
ghost use Rattle.dv_response.specs.Types.{cert_info};
ghost use Rattle.dv_draft.specs.CertInfo.{after_serial, before_serial, cert_info_of};
ghost use Rattle.dv_draft.specs.Completed.{Completes};
ghost use Rattle.dv_draft.specs.OwnRecords.{own_parts_of, own_record};
ghost use Rattle.dv_draft.specs.Types.{draft};

/// A draft with its serial number is a DVCSCertInfo (RFC 3029 9.1) with the draft's fields, of version 1 and without
/// extensions.
pub fn drafts_are_certificates_of_service()
    ensures { (serial : ℕ) (d : ValueOf draft) → serial < 2 ^ 64 → Fits draft 32 d → length (spelling draft d) < 2 ^ 63
        → (v : ValueOf cert_info) × Fits cert_info 32 v × (cert_info_of serial d ≡ spelling cert_info v) × Completes serial d v }
{}

/// The DVCSCertInfo has the draft's octets before the serial number, the serial number, and the draft's octets behind it.
pub fn serial_numbers_stand_between()
    ensures { (serial : ℕ) (d : ValueOf draft)
        → cert_info_of serial d ≡ tlv 48 (before_serial d ++ tlv 2 (integer_octets serial) ++ after_serial d) }
{}

/// The record of a name and two moments has a spelling, and what has one is read again.
pub fn own_records_are_read_again()
    ensures fits { (name : List ℕ) (from until : ℕ) → IsUtf8 name → length name < 2 ^ 63
        → from ≤ last_second → until ≤ last_second → Fits own_record 32 (own_parts_of name from until) }
    ensures again { (v : ValueOf own_record) → Fits own_record 32 v
        → read_all own_record (front_of (spelling own_record v)) ≡ Ok v }
{}
