//! Which octets may leave the server.

ghost use Rattle.std.specs.Prelude.{◌≡◌, ◌⊎◌, ℕ, List, ◌++◌, Some, slice_get};
ghost use Rattle.dv_outside.specs.Releases.{Identity, Entry};
ghost use Rattle.dv_cert.specs.Certificates.{MayLeave};
ghost use Rattle.dv_cert.specs.Growing.{grown};

use dv_outside::Releases;

/// The rule of the server: while a register holds a list of records, the certificate that a record of it stands for may leave,
/// and so may an error notice (RFC 3029 9.2). Nothing else may.
pub struct NotaryRule;

impl Releases for NotaryRule {
    ghost allows = { MayLeave };

    ghost grows = { λ key first list more octets may. grown key first list more octets may };
}
