//! The imprints that a server makes.

ghost use Rattle.std.specs.Prelude.{◌≡◌, IfOk};
ghost use Rattle.dv_draft.specs.Parts.{view_imprint};
ghost use Rattle.dv_parts.specs.Drafts.{imprint_by_server};

use crate::draft::copied;
use dv_draft::Imprint;
use dv_names::DigestKind;
use sha2::{Digest, Sha256};
use std::alloc::{AllocError, Global};

/// The imprint of octets by SHA-256, without parameters. The octets are hashed once.
pub fn imprint_by_server(alloc: Global, octets: &[u8]) -> Result<Imprint, AllocError>
    ensures { IfOk result (λ i. view_imprint i ≡ imprint_by_server octets.now) }
{
    let digest = Sha256::digest(octets);
    Ok(Imprint {
        kind: DigestKind::Sha256,
        with_null: false,
        digest: copied(alloc, &digest)?,
    })
}
