//! Certificates that were read and not yet judged.

ghost use Rattle.std.specs.Prelude.{◌≡◌, ◌/◌, ◌%◌, IfOk, Some, None};
ghost use Rattle.std.specs.Option.{option_copied};
ghost use Rattle.dv_schema.specs.Schema.{contents as contents_of, spelling};
ghost use Rattle.dv_schema.specs.Reading.{read, read_all};
ghost use Rattle.dv_schema.specs.Answers.{Gives, Reads};
ghost use Rattle.dv_names.specs.Views.{view_algorithm};
ghost use Rattle.dv_x509.specs.Fields.{view_version};
ghost use Rattle.dv_x509.specs.Judged.{is_known_version as known_version, same_algorithm as algorithms_agree, same_parameters as parameters_agree};
ghost use Rattle.dv_x509.specs.TbsView.{view_tbs};
ghost use Rattle.dv_x509.specs.Types.{certificate, certificate_fields, tbs_certificate};
ghost use Rattle.dv_x509.specs.WholeView.{view_whole};

use crate::tbs::Tbs;
use dv_asn1::{Cursor, Decode, Der, same};
use dv_names::AlgId;

/// The fields of a Certificate (RFC 5280 4.1.1).
#[derive(Clone, Copy)]
pub(crate) struct Whole<'a> {
    /// The contents octets.
    pub(crate) body: &'a [u8],
    /// The whole octets of the signed part.
    pub(crate) signed: &'a [u8],
    pub(crate) tbs: Tbs<'a>,
    pub(crate) alg: AlgId<'a>,
    /// The unused bits and the octets of the signature.
    pub(crate) signature: (u8, &'a [u8]),
}

impl<'a> Whole<'a> {
    /// Reads a Certificate under this tag, and that nothing is left behind it.
    #[tactic(auto, unfolding(dv_schema::specs::Reading::read))]
    pub(crate) fn read_all(c: &mut Cursor<'a>, tag: u8) -> Result<Whole<'a>, Der>
        requires { tag / 32 % 2 ≡ 1 }
        ensures value { Gives view_whole result (read_all (certificate tag) c.old) }
        ensures body { IfOk result (λ w. w.body.now ≡ contents_of certificate_fields (view_whole w)) }
        ensures signed { IfOk result (λ w. w.signed.now ≡ spelling tbs_certificate (view_tbs w.tbs)) }
    {
        match Whole::read(c, tag) {
            Err(refusal) => Err(refusal),
            Ok(whole) => match c.fork().finish() {
                Err(refusal) => Err(refusal),
                Ok(()) => Ok(whole),
            },
        }
    }

    /// Reads a Certificate under this tag.
    #[tactic(auto, unfolding(dv_schema::specs::Reading::read))]
    fn read(c: &mut Cursor<'a>, tag: u8) -> Result<Whole<'a>, Der>
        requires { tag / 32 % 2 ≡ 1 }
        ensures value { Reads view_whole result c.old c.new (read (certificate tag) c.old) }
        ensures body { IfOk result (λ w. w.body.now ≡ contents_of certificate_fields (view_whole w)) }
        ensures signed { IfOk result (λ w. w.signed.now ≡ spelling tbs_certificate (view_tbs w.tbs)) }
    {
        let mut next = c.fork();
        let mut inside = next.enter(tag)?;
        let start = inside.fork();
        let tbs = match Tbs::read(&mut inside) {
            Ok(tbs) => tbs,
            Err(refusal) => return Err(refusal),
        };
        let signed = start.up_to(&inside);
        let alg = AlgId::read(&mut inside)?;
        let signature = inside.read_bits(0x03)?;
        inside.finish()?;
        *c = next;
        Ok(Whole {
            body: start.rest(),
            signed,
            tbs,
            alg,
            signature,
        })
    }

    /// Whether the version is absent, 1 or 2.
    pub(crate) fn has_known_version(&self) -> bool
        ensures { result ≡ known_version (view_version self.now.tbs.version) }
    {
        match self.tbs.version {
            None => true,
            Some(version) => same(version, &[1]) || same(version, &[2]),
        }
    }

    /// Whether the algorithm in the signed part is the one of the signature.
    pub(crate) fn has_one_algorithm(&self) -> bool
        ensures { result ≡ algorithms_agree (view_algorithm self.now.tbs.alg) (view_algorithm self.now.alg) }
    {
        same(self.tbs.alg.oid.octets, self.alg.oid.octets)
            && same_parameters(self.tbs.alg.params, self.alg.params)
    }
}

/// Whether the parameters are the same octets, or absent in both.
fn same_parameters(left: Option<&[u8]>, right: Option<&[u8]>) -> bool
    ensures { result ≡ parameters_agree (option_copied left.entry) (option_copied right.entry) }
{
    match (left, right) {
        (None, None) => true,
        (Some(left), Some(right)) => same(left, right),
        _ => false,
    }
}
