//! Object identifiers, and algorithms that they name.

ghost use Rattle.std.specs.Prelude.{◌≡◌, ◌≤◌, length};
ghost use Rattle.std.specs.Option.{option_copied};
ghost use Rattle.dv_schema.specs.Schema.{contents as contents_of, spelling};
ghost use Rattle.dv_schema.specs.Types.{oid as oid_type};
ghost use Rattle.dv_schema.specs.Reading.{read};
ghost use Rattle.dv_schema.specs.Decodes.{Decodes, HasSpelling};
ghost use Rattle.dv_asn1.specs.Writing.{room_of, Writes};
ghost use Rattle.dv_names.specs.Types.{algorithm_fields, algorithm_identifier, digest_fields, digest_info};

use dv_asn1::{Cursor, Decode, Der, Writer, header_len};

/// An OBJECT IDENTIFIER, as its contents octets (X.690 8.19).
#[derive(Clone, Copy, Debug)]
pub struct Oid<'a> {
    pub octets: &'a [u8],
    ghost spelled: { ∥ HasSpelling oid_type octets.now ∥₁ },
}

impl<'a> Decode<'a> for Oid<'a> {
    ghost use Rattle.dv_schema.specs.Types.{oid as oid_type};
    ghost use Rattle.dv_names.specs.Views.{view_oid};

    ghost schema = { oid_type };

    ghost view = { view_oid };

    #[tactic(auto, unfolding(dv_schema::specs::Reading::read))]
    fn read(c: &mut Cursor<'a>) -> Result<Oid<'a>, Der> {
        let mut next = c.fork();
        let octets = next.read_oid()?;
        *c = next;
        Ok(Oid { octets })
    }
}

impl<'a> Oid<'a> {
    ghost use Rattle.dv_names.specs.Views.{view_oid};

    /// The identifier at the cursor. After a refusal the cursor is where it was.
    #[tactic(auto, using(dv_schema::proofs::Decoding::decodes))]
    pub fn decode(c: &mut Cursor<'a>) -> Result<Oid<'a>, Der>
        ensures { Decodes oid_type view_oid result c.old c.new }
    {
        let _octets = c.fork();
        Oid::read(c)
    }

    /// How many octets the whole value has.
    pub fn encoded_len(&self) -> usize
        ensures { result ≡ length (spelling oid_type (view_oid self.now)) }
    {
        header_len(self.octets.len()) + self.octets.len()
    }

    /// Writes the whole value.
    pub fn write(&self, out: &mut Writer<'_>)
        requires { length (spelling oid_type (view_oid self.now)) ≤ room_of out.old }
        ensures { Writes out.old out.new (spelling oid_type (view_oid self.now)) }
    {
        out.tlv(0x06, self.octets);
    }
}

/// An AlgorithmIdentifier (RFC 5280 4.1.1.2): the algorithm, and its parameters as one whole value.
#[derive(Clone, Copy, Debug)]
pub struct AlgId<'a> {
    pub oid: Oid<'a>,
    pub params: Option<&'a [u8]>,
    ghost spelled: { ∥ HasSpelling algorithm_identifier (oid.octets.now, (option_copied params, tt)) ∥₁ },
}

impl<'a> Decode<'a> for AlgId<'a> {
    ghost use Rattle.dv_names.specs.Types.{algorithm_identifier};
    ghost use Rattle.dv_names.specs.Views.{view_algorithm};

    ghost schema = { algorithm_identifier };

    ghost view = { view_algorithm };

    #[tactic(auto, unfolding(dv_schema::specs::Reading::read))]
    fn read(c: &mut Cursor<'a>) -> Result<AlgId<'a>, Der> {
        let mut next = c.fork();
        let mut inside = next.enter(0x30)?;
        let oid = Oid::read(&mut inside)?;
        let params = inside.read_optional()?;
        inside.finish()?;
        *c = next;
        Ok(AlgId { oid, params })
    }
}

impl<'a> AlgId<'a> {
    ghost use Rattle.dv_names.specs.Views.{view_algorithm};

    /// The algorithm at the cursor. After a refusal the cursor is where it was.
    #[tactic(auto, using(dv_schema::proofs::Decoding::decodes))]
    pub fn decode(c: &mut Cursor<'a>) -> Result<AlgId<'a>, Der>
        ensures { Decodes algorithm_identifier view_algorithm result c.old c.new }
    {
        let _octets = c.fork();
        AlgId::read(c)
    }

    /// How many octets the whole value has.
    pub fn encoded_len(&self) -> usize
        ensures { result ≡ length (spelling algorithm_identifier (view_algorithm self.now)) }
    {
        let contents = self.contents_len();
        header_len(contents) + contents
    }

    /// Writes the whole value.
    pub fn write(&self, out: &mut Writer<'_>)
        requires { length (spelling algorithm_identifier (view_algorithm self.now)) ≤ room_of out.old }
        ensures { Writes out.old out.new (spelling algorithm_identifier (view_algorithm self.now)) }
    {
        out.header(0x30, self.contents_len());
        self.oid.write(out);
        if let Some(params) = self.params {
            out.bytes(params);
        }
    }

    fn contents_len(&self) -> usize
        ensures { result ≡ length (contents_of algorithm_fields (view_algorithm self.now)) }
    {
        let params = match self.params {
            None => 0,
            Some(params) => params.len(),
        };
        self.oid.encoded_len() + params
    }
}

/// A DigestInfo (RFC 8017 9.2): a digest, and the algorithm that made it.
#[derive(Clone, Copy, Debug)]
pub struct DigestInfo<'a> {
    pub alg: AlgId<'a>,
    pub digest: &'a [u8],
    ghost spelled: { ∥ HasSpelling digest_info ((alg.oid.octets.now, (option_copied alg.params, tt)), (digest.now, tt)) ∥₁ },
}

impl<'a> Decode<'a> for DigestInfo<'a> {
    ghost use Rattle.dv_names.specs.Types.{digest_info};
    ghost use Rattle.dv_names.specs.Views.{view_digest};

    ghost schema = { digest_info };

    ghost view = { view_digest };

    #[tactic(auto, unfolding(dv_schema::specs::Reading::read))]
    fn read(c: &mut Cursor<'a>) -> Result<DigestInfo<'a>, Der> {
        let mut next = c.fork();
        let mut inside = next.enter(0x30)?;
        let alg = AlgId::read(&mut inside)?;
        let digest = inside.read_octets()?;
        inside.finish()?;
        *c = next;
        Ok(DigestInfo { alg, digest })
    }
}

impl<'a> DigestInfo<'a> {
    ghost use Rattle.dv_names.specs.Views.{view_digest};

    /// The digest at the cursor. After a refusal the cursor is where it was.
    #[tactic(auto, using(dv_schema::proofs::Decoding::decodes))]
    pub fn decode(c: &mut Cursor<'a>) -> Result<DigestInfo<'a>, Der>
        ensures { Decodes digest_info view_digest result c.old c.new }
    {
        let _octets = c.fork();
        DigestInfo::read(c)
    }

    /// How many octets the whole value has.
    pub fn encoded_len(&self) -> usize
        ensures { result ≡ length (spelling digest_info (view_digest self.now)) }
    {
        let contents = self.contents_len();
        header_len(contents) + contents
    }

    /// Writes the whole value.
    pub fn write(&self, out: &mut Writer<'_>)
        requires { length (spelling digest_info (view_digest self.now)) ≤ room_of out.old }
        ensures { Writes out.old out.new (spelling digest_info (view_digest self.now)) }
    {
        out.header(0x30, self.contents_len());
        self.alg.write(out);
        out.tlv(0x04, self.digest);
    }

    fn contents_len(&self) -> usize
        ensures { result ≡ length (contents_of digest_fields (view_digest self.now)) }
    {
        self.alg.encoded_len() + header_len(self.digest.len()) + self.digest.len()
    }
}
