//! What a request is about.

ghost use Rattle.std.specs.Prelude.{◌≡◌, ◌≤◌, ◌<◌, ◌^◌, IfOk, length};
ghost use Rattle.dv_schema.specs.Schema.{raw as raw_of, spelling};
ghost use Rattle.dv_schema.specs.Reading.{read};
ghost use Rattle.dv_schema.specs.Answers.{Reads};
ghost use Rattle.dv_asn1.specs.Writing.{room_of, Writes};
ghost use Rattle.dv_request.specs.DataView.{count_of, targets_of, view_data};
ghost use Rattle.dv_request.specs.Targets.{targets_in};
ghost use Rattle.dv_request.specs.Types.{data_of_request, target_chains};

use crate::target::TargetChain;
use dv_asn1::{Cursor, Decode, Der, Writer, header_len};
use dv_members::read_counted;
use dv_names::DigestInfo;

/// The tag of a list of targets.
const CERTS: u8 = 0xA0;

/// The Data of a request (RFC 3029 8).
#[derive(Clone, Copy, Debug)]
pub enum Data<'a> {
    /// The octets themselves.
    Message(&'a [u8]),
    /// A digest of them.
    Imprint(DigestInfo<'a>),
    /// The targets whose certificates are to be checked, as the whole value with tag A0, and how many there are.
    Certs { raw: &'a [u8], targets: u32 },
}

impl<'a> Data<'a> {
    /// Reads the data, of which fewer than 2^32 octets are left. After a refusal the cursor is where it was.
    #[tactic(auto, unfolding(dv_schema::specs::Reading::read))]
    pub fn read(c: &mut Cursor<'a>) -> Result<Data<'a>, Der>
        requires { length c.old.rest < 2 ^ 32 }
        ensures read { Reads view_data result c.old c.new (read data_of_request c.old) }
        ensures counted { IfOk result (λ d. count_of d ≡ length (targets_of d)) }
    {
        if c.next_is(0x04) {
            let octets = c.read_octets()?;
            return Ok(Data::Message(octets));
        }
        if c.next_is(0x30) {
            let digest = DigestInfo::read(c)?;
            return Ok(Data::Imprint(digest));
        }
        let (raw, targets) = read_certs(c)?;
        Ok(Data::Certs { raw, targets })
    }

    /// How many octets the whole value has, where a value that holds it has fewer than 2^64.
    pub fn encoded_len(&self) -> usize
        requires { length (spelling data_of_request (view_data self.now)) < 2 ^ 64 }
        ensures { result ≡ length (spelling data_of_request (view_data self.now)) }
    {
        match self {
            Data::Message(octets) => header_len(octets.len()) + octets.len(),
            Data::Imprint(digest) => digest.encoded_len(),
            Data::Certs { raw, .. } => raw.len(),
        }
    }

    /// Writes the whole value.
    pub fn write(&self, out: &mut Writer<'_>)
        requires { length (spelling data_of_request (view_data self.now)) ≤ room_of out.old }
        ensures { Writes out.old out.new (spelling data_of_request (view_data self.now)) }
    {
        match self {
            Data::Message(octets) => out.tlv(0x04, octets),
            Data::Imprint(digest) => digest.write(out),
            Data::Certs { raw, .. } => out.bytes(raw),
        }
    }
}

/// Reads the whole value that lists targets, and counts them.
fn read_certs<'a>(c: &mut Cursor<'a>) -> Result<(&'a [u8], u32), Der>
    requires { length c.old.rest < 2 ^ 32 }
    ensures read { Reads (λ x. x.0.now) result c.old c.new (read (raw_of (target_chains 160)) c.old) }
    ensures counted { IfOk result (λ x. x.1 ≡ length (targets_in x.0.now)) }
{
    let mut next = c.fork();
    let (_, targets) = read_counted::<TargetChain>(&mut next, CERTS, true)?;
    let raw = c.up_to(&next);
    *c = next;
    Ok((raw, targets as u32))
}
