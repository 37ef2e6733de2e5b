//! Signers, as members of a set.

ghost use Rattle.dv_schema.specs.Reading.{read};
ghost use Rattle.dv_schema.specs.Answers.{Passes};
ghost use Rattle.dv_cms.specs.Types.{issuer_and_serial, signer_identifier, signer_version};

use dv_asn1::{AnyValue, Cursor, Decode, Der, Member, Why, read_optional_set, read_set};
use dv_names::{AlgId, Name, Oid};

/// The most octets that the contents of a serial number have.
pub const SERIAL_LIMIT: usize = 20;

/// The tag of a subject key identifier.
const KEY_IDENTIFIER: u8 = 0x80;

/// An Attribute (RFC 5652 5.3), whose values ascend.
pub struct Attribute;

impl Member for Attribute {
    ghost use Rattle.dv_cms.specs.Types.{attribute};

    ghost schema = { attribute };

    #[tactic(auto, unfolding(dv_schema::specs::Reading::read))]
    fn pass(c: &mut Cursor<'_>) -> Result<(), Der> {
        let mut next = c.fork();
        let mut inside = next.enter(0x30)?;
        Oid::read(&mut inside)?;
        read_set::<AnyValue>(&mut inside, 0x31, false)?;
        inside.finish()?;
        *c = next;
        Ok(())
    }
}

/// A SignerInfo (RFC 5652 5.3), whose attributes ascend.
pub struct Signer;

impl Member for Signer {
    ghost use Rattle.dv_cms.specs.Types.{signer_info};

    ghost schema = { signer_info };

    #[tactic(auto, unfolding(dv_schema::specs::Reading::read))]
    fn pass(c: &mut Cursor<'_>) -> Result<(), Der> {
        let mut next = c.fork();
        let mut inside = next.enter(0x30)?;
        pass_version(&mut inside)?;
        pass_identifier(&mut inside)?;
        AlgId::read(&mut inside)?;
        read_optional_set::<Attribute>(&mut inside, 0xA0, true)?;
        AlgId::read(&mut inside)?;
        inside.read_octets()?;
        read_optional_set::<Attribute>(&mut inside, 0xA1, false)?;
        inside.finish()?;
        *c = next;
        Ok(())
    }
}

/// Passes a version. `Value` where it is neither 1 nor 3.
#[tactic(auto, unfolding(dv_schema::specs::Reading::read))]
fn pass_version(c: &mut Cursor<'_>) -> Result<(), Der>
    ensures { Passes result c.old c.new (read signer_version c.old) }
{
    let mut next = c.fork();
    let number = next.read_number(0x02, 3)?;
    if number != 1 && number != 3 {
        return Err(c.refusal(Why::Value));
    }
    *c = next;
    Ok(())
}

/// Passes what names the certificate of the signer: its issuer and serial number, or the identifier of its key.
#[tactic(auto, unfolding(dv_schema::specs::Reading::read))]
fn pass_identifier(c: &mut Cursor<'_>) -> Result<(), Der>
    ensures { Passes result c.old c.new (read signer_identifier c.old) }
{
    if c.next_is(0x30) {
        return pass_issuer(c);
    }
    c.read_tlv(KEY_IDENTIFIER)?;
    Ok(())
}

/// Passes an issuer and a serial number.
#[tactic(auto, unfolding(dv_schema::specs::Reading::read))]
fn pass_issuer(c: &mut Cursor<'_>) -> Result<(), Der>
    ensures { Passes result c.old c.new (read issuer_and_serial c.old) }
{
    let mut next = c.fork();
    let mut inside = next.enter(0x30)?;
    Name::read(&mut inside)?;
    inside.read_integer(SERIAL_LIMIT)?;
    inside.finish()?;
    *c = next;
    Ok(())
}
