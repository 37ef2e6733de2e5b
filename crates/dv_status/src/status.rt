//! The status of a request.

ghost use Rattle.std.specs.Prelude.{◌≡◌, ◌≤◌, ◌-◌, ◌/◌, ◌%◌, ◌^◌, length, None, option_map};
ghost use Rattle.std.specs.Option.{ForSome, option_copied};
ghost use Rattle.dv_schema.specs.Schema.{contents as contents_of, spelling};
ghost use Rattle.dv_schema.specs.Reading.{is_tag_of, maybe_at, read, starts_list};
ghost use Rattle.dv_schema.specs.Answers.{Reads};
ghost use Rattle.dv_schema.specs.Decodes.{Decodes, HasSpelling};
ghost use Rattle.dv_asn1.specs.Writing.{room_of, Writes};
ghost use Rattle.dv_status.specs.Fail.{fail_octets};
ghost use Rattle.dv_status.specs.Types.{fail_info, status_fields, status_info};

use crate::fail::FailBits;
use dv_asn1::{
    Cursor, Decode, Der, Member, Why, Writer, header_len, number_len, read_optional_list,
};

/// A PKIStatusInfo (RFC 4210 5.2.3): the status, 0 to 6, the contents octets of its texts, and its failure bits.
///
/// 0 is granted, 1 grantedWithMods, 2 rejection; 3 to 6 are read and never written.
#[derive(Clone, Copy, Debug)]
pub struct StatusInfo<'a> {
    pub status: u8,
    pub text: Option<&'a [u8]>,
    pub fail: Option<FailBits>,
    ghost spelled: { ∥ HasSpelling (status_info 48) (status, (option_copied text, (option_map fail_octets fail, tt))) ∥₁ },
}

impl<'a> Decode<'a> for StatusInfo<'a> {
    ghost use Rattle.dv_status.specs.Types.{status_info};
    ghost use Rattle.dv_status.specs.Views.{view_status};

    ghost schema = { status_info 48 };

    ghost view = { view_status };

    fn read(c: &mut Cursor<'a>) -> Result<StatusInfo<'a>, Der> {
        StatusInfo::read_under(c, 0x30)
    }
}

impl<'a> StatusInfo<'a> {
    ghost use Rattle.dv_status.specs.Views.{view_status};

    /// A status without texts, and with one failure bit at most.
    pub fn new(status: u8, bit: Option<u8>) -> StatusInfo<'a>
        requires status { status ≤ 6 }
        requires bit { ForSome bit (λ b. b ≤ 26) }
        ensures status { result.status ≡ status }
        ensures text { result.text ≡ None }
        ensures fail { result.fail ≡ option_map (λ b. 2 ^ (31 - b)) bit }
    {
        StatusInfo {
            status,
            text: None,
            fail: fail_of(bit),
        }
    }

    /// The status at the cursor. After a refusal the cursor is where it was.
    #[tactic(auto, using(dv_schema::proofs::Decoding::decodes))]
    pub fn decode(c: &mut Cursor<'a>) -> Result<StatusInfo<'a>, Der>
        ensures { Decodes (status_info 48) view_status result c.old c.new }
    {
        let _octets = c.fork();
        StatusInfo::read(c)
    }

    /// Reads a status under this constructed tag, in place of that of a SEQUENCE.
    #[tactic(auto, unfolding(dv_schema::specs::Reading::read))]
    pub fn read_under(c: &mut Cursor<'a>, tag: u8) -> Result<StatusInfo<'a>, Der>
        requires { tag / 32 % 2 ≡ 1 }
        ensures { Reads view_status result c.old c.new (read (status_info tag) c.old) }
    {
        let mut next = c.fork();
        let mut inside = next.enter(tag)?;
        let status = inside.read_number(0x02, 6)?;
        let text = read_optional_list::<Text>(&mut inside, 0x30, true)?;
        let fail = read_fail(&mut inside)?;
        inside.finish()?;
        *c = next;
        Ok(StatusInfo {
            status: status as u8,
            text,
            fail,
        })
    }

    /// How many octets the whole value has, under whichever tag.
    pub fn encoded_len(&self) -> usize
        ensures { result ≡ length (spelling (status_info 48) (view_status self.now)) }
    {
        let contents = self.contents_len();
        header_len(contents) + contents
    }

    /// Writes the whole value.
    pub fn write(&self, out: &mut Writer<'_>)
        requires { length (spelling (status_info 48) (view_status self.now)) ≤ room_of out.old }
        ensures { Writes out.old out.new (spelling (status_info 48) (view_status self.now)) }
    {
        self.write_under(0x30, out);
    }

    /// Writes the whole value under this tag, in place of that of a SEQUENCE.
    pub fn write_under(&self, tag: u8, out: &mut Writer<'_>)
        requires { length (spelling (status_info tag) (view_status self.now)) ≤ room_of out.old }
        ensures { Writes out.old out.new (spelling (status_info tag) (view_status self.now)) }
    {
        out.header(tag, self.contents_len());
        out.number(0x02, self.status as u64);
        if let Some(text) = self.text {
            out.tlv(0x30, text);
        }
        if let Some(fail) = self.fail {
            fail.write(out);
        }
    }

    fn contents_len(&self) -> usize
        ensures { result ≡ length (contents_of status_fields (view_status self.now)) }
    {
        let status = number_len(self.status as u64);
        let text = match self.text {
            None => 0,
            Some(text) => header_len(text.len()) + text.len(),
        };
        let fail = match self.fail {
            None => 0,
            Some(fail) => 2 + fail.contents_len(),
        };
        header_len(status) + status + text + fail
    }
}

/// A text of a status, whose octets aren't looked at.
struct Text;

impl Member for Text {
    ghost use Rattle.dv_status.specs.Types.{utf8_string};

    ghost schema = { utf8_string };

    fn pass(c: &mut Cursor<'_>) -> Result<(), Der> {
        c.read_tlv(0x0C)?;
        Ok(())
    }
}

/// The set of this bit alone, where there is one.
fn fail_of(bit: Option<u8>) -> Option<FailBits>
    requires { ForSome bit (λ b. b ≤ 26) }
    ensures { result ≡ option_map (λ b. 2 ^ (31 - b)) bit }
{
    match bit {
        None => None,
        Some(bit) => Some(FailBits::of(bit)),
    }
}

/// Reads failure bits, where a BIT STRING is there. `Value` where it spells none.
#[tactic(auto, unfolding(dv_schema::specs::Reading::read))]
fn read_fail(c: &mut Cursor<'_>) -> Result<Option<FailBits>, Der>
    ensures { Reads (option_map fail_octets) result c.old c.new
        (maybe_at (starts_list (is_tag_of 3) c.old.rest) c.old (read fail_info c.old)) }
{
    if !c.next_is(0x03) {
        return Ok(None);
    }
    let mut next = c.fork();
    let contents = next.read_tlv(0x03)?;
    match FailBits::of_contents(contents) {
        None => Err(c.refusal(Why::Value)),
        Some(fail) => {
            *c = next;
            Ok(Some(fail))
        }
    }
}

#[cfg(test)]
mod tests;
