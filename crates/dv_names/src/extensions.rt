//! Lists of extensions, of which no two have one identifier.

ghost use Rattle.std.specs.Prelude.{◌≡◌, ◌/◌, ◌%◌, IfOk, Ok};
ghost use Rattle.std.specs.Option.{option_copied};
ghost use Rattle.dv_schema.specs.Schema.{Body, kept, node};
ghost use Rattle.dv_schema.specs.Types.{free};
ghost use Rattle.dv_schema.specs.Reading.{first_contents, is_tag_of, item_at, maybe_at, read, read_fields, starts_list};
ghost use Rattle.dv_schema.specs.Answers.{Gives, Reads, TellsKey, skipped};
ghost use Rattle.dv_names.specs.Types.{extension_fields, extensions, extensions_under};
ghost use Rattle.dv_names.specs.Turns.{extension_turn};

use dv_asn1::{Cursor, Der, Why};
use dv_repeats::{Keyed, first_repeated};

/// Which extensions have contents that are looked at, and how.
pub trait Known {
    ghost known: { Body };

    /// That the fields of the Extension at this place have the contents that go by its identifier.
    ///
    /// The cursor stands over the fields, which are those of an Extension, with nothing after them.
    fn check(fields: &Cursor<'_>, place: u64) -> Result<(), Der>
        ensures { Gives (λ x. x) result (skipped (read_fields known place fields.now)) };
}

/// No extension's contents are looked at.
pub struct NoneKnown;

impl Known for NoneKnown {
    ghost known = { free };

    #[tactic(auto, unfolding(dv_schema::specs::Reading::read))]
    fn check(_fields: &Cursor<'_>, _place: u64) -> Result<(), Der> {
        Ok(())
    }
}

/// Extensions by their identifiers.
struct ByIdentifier;

impl Keyed for ByIdentifier {
    ghost turn = { extension_turn };

    fn pass_key<'a>(c: &mut Cursor<'a>) -> Option<&'a [u8]> {
        match pass_extension(c) {
            Ok((oid, _)) => Some(oid),
            Err(_) => None,
        }
    }
}

/// That the contents of the list at this place are extensions, at least one, and no two with one identifier.
///
/// For each extension in turn: its own fields and what is left behind them, then `Value` at it where its identifier was
/// there before, then the contents that go by its identifier. No memory is taken. The first repetition is looked for before
/// the contents are, by 1,024 identifiers at a time.
pub fn check_extensions<K: Known>(contents: &Cursor<'_>, place: u64) -> Result<(), Der>
    ensures { Gives (λ x. x) result (skipped (read_fields (extensions K.known) place contents.now)) }
{
    let mut next = contents.fork();
    if next.at_end() {
        return Err(Der::new(place, Why::Value));
    }
    let repeated = first_repeated::<ByIdentifier>(contents);
    let mut number = 0;
    while !next.at_end() {
        let start = next.fork();
        let (_, fields) = pass_extension(&mut next)?;
        if repeated == Some(number) {
            return Err(start.refusal(Why::Value));
        }
        K::check(&fields, start.place())?;
        number += 1;
    }
    Ok(())
}

/// The contents octets of a list of extensions under this constructed tag.
pub fn read_extensions<'a, K: Known>(c: &mut Cursor<'a>, tag: u8) -> Result<&'a [u8], Der>
    requires { tag / 32 % 2 ≡ 1 }
    ensures { Reads (λ x. x.now) result c.old c.new (read (extensions_under tag K.known) c.old) }
{
    let mut next = c.fork();
    let inside = next.enter(tag)?;
    check_extensions::<K>(&inside, c.place())?;
    *c = next;
    Ok(inside.rest())
}

/// The same, where the next value has the tag; None, and nothing read, where it hasn't.
pub fn read_optional_extensions<'a, K: Known>(
    c: &mut Cursor<'a>,
    tag: u8,
) -> Result<Option<&'a [u8]>, Der>
    requires { tag / 32 % 2 ≡ 1 }
    ensures { Reads option_copied result c.old c.new
        (maybe_at (starts_list (is_tag_of tag) c.old.rest) c.old
        (read (extensions_under tag K.known) c.old)) }
{
    if c.next_is(tag) {
        Ok(Some(read_extensions::<K>(c, tag)?))
    } else {
        Ok(None)
    }
}

/// Passes an extension, and gives its identifier and a cursor over its fields.
#[tactic(auto, unfolding(dv_schema::specs::Reading::read))]
fn pass_extension<'a>(c: &mut Cursor<'a>) -> Result<(&'a [u8], Cursor<'a>), Der>
    ensures key { TellsKey first_contents (λ x. x.0.now) result c.old c.new
        (read (node 48 (kept extension_fields)) c.old) }
    ensures fields { IfOk result (λ x. item_at (is_tag_of 48) c.old ≡ Ok (record {
      tag = 48;
      inside = x.1;
      after = c.new;
    })) }
{
    let mut next = c.fork();
    let mut inside = next.enter(0x30)?;
    let fields = inside.fork();
    let oid = inside.read_oid()?;
    inside.read_flag(0x01)?;
    inside.read_octets()?;
    inside.finish()?;
    *c = next;
    Ok((oid, fields))
}
