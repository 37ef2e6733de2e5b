//! The contents of the extensions that are known.

ghost use Rattle.std.specs.Prelude.{◌≡◌, ℕ, IfOk, IfSome, true};
ghost use Rattle.std.specs.Option.{option_copied};
ghost use Rattle.dv_schema.specs.Schema.{done, field, key_place};
ghost use Rattle.dv_schema.specs.Rules.{flag_octets};
ghost use Rattle.dv_schema.specs.Reading.{is_tag_of, maybe_at, read, read_fields, starts_list};
ghost use Rattle.dv_schema.specs.Answers.{Gives, Reads, skipped};
ghost use Rattle.dv_schema.specs.Types.{primitive};
ghost use Rattle.dv_x509.specs.Types.{authority_key_identifier, basic_constraints, certificate_policies, is_bound as is_bound_rule, key_usage, known_contents, known_extension, known_identifiers, purposes, subject_key_identifier};

use dv_asn1::{Cursor, Der, Member, Why, read_list, same};
use dv_names::identifiers::{
    AUTHORITY_KEY_IDENTIFIER, BASIC_CONSTRAINTS, CERTIFICATE_POLICIES, EXTENDED_KEY_USAGE,
    KEY_USAGE, SUBJECT_KEY_IDENTIFIER,
};
use dv_names::{Known, Oid, PolicyInfo};

/// The tag of an AuthorityKeyIdentifier.
const SEQUENCE: u8 = 0x30;

/// The extensions of certificates whose contents are looked at (RFC 5280 4.2.1).
pub struct KnownExtensions;

impl Known for KnownExtensions {
    ghost use Rattle.dv_x509.specs.Types.{known_extension};

    ghost known = { known_extension };

    #[tactic(auto, unfolding(dv_schema::specs::Reading::read))]
    fn check(fields: &Cursor<'_>, _place: u64) -> Result<(), Der> {
        let mut next = fields.fork();
        let oid = next.read_oid()?;
        next.read_flag(0x01)?;
        let place = next.place();
        let contents = next.enter_string(0x04)?;
        check_contents(known_place(oid), &contents, place)?;
        next.finish()
    }
}

/// The place of an identifier that is none of those of the known extensions.
pub(crate) const UNKNOWN: u8 = 6;

/// The place of an identifier among those of the known extensions.
pub(crate) fn known_place(oid: &[u8]) -> u8
    ensures { result ≡ key_place known_identifiers oid.now }
{
    if same(oid, &KEY_USAGE) {
        0
    } else if same(oid, &EXTENDED_KEY_USAGE) {
        1
    } else if same(oid, &BASIC_CONSTRAINTS) {
        2
    } else if same(oid, &SUBJECT_KEY_IDENTIFIER) {
        3
    } else if same(oid, &AUTHORITY_KEY_IDENTIFIER) {
        4
    } else if same(oid, &CERTIFICATE_POLICIES) {
        5
    } else {
        UNKNOWN
    }
}

/// That the value of an extension is one value of the type that goes by the identifier's place, and nothing after it.
fn check_contents(known: u8, contents: &Cursor<'_>, place: u64) -> Result<(), Der>
    ensures { Gives (λ x. x) result (skipped (read_fields (known_contents known) place contents.now)) }
{
    match known {
        0 => check_usage(contents),
        1 => check_purposes(contents),
        2 => check_constraints(contents),
        3 => check_subject_key(contents),
        4 => check_authority_key(contents),
        5 => check_policies(contents),
        _ => Ok(()),
    }
}

#[tactic(auto, unfolding(dv_schema::specs::Reading::read))]
fn check_usage(contents: &Cursor<'_>) -> Result<(), Der>
    ensures { (place : ℕ) → Gives (λ x. x) result (skipped (read_fields (field key_usage done) place contents.now)) }
{
    let mut next = contents.fork();
    next.read_bits(0x03)?;
    next.finish()?;
    Ok(())
}

#[tactic(auto, unfolding(dv_schema::specs::Reading::read))]
fn check_purposes(contents: &Cursor<'_>) -> Result<(), Der>
    ensures { (place : ℕ) → Gives (λ x. x) result (skipped (read_fields (field purposes done) place contents.now)) }
{
    let mut next = contents.fork();
    read_list::<Purpose>(&mut next, SEQUENCE, true)?;
    next.finish()?;
    Ok(())
}

#[tactic(auto, unfolding(dv_schema::specs::Reading::read))]
fn check_constraints(contents: &Cursor<'_>) -> Result<(), Der>
    ensures { (place : ℕ) → Gives (λ x. x) result (skipped (read_fields (field basic_constraints done) place contents.now)) }
{
    let mut next = contents.fork();
    read_constraints(&mut next)?;
    next.finish()?;
    Ok(())
}

#[tactic(auto, unfolding(dv_schema::specs::Reading::read))]
fn check_subject_key(contents: &Cursor<'_>) -> Result<(), Der>
    ensures { (place : ℕ) → Gives (λ x. x) result (skipped (read_fields (field subject_key_identifier done) place contents.now)) }
{
    let mut next = contents.fork();
    next.read_octets()?;
    next.finish()?;
    Ok(())
}

#[tactic(auto, unfolding(dv_schema::specs::Reading::read))]
fn check_authority_key(contents: &Cursor<'_>) -> Result<(), Der>
    ensures { (place : ℕ) → Gives (λ x. x) result (skipped (read_fields (field authority_key_identifier done) place contents.now)) }
{
    let mut next = contents.fork();
    next.skip_one_of(&[SEQUENCE])?;
    next.finish()?;
    Ok(())
}

#[tactic(auto, unfolding(dv_schema::specs::Reading::read))]
fn check_policies(contents: &Cursor<'_>) -> Result<(), Der>
    ensures { (place : ℕ) → Gives (λ x. x) result (skipped (read_fields (field certificate_policies done) place contents.now)) }
{
    let mut next = contents.fork();
    read_list::<PolicyInfo>(&mut next, SEQUENCE, true)?;
    next.finish()?;
    Ok(())
}

/// One purpose of a key (RFC 5280 4.2.1.12), as a member of a list.
pub(crate) struct Purpose;

impl Member for Purpose {
    ghost use Rattle.dv_schema.specs.Types.{oid as oid_type};

    ghost schema = { oid_type };

    #[tactic(auto, unfolding(dv_schema::specs::Reading::read))]
    fn pass(c: &mut Cursor<'_>) -> Result<(), Der> {
        c.read_oid()?;
        Ok(())
    }
}

/// BasicConstraints (RFC 5280 4.2.1.9).
#[derive(Clone, Copy)]
pub(crate) struct Constraints<'a> {
    pub(crate) authority: bool,
    /// The contents octets of the pathLenConstraint.
    pub(crate) bound: Option<&'a [u8]>,
}

/// Reads BasicConstraints.
#[tactic(auto, unfolding(dv_schema::specs::Reading::read))]
pub(crate) fn read_constraints<'a>(c: &mut Cursor<'a>) -> Result<Constraints<'a>, Der>
    ensures value { Reads (λ x. (flag_octets x.authority, (option_copied x.bound, tt))) result c.old c.new (read basic_constraints c.old) }
    ensures bound { IfOk result (λ x. IfSome x.bound (λ b. is_bound_rule b.now ≡ true)) }
{
    let mut next = c.fork();
    let mut inside = next.enter(SEQUENCE)?;
    let authority = inside.read_flag(0x01)?;
    let bound = read_bound(&mut inside)?;
    inside.finish()?;
    *c = next;
    Ok(Constraints { authority, bound })
}

/// Reads a pathLenConstraint, where its tag is there. `Value` where it is negative.
#[tactic(auto, unfolding(dv_schema::specs::Reading::read))]
fn read_bound<'a>(c: &mut Cursor<'a>) -> Result<Option<&'a [u8]>, Der>
    ensures value { Reads option_copied result c.old c.new
        (maybe_at (starts_list (is_tag_of 2) c.old.rest) c.old (read (primitive 2 is_bound_rule) c.old)) }
    ensures bound { IfOk result (λ x. IfSome x (λ b. is_bound_rule b.now ≡ true)) }
{
    if !c.next_is(0x02) {
        return Ok(None);
    }
    let mut next = c.fork();
    let bound = next.read_tlv(0x02)?;
    if !is_bound(bound) {
        return Err(c.refusal(Why::Value));
    }
    *c = next;
    Ok(Some(bound))
}

/// The contents of an INTEGER that isn't negative, the fewest octets that say it (X.690 8.3.2).
fn is_bound(octets: &[u8]) -> bool
    ensures { result ≡ is_bound_rule octets.now }
{
    match octets {
        [] => false,
        [first] => *first < 128,
        [0x00, second, ..] => *second >= 128,
        [first, ..] => *first < 128,
    }
}
