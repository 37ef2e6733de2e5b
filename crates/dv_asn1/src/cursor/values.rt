//! The values of the universal types that a cursor reads.

ghost use Rattle.std.specs.Prelude.{◌≡◌, ◌+◌, ◌∷◌, None, Some, IfOk, true, false};
ghost use Rattle.std.specs.Option.{option_copied};
ghost use Rattle.dv_schema.specs.Rules.{any_octets, bool_octets, flag_octets};
ghost use Rattle.dv_schema.specs.Schema.{set_of, whole};
ghost use Rattle.dv_schema.specs.Fits.{is_tag};
ghost use Rattle.dv_schema.specs.Reading.{item_at, is_tag_of, maybe_at, next_at, read, read_fields, starts_list, whole_at};
ghost use Rattle.dv_schema.specs.Answers.{Gives, GivesAny, IsSplit, Reads, ordered_at, skipped};
ghost use Rattle.dv_schema.specs.Types.{any, bit_string, boolean, flag, integer, number_to, octet_string, oid as oid_type, primitive};

use super::Cursor;
use crate::number::number_within;
use crate::rules::{is_allowed, is_among, is_bits, is_integer, is_less, is_oid, is_true};
use dv_schema::{Der, Why};

impl<'a> Cursor<'a> {
    /// The contents octets of the next value, which must have the tag, whatever they are.
    #[tactic(auto, unfolding(dv_schema::specs::Reading::read))]
    pub fn read_tlv(&mut self, tag: u8) -> Result<&'a [u8], Der>
        ensures { Reads (λ x. x.now) result self.old self.new (read (primitive tag any_octets) self.old) }
    {
        let (inside, after) = self.item(tag)?;
        *self = after;
        Ok(inside.rest)
    }

    /// The same, where the next value has the tag; None, and nothing read, where it hasn't.
    #[tactic(auto, unfolding(dv_schema::specs::Reading::read))]
    pub fn read_optional_tlv(&mut self, tag: u8) -> Result<Option<&'a [u8]>, Der>
        ensures { Reads option_copied result self.old self.new
            (maybe_at (starts_list (is_tag_of tag) self.old.rest) self.old
            (read (primitive tag any_octets) self.old)) }
    {
        if self.next_is(tag) {
            Ok(Some(self.read_tlv(tag)?))
        } else {
            Ok(None)
        }
    }

    /// The contents octets of an INTEGER of at most this many octets, which may be negative (X.690 8.3).
    ///
    /// `Value` where the octets aren't the fewest, or are more.
    #[tactic(auto, unfolding(dv_schema::specs::Reading::read))]
    pub fn read_integer(&mut self, limit: usize) -> Result<&'a [u8], Der>
        ensures { Reads (λ x. x.now) result self.old self.new (read (integer limit) self.old) }
    {
        let (inside, after) = self.item(0x02)?;
        if !is_integer(inside.rest) || inside.rest.len() > limit {
            return Err(self.refusal(Why::Value));
        }
        *self = after;
        Ok(inside.rest)
    }

    /// The number of an INTEGER or ENUMERATED, under this tag (X.690 8.3, 8.4).
    ///
    /// `Value` where the octets aren't the fewest, or the number is negative or more than `max`.
    #[tactic(auto, unfolding(dv_schema::specs::Reading::read))]
    pub fn read_number(&mut self, tag: u8, max: u64) -> Result<u64, Der>
        ensures { Reads (λ n. n) result self.old self.new (read (number_to tag max) self.old) }
    {
        let (inside, after) = self.item(tag)?;
        match number_within(inside.rest, max) {
            None => Err(self.refusal(Why::Value)),
            Some(number) => {
                *self = after;
                Ok(number)
            }
        }
    }

    /// A BOOLEAN, under this tag (X.690 8.2, 11.1). `Value` where the contents are neither 00 nor FF.
    #[tactic(auto, unfolding(dv_schema::specs::Reading::read))]
    pub fn read_bool(&mut self, tag: u8) -> Result<bool, Der>
        ensures { Reads bool_octets result self.old self.new (read (boolean tag) self.old) }
    {
        let (inside, after) = self.item(tag)?;
        match inside.rest {
            [0x00] => {
                *self = after;
                Ok(false)
            }
            [0xFF] => {
                *self = after;
                Ok(true)
            }
            _ => Err(self.refusal(Why::Value)),
        }
    }

    /// A BOOLEAN whose default is FALSE, under this tag: false, and nothing read, where the next value has another tag.
    ///
    /// `Value` where the contents aren't FF: a default isn't spelled out (X.690 11.5).
    #[tactic(auto, unfolding(dv_schema::specs::Reading::read))]
    pub fn read_flag(&mut self, tag: u8) -> Result<bool, Der>
        ensures { Reads flag_octets result self.old self.new
            (maybe_at (starts_list (is_tag_of tag) self.old.rest) self.old (read (flag tag) self.old)) }
    {
        if !self.next_is(tag) {
            return Ok(false);
        }
        let (inside, after) = self.item(tag)?;
        if !is_true(inside.rest) {
            return Err(self.refusal(Why::Value));
        }
        *self = after;
        Ok(true)
    }

    /// The contents octets of an OBJECT IDENTIFIER (X.690 8.19). `Value` where an arc isn't the shortest or isn't ended.
    #[tactic(auto, unfolding(dv_schema::specs::Reading::read))]
    pub fn read_oid(&mut self) -> Result<&'a [u8], Der>
        ensures { Reads (λ x. x.now) result self.old self.new (read oid_type self.old) }
    {
        let (inside, after) = self.item(0x06)?;
        if !is_oid(inside.rest) {
            return Err(self.refusal(Why::Value));
        }
        *self = after;
        Ok(inside.rest)
    }

    /// The contents octets of an OCTET STRING (X.690 8.7).
    #[tactic(auto, unfolding(dv_schema::specs::Reading::read))]
    pub fn read_octets(&mut self) -> Result<&'a [u8], Der>
        ensures { Reads (λ x. x.now) result self.old self.new (read octet_string self.old) }
    {
        self.read_tlv(0x04)
    }

    /// The count of unused bits and the octets of a BIT STRING, under this tag (X.690 8.6, 11.2.1).
    ///
    /// `Value` where more than seven bits are unused, one of them isn't zero, or some are and there is no octet.
    #[tactic(auto, unfolding(dv_schema::specs::Reading::read))]
    pub fn read_bits(&mut self, tag: u8) -> Result<(u8, &'a [u8]), Der>
        ensures { Reads (λ x. x.0 ∷ x.1.now) result self.old self.new (read (bit_string tag) self.old) }
    {
        let (inside, after) = self.item(tag)?;
        if !is_bits(inside.rest) {
            return Err(self.refusal(Why::Value));
        }
        match inside.rest {
            [] => unreachable!(),
            [unused, octets @ ..] => {
                let unused = *unused;
                *self = after;
                Ok((unused, octets))
            }
        }
    }

    /// The whole octets of any well-formed value.
    ///
    /// Inside it each tag has one octet, SEQUENCE and SET are constructed, the contents of a constructed value are values,
    /// and those of BOOLEAN, INTEGER, BIT STRING, NULL, OBJECT IDENTIFIER and ENUMERATED are as their types are.
    pub fn skip_value(&mut self) -> Result<&'a [u8], Der>
        ensures { Reads (λ x. x.now) result self.old self.new (whole_at None self.old.levels self.old) }
    {
        let (tag, mut inside, after, octets) = self.any_item()?;
        if tag / 32 % 2 == 1 {
            while !inside.at_end() {
                inside.skip_value()?;
            }
        } else if !is_allowed(tag, inside.rest) {
            return Err(self.refusal(Why::Value));
        }
        *self = after;
        Ok(octets)
    }

    /// The whole octets of any well-formed value, where one is left.
    #[tactic(auto, unfolding(dv_schema::specs::Reading::read))]
    pub fn read_optional(&mut self) -> Result<Option<&'a [u8]>, Der>
        ensures { Reads option_copied result self.old self.new
            (maybe_at (starts_list (λ t. true) self.old.rest) self.old (read any self.old)) }
    {
        if self.at_end() {
            Ok(None)
        } else {
            Ok(Some(self.skip_value()?))
        }
    }

    /// The whole octets of any well-formed value whose tag is one of these.
    pub fn skip_one_of(&mut self, tags: &[u8]) -> Result<&'a [u8], Der>
        ensures { Reads (λ x. x.now) result self.old self.new (read (whole (Some tags.now)) self.old) }
    {
        let Some(tag) = self.peek_tag() else {
            return Err(self.refusal(Why::End));
        };
        if !is_among(tags, tag) {
            return Err(self.refusal(Why::Tag));
        }
        self.skip_value()
    }

    /// That the values that are left are well formed, each in its turn, and then that they ascend (X.690 11.6).
    ///
    /// `Order` at the first one that is less than the one before it. The cursor stays.
    pub fn check_set_of(&self) -> Result<(), Der>
        ensures { Gives (λ x. x) result (skipped (read_fields (set_of false any) 0 self.now)) }
    {
        let mut next = self.fork();
        while !next.at_end() {
            next.skip_value()?;
        }
        self.check_order()
    }

    /// That the values that are left ascend, once it is known that they are values.
    pub(crate) fn check_order(&self) -> Result<(), Der>
        requires { IsSplit self.now }
        ensures { Gives (λ x. x) result (ordered_at self.now) }
    {
        let mut next = self.fork();
        if next.at_end() {
            return Ok(());
        }
        let mut last = next.next_value()?;
        while !next.at_end() {
            let refusal = next.refusal(Why::Order);
            let octets = next.next_value()?;
            if is_less(octets, last) {
                return Err(refusal);
            }
            last = octets;
        }
        Ok(())
    }

    /// The octets of the next value, whatever it holds.
    #[tactic(auto, unfolding(dv_schema::specs::Reading::item_at, dv_schema::specs::Reading::next_at))]
    fn next_value(&mut self) -> Result<&'a [u8], Der>
        ensures { Reads (λ x. x.now) result self.old self.new (next_at self.old) }
    {
        let [first, more @ ..] = self.rest else {
            return Err(self.refusal(Why::End));
        };
        if *first % 32 == 31 {
            return Err(self.refusal(Why::Tag));
        }
        let (_, after) = self.sized(*first, more)?;
        let (octets, _) = self.rest.split_at(self.rest.len() - after.rest.len());
        *self = after;
        Ok(octets)
    }

    /// The tag of the next value of any type, cursors over its contents and behind it, and its octets.
    #[tactic(auto, unfolding(dv_schema::specs::Reading::item_at))]
    fn any_item(&self) -> Result<(u8, Cursor<'a>, Cursor<'a>, &'a [u8]), Der>
        ensures item { GivesAny result self.now (item_at (is_tag None) self.now) }
        ensures levels { IfOk result (λ x. self.now.levels ≡ x.1.levels + 1) }
    {
        let [first, more @ ..] = self.rest else {
            return Err(self.refusal(Why::End));
        };
        let tag = *first;
        // SEQUENCE and SET have no primitive form.
        if tag == 0x10 || tag == 0x11 || tag % 32 == 31 {
            return Err(self.refusal(Why::Tag));
        }
        let (inside, after) = self.sized(tag, more)?;
        let (octets, _) = self.rest.split_at(self.rest.len() - after.rest.len());
        Ok((tag, inside, after, octets))
    }
}
