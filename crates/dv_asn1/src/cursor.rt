//! A cursor over the values of a slice, and the headers of values.

mod values;

ghost use Rattle.std.specs.Prelude.{◌≡◌, ◌≤◌, ◌+◌, ◌-◌, ◌<◌, ◌^◌, ◌==◌, length, slice_get, Some};
ghost use Rattle.dv_schema.specs.Octets.{IsBytes, same_octets};
ghost use Rattle.dv_schema.specs.Schema.{done, is_among};
ghost use Rattle.dv_schema.specs.Reading.{item_at, is_tag_of, read_fields, sizes_at, starts_list, taken};
ghost use Rattle.dv_schema.specs.Answers.{Enters, EntersAnew, EntersOne, Gives, GivesItem};

use crate::number::length_of;
use crate::rules::{is_among, same};
use dv_schema::{Der, Why};
use std::marker::Model;

/// How deep values may lie: the outermost one is at depth 1.
const DEEPEST: u8 = 32;

/// Where a reader stands among the octets of the value around it, its own octets or those of a whole slice.
///
/// Contracts see it as a spot: the levels that are left, the place of the next octet, counted from the front of what the
/// outermost cursor was given, and the octets that are left. A call that reads a value moves the cursor behind it, and
/// after a refusal the cursor is where it was. The checks of a value come in this order:
///
/// 1. no octet is left: `End`, at the end;
/// 2. the tag isn't the one that is asked for, or has more than one octet: `Tag`;
/// 3. length octets are missing: `End`;
/// 4. the length is indefinite, isn't the shortest, or has more than eight octets after its first: `Length`;
/// 5. the contents go past the end: `End`;
/// 6. the value would lie deeper than 32: `Depth`;
/// 7. the contents aren't allowed: `Value`, or what its members answer.
///
/// All but the first have the value's own place.
#[derive(Drop)]
pub struct Cursor<'a> {
    rest: &'a [u8],
    place: u64,
    levels: u8,
}

impl<'a> Model for Cursor<'a> {
    ghost use Rattle.std.specs.Prelude.{◌+◌, ◌<◌, ◌≤◌, ◌^◌, length};
    ghost use Rattle.dv_schema.specs.Reading.{Spot};
    ghost use Rattle.dv_schema.specs.Octets.{IsBytes};

    ghost Value = { Spot };

    ghost view = { λ c. record { levels = c.levels; place = c.place; rest = c.rest.now } };

    ghost invariant = { λ c. (c.levels ≤ 32) × (c.place + length c.rest.now < 2 ^ 64) × IsBytes c.rest.now };
}

impl<'a> Cursor<'a> {
    /// A cursor at the front of the octets, whose values are at depth 1.
    pub fn new(bytes: &'a [u8]) -> Cursor<'a>
        ensures { result ≡ record { levels = 32; place = 0; rest = bytes.now } }
    {
        Cursor::at_depth(bytes, 1)
    }

    /// A cursor at the front of the octets, whose values are at this depth.
    pub fn at_depth(bytes: &'a [u8], depth: u8) -> Cursor<'a>
        requires outermost { 1 ≤ depth }
        requires deepest { depth ≤ 32 }
        ensures { result ≡ record { levels = 33 - depth; place = 0; rest = bytes.now } }
    {
        Cursor {
            rest: bytes,
            place: 0,
            levels: DEEPEST + 1 - depth,
        }
    }

    /// The place of the next octet, counted from the front of what the outermost cursor was given.
    pub fn place(&self) -> u64
        ensures { result ≡ self.now.place }
    {
        self.place
    }

    /// Whether nothing is left.
    pub fn at_end(&self) -> bool
        ensures { result ≡ (length self.now.rest == 0) }
    {
        self.rest.is_empty()
    }

    /// The octets that are left.
    pub fn rest(&self) -> &'a [u8]
        ensures { result.now ≡ self.now.rest }
    {
        self.rest
    }

    /// A second cursor where this one stands.
    pub fn fork(&self) -> Cursor<'a>
        ensures same { result ≡ self.now }
        ensures octets { IsBytes self.now.rest }
        ensures levels { self.now.levels ≤ 32 }
        ensures room { self.now.place + length self.now.rest < 2 ^ 64 }
    {
        Cursor {
            rest: self.rest,
            place: self.place,
            levels: self.levels,
        }
    }

    /// The tag of the next value; None exactly at the end.
    pub fn peek_tag(&self) -> Option<u8>
        ensures { result ≡ slice_get self.now.rest 0 }
    {
        self.rest.first().copied()
    }

    /// Whether the next value has the tag.
    pub fn next_is(&self, tag: u8) -> bool
        ensures { result ≡ starts_list (is_tag_of tag) self.now.rest }
    {
        match self.rest {
            [] => false,
            [first, ..] => *first == tag,
        }
    }

    /// The refusal of the next value for this reason.
    pub fn refusal(&self, why: Why) -> Der
        ensures { result ≡ record { place = self.now.place; why = why } }
    {
        Der {
            place: self.place,
            why,
        }
    }

    /// A cursor over the contents of the next value, which must have the tag. This one moves behind the value.
    ///
    /// Use it for constructed values: `enter_string` counts depth anew.
    pub fn enter(&mut self, tag: u8) -> Result<Cursor<'a>, Der>
        ensures item { Enters tag result self.old self.new (item_at (is_tag_of tag) self.old) }
        ensures shorter { length self.new.rest ≤ length self.old.rest }
    {
        let (inside, after) = self.item(tag)?;
        *self = after;
        Ok(inside)
    }

    /// The tag of the next value, which must be one of these, and a cursor over its contents.
    #[tactic(auto, unfolding(dv_schema::specs::Reading::item_at))]
    pub fn enter_one_of(&mut self, tags: &[u8]) -> Result<(u8, Cursor<'a>), Der>
        ensures { EntersOne result self.old self.new (item_at (is_among (Some tags.now)) self.old) }
    {
        let [first, more @ ..] = self.rest else {
            return Err(self.refusal(Why::End));
        };
        let tag = *first;
        if !is_among(tags, tag) || tag % 32 == 31 {
            return Err(self.refusal(Why::Tag));
        }
        let (inside, after) = self.sized(tag, more)?;
        *self = after;
        Ok((tag, inside))
    }

    /// A cursor over the values in the contents of the next value, which must have the tag, a primitive one such as that
    /// of an OCTET STRING. Depth is counted anew there.
    pub fn enter_string(&mut self, tag: u8) -> Result<Cursor<'a>, Der>
        ensures { EntersAnew tag result self.old self.new (item_at (is_tag_of tag) self.old) }
    {
        let (inside, after) = self.item(tag)?;
        *self = after;
        Ok(Cursor {
            rest: inside.rest,
            place: inside.place,
            levels: DEEPEST,
        })
    }

    /// The octets from here to where a cursor further on stands.
    pub fn up_to(&self, end: &Cursor<'a>) -> &'a [u8]
        requires { length end.now.rest ≤ length self.now.rest }
        ensures { result.now ≡ taken self.now end.now }
    {
        let (octets, _) = self.rest.split_at(self.rest.len() - end.rest.len());
        octets
    }

    /// Whether the octets from here to where a cursor further on stands are these.
    pub fn spells(&self, end: &Cursor<'a>, octets: &[u8]) -> bool
        requires { length end.now.rest ≤ length self.now.rest }
        ensures { result ≡ same_octets (taken self.now end.now) octets.now }
    {
        same(self.up_to(end), octets)
    }

    /// Ends the reading of a value's contents: `Trailing`, here, exactly where octets are left.
    #[tactic(auto, unfolding(dv_schema::specs::Reading::read))]
    pub fn finish(self) -> Result<(), Der>
        ensures { Gives (λ x. x) result (read_fields done 0 self.entry) }
    {
        if self.rest.is_empty() {
            Ok(())
        } else {
            Err(self.refusal(Why::Trailing))
        }
    }

    /// Cursors over the contents of the next value, which must have the tag, and behind it.
    #[tactic(auto, unfolding(dv_schema::specs::Reading::item_at))]
    fn item(&self, tag: u8) -> Result<(Cursor<'a>, Cursor<'a>), Der>
        ensures { GivesItem tag result (item_at (is_tag_of tag) self.now) }
    {
        let [first, more @ ..] = self.rest else {
            return Err(self.refusal(Why::End));
        };
        if *first != tag || *first % 32 == 31 {
            return Err(self.refusal(Why::Tag));
        }
        self.sized(tag, more)
    }

    /// The same, once the tag octet was read; `more` is what stands behind it.
    fn sized(&self, tag: u8, more: &'a [u8]) -> Result<(Cursor<'a>, Cursor<'a>), Der>
        requires { length more.now < length self.now.rest }
        ensures { GivesItem tag result (sizes_at self.now tag more.now) }
    {
        let (len, head) = length_of(self.place, more)?;
        if more.len() as u64 - head < len {
            return Err(self.refusal(Why::End));
        }
        if self.levels == 0 {
            return Err(self.refusal(Why::Depth));
        }
        let (_, tail) = more.split_at(head as usize);
        let (inside, after) = tail.split_at(len as usize);
        Ok((
            Cursor {
                rest: inside,
                place: self.place + (1 + head),
                levels: self.levels - 1,
            },
            Cursor {
                rest: after,
                place: self.place + (1 + head + len),
                levels: self.levels,
            },
        ))
    }
}

#[cfg(test)]
mod tests;
