//! Targets with the chains that are handed in with them.

ghost use Rattle.std.specs.Prelude.{◌≡◌, ◌≤◌, ◌<◌, ◌↔◌, IfOk, IsNone, length, min, option_map, slice_get, true};
ghost use Rattle.std.specs.Option.{option_copied};
ghost use Rattle.dv_schema.specs.Types.{list_of};
ghost use Rattle.dv_schema.specs.Reading.{is_tag_of, maybe_at, read, starts_list};
ghost use Rattle.dv_schema.specs.Answers.{Passes, Reads};
ghost use Rattle.dv_schema.specs.Decodes.{HasSpelling};
ghost use Rattle.dv_request.specs.Links.{links_in};
ghost use Rattle.dv_request.specs.PartViews.{view_path, view_token};
ghost use Rattle.dv_request.specs.Types.{path_input, target_chain, token};

use crate::path_input::PathInput;
use crate::token::Token;
use dv_asn1::{Cursor, Decode, Der, Member, member_at};
use dv_members::read_counted;

/// A TargetEtcChain (RFC 3029 7.5): a target, the chain that is handed in with it, and the input of its path.
#[derive(Clone, Copy, Debug)]
pub struct TargetChain<'a> {
    pub target: Token<'a>,
    /// How many links the chain has, 0 where there is no chain; past 2^32 - 1 of them, that number.
    pub chain: u32,
    /// The contents octets of the chain, at least one token.
    pub links: Option<&'a [u8]>,
    pub input: Option<PathInput<'a>>,
    ghost spelled: { ∥ HasSpelling target_chain (view_token target, (option_copied links, (option_map view_path input, tt))) ∥₁ },
    ghost counted: { chain ≡ min (length (links_in (option_copied links))) 4294967295 },
}

impl<'a> Decode<'a> for TargetChain<'a> {
    ghost use Rattle.dv_request.specs.Types.{target_chain};
    ghost use Rattle.dv_request.specs.TargetView.{view_target};

    ghost schema = { target_chain };

    ghost view = { view_target };

    #[tactic(auto, unfolding(dv_schema::specs::Reading::read))]
    fn read(c: &mut Cursor<'a>) -> Result<TargetChain<'a>, Der> {
        let mut next = c.fork();
        let mut inside = next.enter(0x30)?;
        let target = match Token::read(&mut inside) {
            Ok(target) => target,
            Err(refusal) => return Err(refusal),
        };
        let (links, chain) = read_links(&mut inside)?;
        let input = read_input(&mut inside)?;
        inside.finish()?;
        *c = next;
        Ok(TargetChain {
            target,
            chain,
            links,
            input,
        })
    }
}

impl Member for TargetChain<'_> {
    ghost use Rattle.dv_request.specs.Types.{target_chain};

    ghost schema = { target_chain };

    fn pass(c: &mut Cursor<'_>) -> Result<(), Der>
        ensures { Passes result c.old c.new (read target_chain c.old) }
    {
        match TargetChain::read(c) {
            Ok(_) => Ok(()),
            Err(refusal) => Err(refusal),
        }
    }
}

impl<'a> TargetChain<'a> {
    ghost use Rattle.dv_request.specs.TargetView.{links_of};

    /// The link of the chain at an index, counted from 0; None exactly past the last one.
    pub fn link(&self, i: u32) -> Option<Token<'a>>
        ensures none { IsNone result ↔ (self.now.chain ≤ i) }
        ensures link { i < self.now.chain
            → option_map view_token result ≡ slice_get (links_of self.now) i }
    {
        if i >= self.chain {
            return None;
        }
        match self.links {
            None => None,
            Some(links) => member_at::<Token>(&Cursor::new(links), i as u64),
        }
    }
}

/// Reads a chain, where its tag is there: its contents octets, and how many links it has, at most 2^32 - 1.
fn read_links<'a>(c: &mut Cursor<'a>) -> Result<(Option<&'a [u8]>, u32), Der>
    ensures links { Reads (λ x. option_copied x.0) result c.old c.new
        (maybe_at (starts_list (is_tag_of 48) c.old.rest) c.old
        (read (list_of 48 true token) c.old)) }
    ensures count { IfOk result (λ x. x.1 ≡ min (length (links_in (option_copied x.0))) 4294967295) }
{
    if !c.next_is(0x30) {
        return Ok((None, 0));
    }
    let (links, count) = read_counted::<Token>(c, 0x30, true)?;
    Ok((Some(links), count.min(u32::MAX as u64) as u32))
}

/// Reads a path input, where its tag is there.
fn read_input<'a>(c: &mut Cursor<'a>) -> Result<Option<PathInput<'a>>, Der>
    ensures { Reads (option_map view_path) result c.old c.new
        (maybe_at (starts_list (is_tag_of 160) c.old.rest) c.old (read (path_input 160) c.old)) }
{
    if c.next_is(0xA0) {
        Ok(Some(PathInput::read(c)?))
    } else {
        Ok(None)
    }
}

#[cfg(test)]
mod tests;
