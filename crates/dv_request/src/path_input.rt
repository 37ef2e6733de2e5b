//! What a path is to be searched with.

ghost use Rattle.std.specs.Prelude.{◌≡◌, ◌≤◌, length};
ghost use Rattle.dv_schema.specs.Rules.{flag_octets};
ghost use Rattle.dv_schema.specs.Schema.{contents as contents_of, spelling};
ghost use Rattle.dv_schema.specs.Reading.{is_tag_of, maybe_at, read, starts_list};
ghost use Rattle.dv_schema.specs.Answers.{Reads};
ghost use Rattle.dv_schema.specs.Decodes.{HasSpelling};
ghost use Rattle.dv_request.specs.Types.{path_fields, path_input};

use dv_asn1::{Cursor, Decode, Der, read_list};
use dv_names::PolicyInfo;

/// The tag of a PathProcInput.
const PATH_INPUT: u8 = 0xA0;

/// A PathProcInput (RFC 3029 7.5, RFC 5280 6.1.1): the contents octets of the policies that are acceptable, at least one,
/// and the three flags of the search.
#[derive(Clone, Copy, Debug)]
pub struct PathInput<'a> {
    pub policies: &'a [u8],
    pub inhibit_mapping: bool,
    pub explicit: bool,
    pub inhibit_any: bool,
    ghost spelled: { ∥ HasSpelling (path_input 160) (policies.now, (flag_octets inhibit_mapping, (flag_octets explicit, (flag_octets inhibit_any, tt)))) ∥₁ },
}

impl<'a> Decode<'a> for PathInput<'a> {
    ghost use Rattle.dv_request.specs.Types.{path_input};
    ghost use Rattle.dv_request.specs.PartViews.{view_path};

    ghost schema = { path_input 160 };

    ghost view = { view_path };

    #[tactic(auto, unfolding(dv_schema::specs::Reading::read))]
    fn read(c: &mut Cursor<'a>) -> Result<PathInput<'a>, Der> {
        let mut next = c.fork();
        let mut inside = next.enter(PATH_INPUT)?;
        let policies = read_list::<PolicyInfo>(&mut inside, 0x30, true)?;
        let inhibit_mapping = inside.read_flag(0x01)?;
        let explicit = inside.read_flag(0x80)?;
        let inhibit_any = inside.read_flag(0x81)?;
        inside.finish()?;
        *c = next;
        Ok(PathInput {
            policies,
            inhibit_mapping,
            explicit,
            inhibit_any,
        })
    }
}
