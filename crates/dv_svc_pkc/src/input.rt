//! The path input of a target, as it is written again.

ghost use Rattle.std.specs.Prelude.{◌≡◌, ◌≤◌, ◌<◌, ◌^◌, length};
ghost use Rattle.dv_schema.specs.Schema.{contents as contents_of, spelled_if, spelling};
ghost use Rattle.dv_schema.specs.Rules.{flag_octets};
ghost use Rattle.dv_schema.specs.Types.{flag as flag_type};
ghost use Rattle.dv_asn1.specs.Writing.{room_of, Writes};
ghost use Rattle.dv_request.specs.PartViews.{view_path};
ghost use Rattle.dv_request.specs.Types.{path_fields, path_input};

use dv_asn1::{Writer, value_len};
use dv_request::PathInput;

/// The tag of a PathProcInput in a TargetEtcChain (RFC 3029 7.5).
const INPUT: u8 = 0xA0;

const SEQUENCE: u8 = 0x30;

/// The tags of the flags of a PathProcInput.
const INHIBIT_MAPPING: u8 = 0x01;

const EXPLICIT: u8 = 0x80;

const INHIBIT_ANY: u8 = 0x81;

/// The contents of a BOOLEAN that is TRUE (X.690 11.1).
const TRUE: [u8; 1] = [0xFF];

/// How many octets a path input has.
pub(crate) fn input_len(input: &PathInput<'_>) -> usize
    requires { length (spelling (path_input 160) (view_path input.now)) < 2 ^ 63 }
    ensures { result ≡ length (spelling (path_input 160) (view_path input.now)) }
{
    value_len(contents_len(input))
}

/// Writes a path input.
pub(crate) fn write_input(input: &PathInput<'_>, out: &mut Writer<'_>)
    requires short { length (spelling (path_input 160) (view_path input.now)) < 2 ^ 63 }
    requires room { length (spelling (path_input 160) (view_path input.now)) ≤ room_of out.old }
    ensures { Writes out.old out.new (spelling (path_input 160) (view_path input.now)) }
{
    out.header(INPUT, contents_len(input));
    out.tlv(SEQUENCE, input.policies);
    write_flag(INHIBIT_MAPPING, input.inhibit_mapping, out);
    write_flag(EXPLICIT, input.explicit, out);
    write_flag(INHIBIT_ANY, input.inhibit_any, out);
}

/// How many contents octets a path input has.
fn contents_len(input: &PathInput<'_>) -> usize
    requires { length (contents_of path_fields (view_path input.now)) < 2 ^ 63 }
    ensures { result ≡ length (contents_of path_fields (view_path input.now)) }
{
    value_len(input.policies.len())
        + flag_len(input.inhibit_mapping)
        + flag_len(input.explicit)
        + flag_len(input.inhibit_any)
}

/// How many octets a flag has, whose default is FALSE, under whichever tag.
fn flag_len(flag: bool) -> usize
    ensures octets { result ≡ length (spelled_if (spelling (flag_type 1)) (flag_octets flag)) }
    ensures few { result ≤ 3 }
{
    if flag { 3 } else { 0 }
}

/// Writes a flag under a tag, where it is TRUE.
fn write_flag(tag: u8, flag: bool, out: &mut Writer<'_>)
    requires { length (spelled_if (spelling (flag_type tag)) (flag_octets flag)) ≤ room_of out.old }
    ensures { Writes out.old out.new (spelled_if (spelling (flag_type tag)) (flag_octets flag)) }
{
    if flag {
        out.tlv(tag, &TRUE);
    }
}
