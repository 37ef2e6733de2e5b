//! What kept octets hold.

ghost use Rattle.std.specs.Prelude.{◌≡◌, Bool, List, IsTrue};
ghost use Rattle.dv_schema.specs.Schema.{Schema, ValueOf, contents, sequence_of};
ghost use Rattle.dv_schema.specs.Fits.{FieldsFit};
ghost use Rattle.dv_schema.specs.Clear.{is_clear};
ghost use Rattle.dv_members.specs.Members.{values_in};

/// The values that kept octets hold are those whose spellings, one after another, they are.
pub fn kept_values_are_those_spelled()
    ensures { (s : Schema) (some : Bool) (vs : List (ValueOf s)) → IsTrue (is_clear s)
        → FieldsFit (sequence_of some s) 32 vs
        → values_in s (contents (sequence_of some s) vs) ≡ vs }
{}
