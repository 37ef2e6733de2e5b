//! What was written of a value is read as the same value, whatever follows.

ghost use Rattle.std.specs.Prelude.{◌≡◌, ℕ, ◌/◌, ◌%◌, IsTrue, List, nat_le};
ghost use Rattle.std.specs.List.{list_all};
ghost use Rattle.dv_schema.specs.Octets.{IsBytes};
ghost use Rattle.dv_schema.specs.Rules.{is_oid};
ghost use Rattle.dv_schema.specs.Clear.{is_low};
ghost use Rattle.dv_schema.specs.Decodes.{ReadsBack};
ghost use Rattle.dv_schema.specs.Types.{oid};
ghost use Rattle.dv_names.specs.Arcs.{arcs_of, are_proper, dotted, largest_arc, Names, oid_octets};
ghost use Rattle.dv_names.specs.Types.{algorithm_identifier, digest_info, extension, general_name, name, policy_information};
ghost use Rattle.dv_names.specs.Views.{view_algorithm, view_digest, view_extension, view_general, view_name, view_oid, view_policy};

/// Identifiers, algorithms and digests.
pub fn algorithms_are_read_again()
    ensures identifier { ReadsBack oid view_oid }
    ensures algorithm { ReadsBack algorithm_identifier view_algorithm }
    ensures digest { ReadsBack digest_info view_digest }
{}

/// Names.
pub fn names_are_read_again()
    ensures name { ReadsBack name view_name }
    ensures general { ReadsBack general_name view_general }
{}

/// Policies, under whichever constructed tag of one octet they stand, and extensions.
pub fn policies_and_extensions_are_read_again()
    ensures policy { (tag : ℕ) → IsTrue (is_low tag) → tag / 32 % 2 ≡ 1
        → ReadsBack (policy_information tag) view_policy }
    ensures extension { ReadsBack extension view_extension }
{}

/// Identifiers and their arcs are one for one, and so are arcs and their texts.
pub fn identifiers_and_texts_agree()
    ensures octets { (x : List ℕ) → IsBytes x → IsTrue (is_oid x) → oid_octets (arcs_of x) ≡ x }
    ensures arcs { (arcs : List ℕ) → IsTrue (are_proper arcs) → arcs_of (oid_octets arcs) ≡ arcs }
    ensures oid { (arcs : List ℕ) → IsTrue (are_proper arcs) → IsTrue (is_oid (oid_octets arcs)) }
    ensures proper { (x : List ℕ) → IsTrue (is_oid x) → IsTrue (are_proper (arcs_of x)) }
    ensures text { (a b : List ℕ) → IsTrue (are_proper a) → IsTrue (are_proper b) → dotted a ≡ dotted b → a ≡ b }
    // What a text names is shown as the text.
    ensures named { (text octets : List ℕ) → Names text octets
        → IsTrue (is_oid octets) × (dotted (arcs_of octets) ≡ text) }
    // What is shown names the identifier, where no arc is past what a text may have.
    ensures shown { (x : List ℕ) → IsBytes x → IsTrue (is_oid x)
        → IsTrue (list_all (λ a. nat_le a largest_arc) (arcs_of x)) → Names (dotted (arcs_of x)) x }
{}
