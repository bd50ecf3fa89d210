//! Laws of the types of this crate. A function here does nothing when it runs: its contract is the law.

ghost use Rattle.std.specs.Prelude.{◌≡◌, ◌≢◌, ◌+◌, ◌++◌, ◌∷◌, ◌↔◌, ℕ, Bool, true, false, List, Option, Some, None, length, max, slice_index_or};
ghost use Rattle.std.specs.Bool.{Decides};
ghost use Rattle.std.specs.List.{AllByRecursion};
ghost use Rattle.x509_der.specs.Lasts.{last, ascends, NeighboursAscend};
ghost use Rattle.x509_der.specs.Tally.{Tally};
ghost use Rattle.picky_asn1_x509_parts.specs.BasicConstraints.{Constraints, ConstraintsAt, basic_constraints as constraints};
ghost use Rattle.picky_asn1_x509_parts.specs.Extensions.{kind_of, kind_in, IsReadable, ExtensionFields, extension, ExtensionAt, viewed};
ghost use Rattle.picky_asn1_x509_parts.specs.declared.extension_view.ExtensionView.{ExtensionView};
ghost use Rattle.picky_asn1_x509_parts.specs.Attribute.{attribute, AttributeAt, AreReadable, kind_in as values_kind, kind_of as type_kind};
ghost use Rattle.picky_asn1_x509_parts.specs.AuthorityKeyIdentifier.{KeyAuthority, authority_key_identifier as authorities};
ghost use Rattle.picky_asn1_x509_parts.specs.AuthorityKeyIdentifierLaws.{AuthorityAt, AuthorityMarks};
ghost use Rattle.picky_asn1_x509_parts.specs.ExtendedKeyUsage.{PurposesAt, extended_key_usage as purposes};
ghost use Rattle.picky_asn1_x509_parts.specs.KeyUsages.{put};

use crate::attribute::Attribute;
use crate::authority_key_identifier::AuthorityKeyIdentifier;
use crate::basic_constraints::BasicConstraints;
use crate::extended_key_usage::ExtendedKeyUsage;
use crate::extension::Extension;
use crate::extension_view::{ExtensionView, SameLent};
use std::alloc::Allocator;
use x509_der::laws::fields;
use x509_der::parts::Field;

/// What a setter of `KeyUsage` leaves: its own bit is as told, every other bit answers as before, and the length is the
/// greater of the old one and that which reaches to the bit.
pub fn key_usage_setters()
    ensures here { (v : List Bool) (i : ℕ) (x : Bool) → slice_index_or (put v i x) i false ≡ x }
    ensures others { (v : List Bool) (i j : ℕ) (x : Bool) → j ≢ i →
        slice_index_or (put v i x) j false ≡ slice_index_or v j false }
    ensures len { (v : List Bool) (i : ℕ) (x : Bool) → length (put v i x) ≡ max (length v) (i + 1) }
{}

/// Reading basic constraints takes no memory, so that `from_bytes`, `read_counted` and `read_metered` never answer want
/// of it.
pub fn basic_constraints_takes_no_memory<A: Allocator + Copy>()
    ensures { ⟦<BasicConstraints as Field<A>>⟧.shape.frugal }
{}

/// The law of fields of `BasicConstraints`: in each encoding `cA`, where it stands, is right behind the header, and
/// behind it the path length, where there is one.
pub fn basic_constraints_fields<A: Allocator + Copy>()
    ensures { (v : Constraints) (string : List ℕ) (y : Tally) → constraints.spelled v string y →
        ConstraintsAt v string y }
{
    fields::<BasicConstraints, A>();
}

/// The law of fields of `ExtendedKeyUsage`: each purpose stands in the list.
pub fn extended_key_usage_fields<A: Allocator + Copy>()
    ensures { (list : List (List ℕ)) (string : List ℕ) (y : Tally) → purposes.spelled list string y →
        PurposesAt list string y }
{
    fields::<ExtendedKeyUsage<A>, A>();
}

/// The law of fields of `AuthorityKeyIdentifier`: each field stands in the list, also one that doesn't count.
pub fn authority_key_identifier_fields<A: Allocator + Copy>()
    ensures { (v : KeyAuthority A) (string : List ℕ) (y : Tally) → authorities.spelled v string y →
        AuthorityAt v string y }
{
    fields::<AuthorityKeyIdentifier<A>, A>();
}

/// An encoding of an authority key identifier has one deviation over the whole where its fields aren't strictly
/// ascending, and beside it those of all its fields, also of those that don't count.
pub fn authority_key_identifier_marks<A: Allocator>()
    ensures { (v : KeyAuthority A) (string : List ℕ) (y : Tally) → authorities.spelled v string y →
        AuthorityMarks v string y }
{}

/// Of a list of fields the last with a tag counts, where there is one.
pub fn last_field_counts<H: Drop, V: Drop>()
    ensures there { (under : H → Option V) (before after : List H) (h : H) (v : V) → under h ≡ Some v →
        AllByRecursion (λ g. under g ≡ None) after → last under (before ++ h ∷ after) ≡ Some v }
    ensures absent { (under : H → Option V) (hs : List H) → AllByRecursion (λ g. under g ≡ None) hs →
        last under hs ≡ None }
{}

/// Fields are strictly ascending by their numbers exactly where each has a number below that of the one behind it.
pub fn neighbours_ascend<H: Drop>()
    ensures { (number : H → ℕ) (hs : List H) → (ascends number hs ≡ true) ↔ NeighboursAscend number hs }
{}

/// The law of fields of `Extension`: the object identifier, whether it is critical, where that is encoded, and the
/// value in its OCTET STRING, in the shape of the kind that the identifier says.
pub fn extension_fields<A: Allocator + Copy>()
    ensures { (v : ExtensionFields A) (string : List ℕ) (y : Tally) → extension.spelled v string y →
        ExtensionAt v string y }
{
    fields::<Extension<A>, A>();
}

/// An extension is readable exactly where its value is of the kind that its object identifier says, as
/// `Extension::extn_value` states of each, and what the value holds is readable.
pub fn extension_readable<A: Allocator>()
    ensures { (v : ExtensionFields A) → extension.readable v ↔ ((kind_in v.extn_value ≡ kind_of v.extn_id) × IsReadable v.extn_value) }
{}

/// `==` of two views of extensions is true exactly where they lend the same value of the same kind.
pub fn extension_views_compared<'a, A: Allocator + 'a>()
    ensures { (x y : ExtensionView A) → Decides (⟦<ExtensionView<'a, A> as PartialEq>⟧.eq x y) (viewed x ≡ viewed y) }
{
    <ExtensionView<'a, A> as SameLent<A>>::decides();
}

/// The law of fields of `Attribute`: the type, and behind it the values, in the shape of the kind that the type says.
pub fn attribute_fields<A: Allocator + Copy>()
    ensures { (v : Attribute A) (string : List ℕ) (y : Tally) → attribute.spelled v string y →
        AttributeAt v string y }
{
    fields::<Attribute<A>, A>();
}

/// An attribute of a request is readable exactly where its values are of the kind that its type says, and what they hold
/// is readable.
pub fn request_attribute_readable<A: Allocator>()
    ensures { (v : Attribute A) → attribute.readable v ↔ ((values_kind v.value ≡ type_kind v.ty) × AreReadable v.value) }
{}
