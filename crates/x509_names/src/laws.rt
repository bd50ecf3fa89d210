//! Laws of the types of this crate and the one below. A function here does nothing when it runs: its contract is the
//! law.

ghost use Rattle.std.specs.Prelude.{◌≡◌, ◌↔◌, ◌∷◌, ◌++◌, ℕ, List};
ghost use Rattle.x509_der.specs.Tally.{Tally};
ghost use Rattle.x509_names_parts.specs.declared.directory_string.DirectoryString.{DirectoryString as Text};
ghost use Rattle.x509_names.specs.declared.name_attr.NameAttr.{NameAttr};
ghost use Rattle.x509_names.specs.Attributes.{attribute, kind_of, text_attribute, email_attribute};
ghost use Rattle.x509_names.specs.AttributeFields.{FieldsAt, SetAt, AttributeAt, kind_in};
ghost use Rattle.x509_names.specs.EdiPartyNames.{edi_party_name, EdiPartyNameAt};
ghost use Rattle.x509_names.specs.GeneralNames.{general_name, AlternativeAt};
ghost use Rattle.x509_names.specs.Names.{Set, Sets, name};
ghost use Rattle.x509_names.specs.OtherNames.{other_name, OtherNameAt};

use crate::attribute_type_and_value::AttributeTypeAndValue;
use crate::edi_party_name::EdiPartyName;
use crate::general_name::GeneralName;
use crate::name::Name;
use crate::other_name::OtherName;
use std::alloc::Allocator;
use x509_der::laws::{fields, spellings_are_lawful};
pub use x509_names_parts::laws::{
    directory_string_fields, time_fields, time_takes_no_memory, validity_fields,
    validity_takes_no_memory, version_takes_no_memory,
};

/// The law of fields of attributes. In each encoding the type stands right behind the header and the value behind it,
/// each with the deviations that lie within its slice; in the value's slice stands the string or the element that it
/// holds.
pub fn attribute_fields<A: Allocator + Copy>()
    ensures { (v : AttributeTypeAndValue A) (string : List ℕ) (y : Tally) →
        attribute.spelled v string y → FieldsAt v string y }
{
    fields::<AttributeTypeAndValue<A>, A>();
}

/// The law of fields of names. Each set, with attributes or without, stands behind those before it in the name, and
/// each attribute of a set behind those before it in the set.
pub fn name_fields<A: Allocator + Copy>()
    ensures sets { (done more : Sets A) (set : Set A) (string : List ℕ) (y : Tally) →
        name.spelled (done ++ set ∷ more) string y → SetAt done more set string y }
    ensures attributes { (done more : Sets A) (before after : Set A) (v : AttributeTypeAndValue A)
        (string : List ℕ) (y : Tally) → name.spelled (done ++ (before ++ v ∷ after) ∷ more) string y →
        AttributeAt done more before after v string y }
{
    fields::<Name<A>, A>();
}

/// An attribute is read back as itself exactly where its value is of the kind that its type says.
pub fn attributes_read_back<A: Allocator>()
    ensures { (v : AttributeTypeAndValue A) → attribute.readable v ↔ (kind_in v.value ≡ kind_of v.ty) }
{}

/// So every attribute that is made with its object identifier is.
pub fn made_attributes_read_back<A: Allocator>()
    ensures text { (a : NameAttr) (d : Text A) → attribute.readable (text_attribute a d) }
    ensures email { (i : List ℕ) → (attribute {A = A}).readable (email_attribute i) }
{}

/// The law of fields of `OtherName`: in each encoding the object identifier stands right behind the header, and behind
/// it the value, under the tag A0.
pub fn other_name_fields<A: Allocator + Copy>()
    ensures { (v : OtherName A) (string : List ℕ) (y : Tally) →
        other_name.spelled v string y → OtherNameAt v string y }
{
    fields::<OtherName<A>, A>();
}

/// The law of fields of `EdiPartyName`: in each encoding the name of the assigner, where there is one, stands right
/// behind the header, under the tag A0, and behind it the party's, under A1.
pub fn edi_party_name_fields<A: Allocator + Copy>()
    ensures { (v : EdiPartyName A) (string : List ℕ) (y : Tally) →
        edi_party_name.spelled v string y → EdiPartyNameAt v string y }
{
    fields::<EdiPartyName<A>, A>();
}

/// The law of fields of `GeneralName`, by its tag. Under one of eight tags stands the form that is written, with no
/// deviation but those within it; under one of six others a general name has the deviation `GeneralNameForm` over the
/// whole, and what stands under the tag is mostly an element of its own. No general name begins with another byte.
pub fn general_name_fields<A: Allocator + Copy>()
    ensures { (v : GeneralName A) (string : List ℕ) (y : Tally) →
        general_name.spelled v string y → AlternativeAt v string y }
{
    fields::<GeneralName<A>, A>();
    spellings_are_lawful::<GeneralName<A>, A>();
}
