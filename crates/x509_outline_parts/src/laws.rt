//! Laws of the types of this crate. A function here does nothing when it runs: its contract is the law.

ghost use Rattle.std.specs.Prelude.{ℕ, List};
ghost use Rattle.x509_der.specs.Tally.{Tally};
ghost use Rattle.x509_outline_parts.specs.Algorithms.{algorithm, AlgorithmAt};
ghost use Rattle.x509_outline_parts.specs.AttributeValues.{attribute_values, AttributeValuesAt};
ghost use Rattle.x509_outline_parts.specs.Attributes.{attribute, AttributeAt};
ghost use Rattle.x509_outline_parts.specs.Extensions.{extension, ExtensionAt, extensions, ExtensionsAt};
ghost use Rattle.x509_outline_parts.specs.Names.{Sets, name, NameAt};
ghost use Rattle.x509_outline_parts.specs.PublicKeys.{public_key, PublicKeyAt};

use crate::algorithm_outline::AlgorithmOutline;
use crate::attribute_outline::AttributeOutline;
use crate::attribute_values_outline::AttributeValuesOutline;
use crate::extension_outline::ExtensionOutline;
use crate::extensions_outline::ExtensionsOutline;
use crate::name_outline::NameOutline;
use crate::public_key_outline::PublicKeyOutline;
use std::alloc::Allocator;
use x509_der::laws::fields;

/// The law of fields of `AlgorithmOutline`: the identifier stands right behind the header, and behind it the
/// parameters, where there are any.
pub fn algorithm_outline_fields<A: Allocator + Copy>()
    ensures { (v : AlgorithmOutline A) (string : List ℕ) (y : Tally) → algorithm.spelled v string y →
        AlgorithmAt v string y }
{
    fields::<AlgorithmOutline<A>, A>();
}

/// The law of fields of `AttributeOutline`: the type stands right behind the header, and behind it the value.
pub fn attribute_outline_fields<A: Allocator + Copy>()
    ensures { (v : AttributeOutline A) (string : List ℕ) (y : Tally) → attribute.spelled v string y →
        AttributeAt v string y }
{
    fields::<AttributeOutline<A>, A>();
}

/// The law of fields of `AttributeValuesOutline`: the type stands right behind the header, and behind it the values.
pub fn attribute_values_outline_fields<A: Allocator + Copy>()
    ensures { (v : AttributeValuesOutline A) (string : List ℕ) (y : Tally) →
        attribute_values.spelled v string y → AttributeValuesAt v string y }
{
    fields::<AttributeValuesOutline<A>, A>();
}

/// The law of fields of `ExtensionOutline`: the identifier, the criticality, where it is encoded, and the octets stand
/// one behind another.
pub fn extension_outline_fields<A: Allocator + Copy>()
    ensures { (v : ExtensionOutline A) (string : List ℕ) (y : Tally) → extension.spelled v string y →
        ExtensionAt v string y }
{
    fields::<ExtensionOutline<A>, A>();
}

/// The law of fields of `ExtensionsOutline`: the extensions stand one behind another behind the header.
pub fn extensions_outline_fields<A: Allocator + Copy>()
    ensures { (list : List (ExtensionOutline A)) (string : List ℕ) (y : Tally) →
        extensions.spelled list string y → ExtensionsAt list string y }
{
    fields::<ExtensionsOutline<A>, A>();
}

/// The law of fields of `NameOutline`: the sets stand one behind another behind the header.
pub fn name_outline_fields<A: Allocator + Copy>()
    ensures { (sets : Sets A) (string : List ℕ) (y : Tally) → name.spelled sets string y →
        NameAt sets string y }
{
    fields::<NameOutline<A>, A>();
}

/// The law of fields of `PublicKeyOutline`: the algorithm stands right behind the header, and behind it the bits.
pub fn public_key_outline_fields<A: Allocator + Copy>()
    ensures { (v : PublicKeyOutline A) (string : List ℕ) (y : Tally) → public_key.spelled v string y →
        PublicKeyAt v string y }
{
    fields::<PublicKeyOutline<A>, A>();
}
