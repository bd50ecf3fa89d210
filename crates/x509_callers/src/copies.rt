//! Copies of values that hold no memory: none of them fails.

ghost use Rattle.std.specs.Prelude.{◌≡◌};

use picky_asn1_x509::{BasicConstraints, GeneralizedTimeAsn1, NameAttr, UtcTimeAsn1, Validity};

/// A copy of a validity, for a certificate that takes another's place.
pub fn same_validity(validity: &Validity) -> Validity
    ensures { result ≡ validity.now }
{
    let Ok(copy) = validity.clone() else {
        unreachable!()
    };
    copy
}

/// A copy of basic constraints.
pub fn same_constraints(constraints: &BasicConstraints) -> BasicConstraints
    ensures { result ≡ constraints.now }
{
    let Ok(copy) = constraints.clone() else {
        unreachable!()
    };
    copy
}

/// A copy of a kind of attribute.
pub fn same_kind(kind: &NameAttr) -> NameAttr
    ensures { result ≡ kind.now }
{
    let Ok(copy) = kind.clone() else {
        unreachable!()
    };
    copy
}

/// Copies of both forms of a time.
pub fn same_times(
    utc: &UtcTimeAsn1,
    general: &GeneralizedTimeAsn1,
) -> (UtcTimeAsn1, GeneralizedTimeAsn1)
    ensures { result ≡ (utc.now, general.now) }
{
    let Ok(first) = utc.clone() else {
        unreachable!()
    };
    let Ok(second) = general.clone() else {
        unreachable!()
    };
    (first, second)
}
