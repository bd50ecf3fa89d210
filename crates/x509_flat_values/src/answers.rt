//! Answers of a status and fields, and spans that say that there is nothing.

ghost use Rattle.std.specs.Prelude.{◌≡◌};
ghost use Rattle.x509_flat.specs.Statuses.{IsStatusOf};
ghost use Rattle.x509_flat_values.specs.Covered.{no_span};

use picky_asn1_x509::ReadError;
use x509_fields::Span;
use x509_flat::status::{Answer, Status, status_of};

/// The span of what isn't there.
pub(crate) fn nowhere() -> Span
    ensures { result ≡ no_span }
{
    Span { start: 0, end: 0 }
}

/// These fields.
pub(crate) fn done<F>(fields: F) -> Answer<F>
    ensures status { result.status ≡ Status.Done }
    ensures fields { result.fields ≡ fields }
{
    Answer {
        status: Status::Done,
        fields,
    }
}

/// No fields, for an error.
pub(crate) fn refused<F>(error: ReadError, none: F) -> Answer<F>
    ensures status { IsStatusOf error result.status }
    ensures fields { result.fields ≡ none }
{
    Answer {
        status: status_of(error),
        fields: none,
    }
}
