//! Extensions of revocation lists and their entries that the port keeps as octets (RFC 5280, 5.2.4 and 5.3).

use crate::extension::malformed;
use picky_asn1_x509::{GeneralNames, Time};
use std::alloc::Allocator;
use x509_der::{FromDer, IntegerAsn1, ObjectIdentifierAsn1, Refused, read_explained};
use x509_report::parts::time_of;
use x509_report_fields::name::general_names;
use x509_report_further::{Limited, Place};
use x509_report_parts::{Shape, Value};

/// The content of `id-ce-cRLReasons`, 2.5.29.21.
const REASON: &[u8] = &[0x55, 0x1d, 21];
/// The content of `id-ce-holdInstructionCode`, 2.5.29.23.
const INSTRUCTION: &[u8] = &[0x55, 0x1d, 23];
/// The content of `id-ce-invalidityDate`, 2.5.29.24.
const INVALIDITY: &[u8] = &[0x55, 0x1d, 24];
/// The content of `id-ce-deltaCRLIndicator`, 2.5.29.27.
const DELTA: &[u8] = &[0x55, 0x1d, 27];
/// The content of `id-ce-certificateIssuer`, 2.5.29.29.
const ISSUER: &[u8] = &[0x55, 0x1d, 29];

/// Whether an object identifier's content is that of the reason for a revocation.
pub(crate) fn is_reason(content: &[u8]) -> bool {
    content == REASON
}

/// The word for a reason (RFC 5280, 5.3.1), by the octets of its extension, if it is one.
pub(crate) fn reason_word(octets: &[u8]) -> Option<&'static str> {
    match octets {
        [0x0a, 0x01, 0] => Some("unspecified"),
        [0x0a, 0x01, 1] => Some("keyCompromise"),
        [0x0a, 0x01, 2] => Some("cACompromise"),
        [0x0a, 0x01, 3] => Some("affiliationChanged"),
        [0x0a, 0x01, 4] => Some("superseded"),
        [0x0a, 0x01, 5] => Some("cessationOfOperation"),
        [0x0a, 0x01, 6] => Some("certificateHold"),
        [0x0a, 0x01, 8] => Some("removeFromCRL"),
        [0x0a, 0x01, 9] => Some("privilegeWithdrawn"),
        [0x0a, 0x01, 10] => Some("aACompromise"),
        _ => None,
    }
}

/// What the octets of an extension hold. Where they encode none of it, that is told.
fn held<T: FromDer<A>, A: Allocator + Copy, S: Limited>(
    sink: &mut S,
    alloc: A,
    place: Place<'_>,
    octets: &[u8],
) -> Result<Option<T>, S::Error> {
    match read_explained::<T, A>(alloc, octets) {
        Ok((value, deviations)) => match sink.deviating(deviations.total()) {
            Ok(()) => Ok(Some(value)),
            Err(error) => {
                drop(value);
                Err(error)
            }
        },
        Err(refused) => {
            refuse(sink, place, octets, refused)?;
            Ok(None)
        }
    }
}

/// Tells that octets encode no such extension.
fn refuse<S: Limited>(
    sink: &mut S,
    place: Place<'_>,
    octets: &[u8],
    refused: Refused,
) -> Result<(), S::Error> {
    malformed(sink, place, octets, place.inside.span.start, refused)
}

/// Tells the reason for a revocation; a number that is none as octets.
fn reason<S: Limited>(sink: &mut S, place: Place<'_>, octets: &[u8]) -> Result<(), S::Error> {
    let value = match reason_word(octets) {
        Some(word) => Value::Enumerated(word),
        None => Value::Kept(octets),
    };
    sink.field(place.label, place.span, value)
}

/// Tells what should be done with a certificate that is on hold.
fn instruction<A: Allocator + Copy, S: Limited>(
    sink: &mut S,
    alloc: A,
    place: Place<'_>,
    octets: &[u8],
) -> Result<(), S::Error> {
    match held::<ObjectIdentifierAsn1<A>, A, S>(sink, alloc, place, octets)? {
        Some(code) => {
            let value = Value::Identifier(code.0.content());
            let told = sink.field(place.label, place.span, value);
            drop(code);
            told
        }
        None => Ok(()),
    }
}

/// Tells since when a key isn't to be trusted. The standard wants a GeneralizedTime.
fn invalidity<A: Allocator + Copy, S: Limited>(
    sink: &mut S,
    alloc: A,
    place: Place<'_>,
    octets: &[u8],
) -> Result<(), S::Error> {
    match held::<Time, A, S>(sink, alloc, place, octets)? {
        Some(time) => sink.field(place.label, place.span, time_of(&time)),
        None => Ok(()),
    }
}

/// Tells the number of the list that a delta stands upon.
fn delta<A: Allocator + Copy, S: Limited>(
    sink: &mut S,
    alloc: A,
    place: Place<'_>,
    octets: &[u8],
) -> Result<(), S::Error> {
    match held::<IntegerAsn1<A>, A, S>(sink, alloc, place, octets)? {
        Some(number) => {
            let value = Value::Integer(number.as_bytes());
            let told = sink.field(place.label, place.span, value);
            drop(number);
            told
        }
        None => Ok(()),
    }
}

/// Tells names as the items of an extension.
fn names<A: Allocator, S: Limited>(
    sink: &mut S,
    place: Place<'_>,
    value: &GeneralNames<A>,
) -> Result<(), S::Error> {
    sink.begin(place.label, place.span, Shape::Items)?;
    general_names(sink, place.inside, value)?;
    sink.end()
}

/// Tells who issued a certificate that is on the list of another.
fn issuer<A: Allocator + Copy, S: Limited>(
    sink: &mut S,
    alloc: A,
    place: Place<'_>,
    octets: &[u8],
) -> Result<(), S::Error> {
    match held::<GeneralNames<A>, A, S>(sink, alloc, place, octets)? {
        Some(value) => {
            let told = names(sink, place, &value);
            drop(value);
            told
        }
        None => Ok(()),
    }
}

/// Tells an extension, if it is one of these. Answers whether it is.
pub(crate) fn list_extension<A: Allocator + Copy, S: Limited>(
    sink: &mut S,
    alloc: A,
    place: Place<'_>,
    content: &[u8],
    octets: &[u8],
) -> Result<bool, S::Error> {
    if content == REASON {
        reason(sink, place, octets)?;
    } else if content == INSTRUCTION {
        instruction(sink, alloc, place, octets)?;
    } else if content == INVALIDITY {
        invalidity(sink, alloc, place, octets)?;
    } else if content == DELTA {
        delta(sink, alloc, place, octets)?;
    } else if content == ISSUER {
        issuer(sink, alloc, place, octets)?;
    } else {
        return Ok(false);
    }
    Ok(true)
}
