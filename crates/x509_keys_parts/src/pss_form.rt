//! Parameters of RSASSA-PSS behind their object identifier, where those that aren't carried are told apart from those that are
//! malformed.

ghost use Rattle.std.specs.Prelude.{◌≡◌, ◌↔◌};
ghost use Rattle.x509_der.specs.Reading.{Ready, Reads, Passes, MayGoBack, thrifty};
ghost use Rattle.x509_der.specs.Types.read_error.{OutOfMemory};
ghost use Rattle.x509_keys_parts.specs.RsassaPss.{rsassa_pss};

use crate::rsassa_pss::RsassaPssParams;
use std::alloc::Allocator;
use x509_der::ReadError;
use x509_der::parts::{Field, Reader, SEQUENCE_TAG, Spot, first_element};

/// The tag of the hash function, the first of the fields.
const HASH_ALGORITHM: u8 = 0xA0;

/// The tag of the trailer field, the last of the fields, which isn't carried.
const TRAILER_FIELD: u8 = 0xA3;

/// Whether a content leaves one of the three fields that are carried out, or has the trailer field behind them.
fn is_other_content(content: &[u8]) -> bool {
    let mut rest = content;
    for tag in HASH_ALGORITHM..TRAILER_FIELD {
        match first_element(rest) {
            Some(field) if field.tag == tag => rest = rest.get(field.end..).unwrap_or(&[]),
            Some(field) => return field.tag > tag && field.tag <= TRAILER_FIELD,
            None => return rest.is_empty(),
        }
    }
    first_element(rest).is_some_and(|field| field.tag == TRAILER_FIELD)
}

/// Whether parameters are absent, or are in a form of RFC 4055, 3.1, that isn't carried: there each field may be left out for
/// its default. This tells the name of a refusal alone.
fn is_other_form(bytes: &[u8]) -> bool {
    match first_element(bytes) {
        None => bytes.is_empty(),
        Some(params) if params.tag == SEQUENCE_TAG => {
            is_other_content(bytes.get(params.start..params.end).unwrap_or(&[]))
        }
        Some(_) => false,
    }
}

/// The name of a refusal: of parameters in another form `Unsupported`, where the parameters begin.
fn named<A: Allocator>(
    is_other: bool,
    error: ReadError,
    reader: &mut Reader<'_, A>,
    start: Spot,
) -> ReadError
    ensures back { MayGoBack reader.old reader.new start }
    ensures memory { (result ≡ OutOfMemory) ↔ (error ≡ OutOfMemory) }
{
    if !is_other || error == ReadError::OutOfMemory {
        return error;
    }
    reader.go_back(start);
    ReadError::Unsupported
}

/// Reads parameters of RSASSA-PSS behind their object identifier.
///
/// # Errors
/// As the parameters; `Unsupported` where they are absent or leave a field out.
pub(crate) fn read_pss<A: Allocator + Copy>(
    alloc: A,
    reader: &mut Reader<'_, A>,
) -> Result<RsassaPssParams<A>, ReadError>
    requires { Ready reader.old }
    ensures { Reads rsassa_pss reader.old reader.new result }
{
    let start = reader.spot();
    let is_other = is_other_form(reader.rest());
    match RsassaPssParams::read(alloc, reader) {
        Ok(parameters) => Ok(parameters),
        Err(error) => Err(named(is_other, error, reader, start)),
    }
}

/// Goes past parameters of RSASSA-PSS behind their object identifier.
///
/// # Errors
/// As `read_pss`.
pub(crate) fn pass_pss<A: Allocator + Copy>(
    alloc: A,
    reader: &mut Reader<'_, A>,
) -> Result<(), ReadError>
    requires { Ready reader.old }
    ensures { Passes (thrifty (rsassa_pss {A = A})) (λ v. tt) reader.old reader.new result }
{
    let start = reader.spot();
    let is_other = is_other_form(reader.rest());
    match RsassaPssParams::<A>::pass(alloc, reader) {
        Ok(()) => Ok(()),
        Err(error) => Err(named(is_other, error, reader, start)),
    }
}
