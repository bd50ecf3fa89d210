//! The objects that are written.

ghost use Rattle.std.specs.Prelude.{◌≡◌, IfOk, IfErr};
ghost use Rattle.x509_outline_kinds.specs.Outcomes.{NotRead};
ghost use Rattle.x509_outline_kinds.specs.Shapes.{Value, shape_of};
ghost use Rattle.x509_inspect.specs.Outcomes.{Counts};
ghost use Rattle.x509_flat_report.specs.Reports.{IsReport, IsWord, beginning_of};
ghost use Rattle.x509_flat_report.specs.declared.reading.Reading.TheVariants as reading;

use std::alloc::{AllocError, Allocator};
use x509_der::{ReadError, Refused};
use x509_inspect::{Kind as Inspected, Options, members};
use x509_inspect_outlines::{Asked, Entries, OutlineKind, check_outline, outline_members};

/// What reading came to, in a word.
///
/// # Errors
/// `AllocError` where it was refused for memory.
fn word_of(outcome: Result<usize, Refused>) -> Result<&'static str, AllocError>
    ensures { IfOk result (λ word. IsWord outcome word.now) }
{
    match outcome {
        Ok(0) => Ok("ok"),
        Ok(_) => Ok("deviations"),
        Err(
            Refused {
                error: ReadError::OutOfMemory,
                at: _,
            },
        ) => Err(AllocError),
        Err(_) => Ok("refused"),
    }
}

/// What a report begins with.
fn beginning<A: Allocator + Copy>(
    alloc: A,
    name: &str,
    length: usize,
    word: &str,
) -> Result<Vec<u8, A>, AllocError>
    ensures { IfOk result (λ text. text.items ≡ beginning_of name.now length word.now) }
{
    let mut text = String::new(alloc);
    write!(
        text,
        "{{\"type\":\"{name}\",\"length\":{length},\"result\":\"{word}\","
    )?;
    Ok(text.into_bytes())
}

/// What stands behind an object's first brace.
fn behind_brace(object: &[u8]) -> &[u8] {
    match object {
        [b'{', members @ ..] => members,
        _ => object,
    }
}

/// The report of bytes as a type that is read whole.
///
/// # Errors
/// `AllocError` where memory is refused.
pub(crate) fn whole_report<A: Allocator + Copy>(
    alloc: A,
    kind: Inspected,
    bytes: &[u8],
    options: Options,
) -> Result<Vec<u8, A>, AllocError>
    ensures { IfOk result (λ text. IsReport A (reading.Whole kind) bytes.now text.items) }
{
    let (object, outcome) = members(alloc, kind, bytes, options)?;
    let word = word_of(outcome)?;
    let mut text = beginning(alloc, kind.name(), bytes.len(), word)?;
    text.extend_from_slice(behind_brace(object.as_slice()))?;
    Ok(text)
}

/// How many deviations bytes have as an outline.
///
/// # Errors
/// The bytes encode no value of the type, or memory for places is refused.
fn counted<A: Allocator + Copy>(alloc: A, kind: OutlineKind, bytes: &[u8]) -> Result<usize, Refused>
    ensures ok { IfOk result (Counts (Value A kind) (shape_of A kind) bytes.now) }
    ensures err { IfErr result (NotRead (Value A kind) (shape_of A kind) bytes.now) }
{
    let places = check_outline(alloc, kind, bytes)?;
    Ok(places.len())
}

/// The report of bytes as an outline, with all entries of a revocation list.
///
/// # Errors
/// `AllocError` where memory is refused.
pub(crate) fn outline_report<A: Allocator + Copy>(
    alloc: A,
    kind: OutlineKind,
    bytes: &[u8],
    options: Options,
) -> Result<Vec<u8, A>, AllocError>
    ensures { IfOk result (λ text. IsReport A (reading.Outline kind) bytes.now text.items) }
{
    let outcome = counted(alloc, kind, bytes);
    let word = word_of(outcome)?;
    let asked = Asked {
        kind,
        bytes,
        entries: Entries::All,
    };
    let (object, read_again) = outline_members(alloc, asked, options)?;
    // (memory may be refused to this read alone)
    let _word = word_of(read_again)?;
    let mut text = beginning(alloc, kind.name(), bytes.len(), word)?;
    text.extend_from_slice(behind_brace(object.as_slice()))?;
    Ok(text)
}
