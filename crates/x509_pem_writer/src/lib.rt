//! Blocks of PEM that are written (RFC 7468).
#![tactic(auto)]

ghost use Rattle.std.specs.Prelude.{◌≡◌, ◌∷◌, [], ◌++◌, IfOk, OnOk};
ghost use Rattle.x509_pem_writer.specs.Blocks.{begin_line, end_line, lines_of, pem_of};

use base64::engine::general_purpose::STANDARD;
use std::alloc::{AllocError, Allocator};

/// How many symbols a line has.
const LINE: usize = 64;

/// Puts symbols in lines behind a text.
///
/// # Errors
/// `AllocError` where memory is refused.
fn put_lines<A: Allocator>(text: &mut Vec<u8, A>, symbols: &[u8]) -> Result<(), AllocError>
    ensures { OnOk result (text.new.items ≡ text.old.items ++ lines_of symbols.now) }
{
    let mut rest = symbols;
    'lines: while !rest.is_empty() {
        let (line, more) = rest.split_at(rest.len().min(LINE));
        text.extend_from_slice(line)?;
        text.push(b'\n')?;
        rest = more;
    }
    Ok(())
}

/// Puts a line behind a text: a mark, the label, and five hyphens.
///
/// # Errors
/// `AllocError` where memory is refused.
fn put_boundary<A: Allocator>(
    text: &mut Vec<u8, A>,
    mark: &[u8],
    label: &[u8],
) -> Result<(), AllocError>
    ensures { OnOk result (text.new.items ≡ text.old.items ++ (mark.now ++ (label.now ++ 45 ∷ 45 ∷ 45 ∷ 45 ∷ 45 ∷ 10 ∷ []))) }
{
    text.extend_from_slice(mark)?;
    text.extend_from_slice(label)?;
    text.extend_from_slice(b"-----\n")
}

/// A block of PEM: the line that begins it, the bytes in base64 in lines of 64 symbols, and the line that ends it. The label
/// is written as it is, and must be one of RFC 7468, 3, as `CERTIFICATE`. Takes memory for the text and for the symbols.
///
/// # Errors
/// `AllocError` where memory is refused.
pub fn pem_text<A: Allocator + Copy>(
    alloc: A,
    label: &str,
    bytes: &[u8],
) -> Result<Vec<u8, A>, AllocError>
    ensures { IfOk result (λ t. t.items ≡ pem_of label.now bytes.now) }
{
    let symbols = STANDARD.encode(alloc, bytes)?;
    let mut text = Vec::new(alloc);
    put_boundary(&mut text, b"-----BEGIN ", label.as_bytes())?;
    put_lines(&mut text, symbols.as_bytes())?;
    put_boundary(&mut text, b"-----END ", label.as_bytes())?;
    Ok(text)
}
