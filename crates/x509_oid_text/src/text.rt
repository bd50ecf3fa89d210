//! The text of an object identifier.

ghost use Rattle.std.specs.Prelude.{◌≡◌, ◌≤◌, ◌^◌, ◌++◌, drop, length, MatchOption, IfSome};
ghost use Rattle.x509_der.specs.ObjectIdentifier.{dotted};
ghost use Rattle.x509_oid_text.specs.Texts.{TextTold};

use crate::decimal::digits_in;
use crate::put::{put, put_decimal};
use x509_der::Arcs;

/// Why no text was written.
#[derive(Clone, Copy, Debug, PartialEq, Eq)]
pub enum NoText {
    /// The bytes are the content of no object identifier.
    Bad,
    /// The text has so many bytes, and the buffer fewer.
    TooShort(usize),
    /// The text has 2^64 bytes or more.
    TooLong,
}

/// How many bytes the text of some arcs has; none where these are 2^64 or more.
fn text_len(arcs: Arcs<'_>) -> Option<usize>
    ensures { MatchOption result (2 ^ 64 ≤ length (dotted arcs.entry)) (λ n. n ≡ length (dotted arcs.entry)) }
{
    let mut rest = arcs;
    let Some(first) = rest.next() else {
        return Some(0);
    };
    let mut len = digits_in(first);
    'arcs: for arc in rest {
        let Some(longer) = len.checked_add(1 + digits_in(arc)) else {
            return None;
        };
        len = longer;
    }
    Some(len)
}

/// Writes the text of some arcs to the front of a buffer that has room for it.
fn write_text(arcs: Arcs<'_>, out: &mut [u8])
    requires { length (dotted arcs) ≤ length out.old }
    ensures { out.new ≡ dotted arcs.entry ++ drop (length (dotted arcs.entry)) out.old }
{
    let mut rest = arcs;
    let Some(first) = rest.next() else {
        return;
    };
    let mut at = put_decimal(first, 0, out);
    'arcs: for arc in rest {
        at = put(b".", at, out);
        at = put_decimal(arc, at, out);
    }
}

/// Writes the text of an object identifier to the front of a buffer, and answers how many bytes it has: the arcs in
/// decimal, joined by points, as in `2.5.4.3`. It is given by its content, what stands behind its tag and its length.
///
/// # Errors
/// `Bad` exactly where the bytes are the content of no object identifier; `TooShort` and `TooLong` where there is no room.
/// The buffer is then as it was.
pub fn oid_text(content: &[u8], out: &mut [u8]) -> Result<usize, NoText>
    ensures { TextTold content.now out.old out.new result }
{
    let Some(counted) = Arcs::in_content(content) else {
        return Err(NoText::Bad);
    };
    let Some(arcs) = Arcs::in_content(content) else {
        return Err(NoText::Bad);
    };
    let Some(len) = text_len(counted) else {
        return Err(NoText::TooLong);
    };
    if out.len() < len {
        return Err(NoText::TooShort(len));
    }
    write_text(arcs, out);
    Ok(len)
}
