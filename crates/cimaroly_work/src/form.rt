//! In which form an input is.

ghost use Rattle.std.specs.Prelude.{◌≡◌, ◌↔◌, IsTrue, true};
ghost use Rattle.cimaroly_work.specs.Forms.{IsDigit, IsSpace, IsHexadecimal, IsTextless, HasControl, HasBlock, IsSequence, IsForm, IsSymbol, IsBase64, SequenceInFront, BeginsAsSequence, IsText};

use memchr::memmem;

/// In which form an input is.
#[derive(Clone, Copy, Debug, PartialEq, Eq)]
pub enum Form {
    /// PEM, or other text.
    Pem,
    /// Bytes.
    Der,
    /// Hexadecimal digits and white space.
    Hexadecimal,
    /// Symbols of base64 and white space, which begin as those of a SEQUENCE do.
    Base64,
}

/// Whether a byte is a hexadecimal digit.
fn is_digit(byte: u8) -> bool
    ensures { IsTrue result ↔ IsDigit byte }
{
    matches!(byte, b'0'..=b'9' | b'A'..=b'F' | b'a'..=b'f')
}

/// Whether a byte is white space.
fn is_space(byte: u8) -> bool
    ensures { IsTrue result ↔ IsSpace byte }
{
    matches!(byte, b' ' | b'\t' | b'\n' | 12 | b'\r')
}

/// Whether bytes are hexadecimal digits and white space, with at least one digit.
pub fn is_hexadecimal(bytes: &[u8]) -> bool
    ensures { IsTrue result ↔ IsHexadecimal bytes.now }
{
    bytes.iter().all(|byte| is_digit(*byte) || is_space(*byte))
        && bytes.iter().any(|byte| is_digit(*byte))
}

/// Whether a byte is a symbol of base64, or pads it (RFC 4648, 4).
fn is_symbol(byte: u8) -> bool
    ensures { IsTrue result ↔ IsSymbol byte }
{
    matches!(byte, b'0'..=b'9' | b'A'..=b'Z' | b'a'..=b'z' | b'+' | b'/' | b'=')
}

/// Whether bytes begin with the symbols with which the base64 of a SEQUENCE begins: its tag is 0x30.
fn is_sequence_in_front(bytes: &[u8]) -> bool
    ensures { IsTrue result ↔ SequenceInFront bytes.now }
{
    matches!(bytes, [b'M', b'A'..=b'P', ..])
}

/// Whether bytes begin so behind any white space.
fn begins_as_sequence(bytes: &[u8]) -> bool
    ensures { IsTrue result ↔ BeginsAsSequence bytes.now }
{
    is_sequence_in_front(bytes.trim_ascii_start())
}

/// Whether bytes are symbols of base64 and white space, and begin as those of a SEQUENCE do.
fn is_base64(bytes: &[u8]) -> bool
    ensures { IsTrue result ↔ IsBase64 bytes.now }
{
    begins_as_sequence(bytes) && bytes.iter().all(|byte| is_symbol(*byte) || is_space(*byte))
}

/// Whether a byte is a control character that text has not.
fn is_control(byte: u8) -> bool
    ensures { IsTrue result ↔ IsTextless byte }
{
    byte < 32 && !matches!(byte, b'\t' | b'\n' | b'\r' | 12 | 27)
}

/// Whether bytes have a control character that text has not.
fn has_control(bytes: &[u8]) -> bool
    ensures { IsTrue result ↔ HasControl bytes.now }
{
    bytes.iter().any(|byte| is_control(*byte))
}

/// Whether a PEM block begins in some bytes.
fn has_block(bytes: &[u8]) -> bool
    ensures { IsTrue result ↔ HasBlock bytes.now }
{
    match memmem::find(bytes, b"-----BEGIN ") {
        Some(_at) => true,
        None => false,
    }
}

/// Whether the front of an input begins with a SEQUENCE whose length is given in several bytes, as no text does, or whose
/// length is that of the whole, which isn't text.
fn is_sequence(front: &[u8], is_whole: bool) -> bool
    ensures { IsTrue result ↔ IsSequence front.now is_whole }
{
    match front {
        [0x30, 0x80..=0x88, ..] => true,
        [0x30, length, rest @ ..] => {
            is_whole && rest.len() == usize::from(*length) && (has_control(rest) || rest.is_empty())
        }
        _ => false,
    }
}

/// Whether the whole of an input is base64.
fn is_bare(front: &[u8], is_whole: bool) -> bool
    ensures { IsTrue result ↔ ((is_whole ≡ true) × IsBase64 front.now) }
{
    is_whole && is_base64(front)
}

/// Whether an input is text, by its front.
fn is_text(front: &[u8]) -> bool
    ensures { IsTrue result ↔ IsText front.now }
{
    has_block(front) || !has_control(front)
}

/// In which form an input is, by its front, and whether that is the whole.
pub fn form_of(front: &[u8], is_whole: bool) -> Form
    ensures { IsForm front.now is_whole result }
{
    if is_hexadecimal(front) {
        Form::Hexadecimal
    } else if is_sequence(front, is_whole) {
        Form::Der
    } else if is_bare(front, is_whole) {
        Form::Base64
    } else if is_text(front) {
        Form::Pem
    } else {
        Form::Der
    }
}
