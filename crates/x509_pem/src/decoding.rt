//! Decodes base64 text in memory, with white space among its symbols, into memory that the caller lends.

ghost use Rattle.std.specs.Prelude.{◌≡◌, ◌≢◌, ◌≤◌, ◌<◌, ◌+◌, ◌*◌, ◌/◌, ◌++◌, ◌∷◌, ◌⊎◌, ℕ, List, [], true, false, Ok, None, IfSome, length, take, drop};
ghost use Rattle.base64.specs.Engines.{standard};
ghost use Rattle.base64.specs.GeneralPurpose.{decode_of, encode_of};
ghost use Rattle.x509_pem.specs.Decoding.{SpellsNone, IsAppended, SoFar};
ghost use Rattle.x509_pem.specs.Text.{solid};

use crate::white::{is_white, solid_len};
use base64::engine::general_purpose::STANDARD;

/// How many symbols are decoded at once: whole groups of four.
const CHUNK: usize = 64;

/// Symbols that aren't decoded yet, behind the bytes of a buffer that are.
#[derive(Clone, Copy, Debug)]
pub(crate) struct Symbols {
    chunk: [u8; 64],
    filled: usize,
    len: usize,
}

/// Appends the bytes that symbols stand for to the first `len` of a buffer, and answers how many they are then; `None`
/// where these are invalid base64 there.
fn append(symbols: &[u8], out: &mut [u8], len: usize) -> Option<usize>
    requires { len + length symbols.now / 4 * 3 ≤ length out.old }
    ensures some { IfSome result (λ n. IsAppended symbols.now len n out.old out.new) }
    ensures same { length out.new ≡ length out.old }
    ensures none { result ≡ None → (rest : List ℕ) → ((length symbols.now ≡ 64) ⊎ (rest ≡ []))
        → SpellsNone (encode_of standard (take len out.old) ++ (symbols.now ++ rest)) }
{
    if symbols.is_empty() {
        return Some(len);
    }
    if len % 3 != 0 {
        return None;
    }
    if symbols.len() % 4 != 0 {
        return None;
    }
    match STANDARD.decode_slice_unchecked(symbols, &mut out[len..]) {
        Ok(more) => Some(len + more),
        Err(_) => None,
    }
}

impl Symbols {
    /// No symbols, behind no bytes.
    fn new() -> Symbols
        ensures { (result.filled ≡ 0) × (result.len ≡ 0) × (length result.chunk ≡ 64) }
    {
        Symbols {
            chunk: [0; 64],
            filled: 0,
            len: 0,
        }
    }

    /// Makes room for a symbol, and answers whether those before it are base64 that can go on.
    fn flush(&mut self, out: &mut [u8]) -> bool
        requires fits { self.old.filled ≤ 64 }
        requires room { self.old.filled ≡ 64 → self.old.len + 48 ≤ length out.old }
        ensures room { result ≡ true → self.new.filled < 64 }
        ensures same { length out.new ≡ length out.old }
        ensures taken { result ≡ true → (text old : List ℕ) → SoFar text self.old old out.old → SoFar text self.new old out.new }
        ensures not { result ≡ false → (text old rest : List ℕ) → SoFar text self.old old out.old → rest ≢ []
            → SpellsNone (text ++ rest) }
    {
        if self.filled < CHUNK {
            return true;
        }
        match append(self.chunk.as_slice(), out, self.len) {
            Some(len) => {
                self.len = len;
                self.filled = 0;
                true
            }
            None => false,
        }
    }

    /// Takes a symbol, and answers whether those before it are base64 that can go on.
    fn take(&mut self, symbol: u8, out: &mut [u8]) -> bool
        requires fits { self.old.filled ≤ 64 }
        requires room { self.old.filled ≡ 64 → self.old.len + 48 ≤ length out.old }
        ensures same { length out.new ≡ length out.old }
        ensures taken { result ≡ true → (text old : List ℕ) → SoFar text self.old old out.old
            → SoFar (text ++ symbol ∷ []) self.new old out.new }
        ensures not { result ≡ false → (text old rest : List ℕ) → SoFar text self.old old out.old
            → SpellsNone (text ++ symbol ∷ rest) }
    {
        if !self.flush(out) {
            return false;
        }
        self.chunk[self.filled] = symbol;
        self.filled += 1;
        true
    }

    /// Decodes the symbols that are left, and answers how many bytes there are; `None` where it is invalid base64.
    fn finish(&self, out: &mut [u8]) -> Option<usize>
        requires fits { self.now.filled ≤ 64 }
        requires room { self.now.len + self.now.filled / 4 * 3 ≤ length out.old }
        ensures same { length out.new ≡ length out.old }
        ensures some { IfSome result (λ n. (text old : List ℕ) → SoFar text self.now old out.old
            → (n ≤ length out.new) × (decode_of standard text ≡ Ok (take n out.new)) × (drop n out.new ≡ drop n old)) }
        ensures none { result ≡ None → (text old : List ℕ) → SoFar text self.now old out.old → SpellsNone text }
    {
        append(&self.chunk[..self.filled], out, self.len)
    }
}

/// How many bytes a buffer must have room for, so that a text is decoded into it: three for four symbols.
pub fn room_for(text: &[u8]) -> usize
    ensures { result ≡ length (solid text.now) / 4 * 3 }
{
    solid_len(text) / 4 * 3
}

/// Decodes base64 text, white space among its symbols, to the front of a buffer, and answers how many bytes it stands
/// for. Every other byte of the buffer stays as it was. It takes no memory.
///
/// It is `None` exactly where the text isn't the encoding of any bytes, with its padding and no bits behind the last
/// byte (RFC 4648, 3.5 and 4). The buffer may hold some bytes then.
pub fn decode_in(text: &[u8], out: &mut [u8]) -> Option<usize>
    requires { length (solid text.now) / 4 * 3 ≤ length out.old }
    ensures some { IfSome result (λ n. (n ≤ length out.new) × (decode_of standard (solid text.now) ≡ Ok (take n out.new))
        × (drop n out.new ≡ drop n out.old)) }
    ensures same { length out.new ≡ length out.old }
    ensures none { result ≡ None → SpellsNone (solid text.now) }
{
    let mut symbols = Symbols::new();
    'bytes: for byte in text {
        if !is_white(*byte) && !symbols.take(*byte, out) {
            return None;
        }
    }
    symbols.finish(out)
}
