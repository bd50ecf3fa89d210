//! Writing from a place of a buffer on. Where there is no room, the place alone goes on, so that one function both counts and
//! writes.

ghost use Rattle.std.specs.Prelude.{◌≡◌, ◌<◌, encode_utf8};
ghost use Rattle.std.specs.Fmt.{digit_glyph};
ghost use Rattle.x509_name_text.specs.Texts.{Writes, hex_text};

/// The hexadecimal digit of a number below 16.
fn digit(number: u8, is_upper: bool) -> u8
    requires { number < 16 }
    ensures { result ≡ digit_glyph is_upper number }
{
    if number < 10 {
        return b'0' + number;
    }
    if is_upper {
        b'A' + (number - 10)
    } else {
        b'a' + (number - 10)
    }
}

/// Writes bytes from a place on, if there is room for all of them, and answers where they end.
pub(crate) fn put(text: &[u8], at: usize, out: &mut [u8]) -> usize
    ensures { Writes text.now at out.old result out.new }
{
    let end = at.saturating_add(text.len());
    if end <= out.len() && end - at == text.len() {
        out[at..end].copy_from_slice(text);
    }
    end
}

/// Writes bytes in hexadecimal.
pub(crate) fn put_hex(is_upper: bool, bytes: &[u8], at: usize, out: &mut [u8]) -> usize
    ensures { Writes (hex_text is_upper bytes.now) at out.old result out.new }
{
    let mut at = at;
    'bytes: for byte in bytes {
        let pair = [digit(*byte / 16, is_upper), digit(*byte % 16, is_upper)];
        at = put(&pair, at, out);
    }
    at
}

/// Writes a character.
pub(crate) fn put_char(symbol: char, at: usize, out: &mut [u8]) -> usize
    ensures { Writes (encode_utf8 symbol) at out.old result out.new }
{
    let mut room = [0u8; 4];
    put(symbol.encode_utf8(&mut room).as_bytes(), at, out)
}
