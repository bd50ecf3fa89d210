//! Object identifiers: their text and their names; and the text of names.

ghost use Rattle.std.specs.Prelude.{◌≡◌, [], option_map, unwrap_or};
ghost use Rattle.cimaroly_c.specs.Exports.{Arena};
ghost use Rattle.cimaroly_c.specs.Oids.{NameTextWritten, NameWritten, OidNameWritten, SomeTextWritten, TellsName, TextWritten};

use crate::over_keys::is_name;
use x509_flat::status::Status;
use x509_name_text::name_text;
use x509_oid_text::{NoText, name_in, oid_text};

/// Writes the text of an object identifier to the front of a buffer, as in `2.5.4.3`.
#[unsafe(no_mangle)]
pub extern "C" fn cimaroly_oid_text(content: &[u8], out: &mut [u8], size: &mut usize) -> u32
    ensures { TextWritten content.now out.old out.new result size.new }
{
    match oid_text(content, out) {
        Ok(len) => {
            *size = len;
            Status::Done.number()
        }
        Err(NoText::Bad) => {
            *size = 0;
            Status::Refused.number()
        }
        Err(NoText::TooShort(len)) => {
            *size = len;
            Status::TooShort.number()
        }
        Err(NoText::TooLong) => {
            *size = 0;
            Status::TooLong.number()
        }
    }
}

/// Writes a text to the front of a buffer, if there is room for it.
fn write_name(text: &[u8], out: &mut [u8], size: &mut usize) -> u32
    ensures { NameWritten text.now out.old out.new result size.new }
{
    *size = text.len();
    if out.len() < text.len() {
        return Status::TooShort.number();
    }
    out[..text.len()].copy_from_slice(text);
    Status::Done.number()
}

/// The bytes of a name; none where there is none.
fn bytes_of(name: Option<&'static str>) -> &'static [u8]
    ensures { result.now ≡ unwrap_or (option_map (λ t. t.now) name.entry) [] }
{
    match name {
        Some(text) => text.as_bytes(),
        None => b"",
    }
}

/// Writes the name of an object identifier to the front of a buffer, as in `commonName`: nothing where it has none.
#[unsafe(no_mangle)]
pub extern "C" fn cimaroly_oid_name(content: &[u8], out: &mut [u8], size: &mut usize) -> u32
    ensures { OidNameWritten content.now out.old out.new result size.new }
{
    write_name(bytes_of(name_in(content)), out, size)
}

/// Writes the text of a name to the front of a buffer, if there is room for it.
fn write_name_text(name: &[u8], out: &mut [u8], size: &mut usize) -> u32
    ensures some { SomeTextWritten out.old out.new result size.new }
    ensures exact { TellsName name.now out.old out.new result size.new }
{
    match name_text(name, out) {
        Ok(len) => {
            *size = len;
            Status::Done.number()
        }
        Err(len) => {
            *size = len;
            Status::TooShort.number()
        }
    }
}

/// Writes the text of a name by RFC 4514 to the front of a buffer.
#[unsafe(no_mangle)]
pub extern "C" fn cimaroly_name_text(name: &[u8], out: &mut [u8], size: &mut usize) -> u32
    ensures written { NameTextWritten Arena name.now out.old out.new result size.new }
    ensures exact { TellsName name.now out.old out.new result size.new }
{
    if is_name(name) {
        return write_name_text(name, out, size);
    }
    *size = 0;
    Status::Refused.number()
}
