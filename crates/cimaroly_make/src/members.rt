//! The members of a description, written one behind the other.

ghost use Rattle.std.specs.Prelude.{◌≡◌, ◌∷◌, [], ◌++◌, IfOk, OnOk};
ghost use Rattle.std.specs.String.{string_bytes};
ghost use Rattle.json.specs.Print.{print};
ghost use Rattle.json.specs.Token.{begin_array, key, string};
ghost use Rattle.cimaroly_make.specs.Authorities.{authority, authority_front, length_behind};

use json::Writer;
use std::alloc::{AllocError, Allocator};

/// Begins a list that is a member.
///
/// # Errors
/// `AllocError` where memory is refused.
pub fn begin_list<A: Allocator>(out: &mut Writer<A>, name: &str) -> Result<(), AllocError>
    ensures { OnOk result (out.new.tokens ≡ out.old.tokens ++ key name.now ∷ begin_array ∷ []) }
{
    out.key(name)?;
    out.begin_array()
}

/// Writes a member that is a text.
///
/// # Errors
/// `AllocError` where memory is refused.
pub fn put_text<A: Allocator>(out: &mut Writer<A>, name: &str, text: &str) -> Result<(), AllocError>
    ensures { OnOk result (out.new.tokens ≡ out.old.tokens ++ key name.now ∷ string text.now ∷ []) }
{
    out.key(name)?;
    out.string(text)
}

/// Begins the member for basic constraints of an authority.
fn begin_authority<A: Allocator>(out: &mut Writer<A>) -> Result<(), AllocError>
    ensures { OnOk result (out.new.tokens ≡ out.old.tokens ++ authority_front) }
{
    out.key("basicConstraints")?;
    out.begin_object()?;
    out.key("ca")?;
    out.boolean(true)
}

/// Ends it with how many authorities there may be below.
fn end_with_length<A: Allocator>(out: &mut Writer<A>, length: u64) -> Result<(), AllocError>
    ensures { OnOk result (out.new.tokens ≡ out.old.tokens ++ length_behind length) }
{
    out.key("pathLen")?;
    out.u64(length)?;
    out.end_object()
}

/// Writes the member for basic constraints (RFC 5280, 4.2.1.9) of an authority: below it there may be as many others
/// as the length says, or any number.
///
/// # Errors
/// `AllocError` where memory is refused.
pub fn put_authority<A: Allocator>(
    out: &mut Writer<A>,
    path_length: Option<u64>,
) -> Result<(), AllocError>
    ensures { OnOk result (out.new.tokens ≡ out.old.tokens ++ authority path_length) }
{
    begin_authority(out)?;
    match path_length {
        Some(length) => end_with_length(out, length),
        None => out.end_object(),
    }
}

/// The text that was written.
///
/// # Errors
/// `AllocError` where it isn't UTF-8, which is so only of what stood before it.
pub fn text_of<A: Allocator>(out: Writer<A>) -> Result<String<A>, AllocError>
    ensures { IfOk result (λ t. string_bytes t ≡ out.before ++ print out.tokens) }
{
    match String::from_utf8(out.into_inner()) {
        Ok(text) => Ok(text),
        Err(_) => Err(AllocError),
    }
}
