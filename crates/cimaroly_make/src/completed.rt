//! Descriptions that files beside them complete.

ghost use Rattle.std.specs.Prelude.{IfOk};
ghost use Rattle.x509_make_whole.specs.Encodings.{IsMade};

use json::{Error, Scratch, Value};
use std::alloc::{AllocError, Allocator};
use x509_make_whole::{Fault, Made, NotMade, Why, make_of};

/// Nothing is made, at no place.
fn plain<A: Allocator + Copy>(alloc: A, why: Why) -> NotMade<A> {
    NotMade {
        why,
        path: String::new(alloc),
        word: String::new(alloc),
    }
}

/// Puts a member behind those of an object, if it is given. One that stands there already is refused as given twice
/// when the structure is made.
fn add_member<'a, A: Allocator>(
    root: &mut Value<'a, A>,
    name: &'a str,
    text: Option<&'a str>,
) -> Result<(), AllocError> {
    if let (Value::Object(members), Some(text)) = (root, text) {
        members.push((name, Value::String(text)))?;
    }
    Ok(())
}

/// The object of a text of JSON, with the members that are given behind its own.
fn completed<'a, A: Allocator + Copy>(
    alloc: A,
    text: &'a str,
    scratch: &'a mut Scratch<A>,
    key: Option<&'a str>,
    issuer: Option<&'a str>,
) -> Result<Value<'a, A>, Error> {
    let mut root = Value::parse(alloc, text, scratch)?;
    add_member(&mut root, "key", key)?;
    add_member(&mut root, "issuer", issuer)?;
    Ok(root)
}

/// Makes the structure that a text of JSON describes, with a key and an issuer that stand beside it: what it is, and
/// its DER encoding. It is that of some value of the type, without any deviation. Takes memory.
///
/// # Errors
/// Why nothing is made, and where in the description: also where it has a member of its own beside one that is given.
pub fn made<A: Allocator + Copy>(
    alloc: A,
    text: &str,
    key: Option<&str>,
    issuer: Option<&str>,
) -> Result<(Made, Vec<u8, A>), NotMade<A>>
    ensures { IfOk result (λ r. IsMade A r.0 r.1.items) }
{
    let mut scratch = Scratch::new(alloc);
    match completed(alloc, text, &mut scratch, key, issuer) {
        Ok(root) => make_of(alloc, &root),
        Err(Error::Invalid) => Err(plain(alloc, Why::NotJson)),
        Err(_) => Err(plain(alloc, Why::Fault(Fault::OutOfMemory))),
    }
}
