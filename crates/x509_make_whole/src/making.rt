//! Making a structure of a description.

ghost use Rattle.std.specs.Prelude.{IfOk};
ghost use Rattle.x509_make_whole.specs.Encodings.{IsMade};

use crate::accepted::check_made;
use crate::described::described;
use crate::made::Made;
use crate::not_made::{NotMade, Why};
use json::{Error, Scratch, Value};
use std::alloc::Allocator;
use x509_make_parts::place::told;
use x509_make_parts::{Fault, Maker, Place};

/// Nothing is made, at no place.
fn plain<A: Allocator + Copy>(alloc: A, why: Why) -> NotMade<A> {
    NotMade {
        why,
        path: String::new(alloc),
        word: String::new(alloc),
    }
}

/// Whether a description is of a private key, of which no text is shown.
fn is_secret<A: Allocator + Copy>(root: &Value<'_, A>) -> bool {
    match root.get("type") {
        Some(Value::String(name)) => name.ends_with("private-key"),
        _ => false,
    }
}

/// Nothing is made, at a place of the description.
fn placed<A: Allocator + Copy>(
    alloc: A,
    root: &Value<'_, A>,
    place: &Place,
    why: Why,
) -> NotMade<A> {
    match told(alloc, root, place) {
        Ok((path, word)) => {
            let is_shown = !is_secret(root) && !word.contains("PRIVATE KEY");
            NotMade {
                why,
                path,
                word: if is_shown { word } else { String::new(alloc) },
            }
        }
        Err(_) => plain(alloc, Why::Fault(Fault::OutOfMemory)),
    }
}

/// The place of the description that a byte came of. It is made once more for that.
fn place_of<A: Allocator + Copy>(alloc: A, root: &Value<'_, A>, at: usize) -> Place {
    let mut maker = Maker::new(alloc, true);
    match described(&mut maker, root) {
        Ok(_) => maker.marks.place_of(at),
        Err(_) => Place::root(),
    }
}

/// Makes the structure that a parsed description says: what it is, and its DER encoding.
///
/// # Errors
/// Why nothing is made, and where in the description.
pub fn make_of<A: Allocator + Copy>(
    alloc: A,
    root: &Value<'_, A>,
) -> Result<(Made, Vec<u8, A>), NotMade<A>>
    ensures { IfOk result (λ r. IsMade A r.0 r.1.items) }
{
    let mut maker = Maker::new(alloc, false);
    match described(&mut maker, root) {
        Ok(made) => {
            let bytes = maker.into_written();
            match check_made(alloc, made, bytes.as_slice()) {
                Ok(()) => Ok((made, bytes)),
                Err(unfit) => {
                    let place = place_of(alloc, root, unfit.at);
                    Err(placed(alloc, root, &place, unfit.why))
                }
            }
        }
        Err(fault) => Err(placed(alloc, root, &maker.place, Why::Fault(fault))),
    }
}

/// Makes the structure that a text of JSON describes: what it is, and its DER encoding. It is that of some value of the
/// type, without any deviation; that it says what the description does is tested.
///
/// # Errors
/// Why nothing is made, and where in the description.
pub fn make<A: Allocator + Copy>(alloc: A, text: &str) -> Result<(Made, Vec<u8, A>), NotMade<A>>
    ensures { IfOk result (λ r. IsMade A r.0 r.1.items) }
{
    let mut scratch = Scratch::new(alloc);
    match Value::parse(alloc, text, &mut scratch) {
        Ok(root) => make_of(alloc, &root),
        Err(Error::Invalid) => Err(plain(alloc, Why::NotJson)),
        Err(_) => Err(plain(alloc, Why::Fault(Fault::OutOfMemory))),
    }
}
