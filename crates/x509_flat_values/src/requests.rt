//! The subject of a request.

ghost use Rattle.std.specs.Prelude.{◌≡◌};
ghost use Rattle.x509_flat.specs.Values.{FrontTold};
ghost use Rattle.x509_flat_values.specs.Requests.{SubjectFills};

use std::alloc::Allocator;
use x509_fields::CertificationRequestFields;
use x509_flat::status::{Sized, Status, unsized_of};
use x509_values::{AttributePlace, attributes_within};

/// What is told of so many items, of which those are written for which there is room.
pub(crate) fn front_of(count: usize, room: usize) -> Sized
    ensures size { result.size ≡ count }
    ensures status { FrontTold result.status count room }
{
    let status = if room < count {
        Status::TooShort
    } else {
        Status::Done
    };
    Sized {
        status,
        size: count,
    }
}

/// Writes where the attributes of a request's subject stand (RFC 2986, 4.1), as far as there is room, and tells how many there
/// are.
pub fn subject_attributes<A: Allocator + Copy>(
    alloc: A,
    bytes: &[u8],
    out: &mut [AttributePlace],
) -> Sized
    ensures { SubjectFills A bytes.now out.old out.new result.status result.size }
{
    let room = out.len();
    match CertificationRequestFields::find(alloc, bytes) {
        Ok(places) => {
            let count = attributes_within::<A>(bytes, places.fields.subject, out);
            front_of(count, room)
        }
        Err(error) => unsized_of(error),
    }
}
