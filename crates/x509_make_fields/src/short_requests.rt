//! Requests in the short form.

ghost use Rattle.std.specs.Prelude.{OnOk};
ghost use Rattle.x509_make_parts.specs.Appending.{Appends, AppendsElement};

use crate::members::{key_member, subject_member};
use crate::short_extensions::{OF_REQUESTS, short_extensions};
use json::Value;
use std::alloc::Allocator;
use x509_make_parts::{Done, Fault, Maker};
use x509_make_values::Fields;
use x509_make_values::identifiers::identifier;
use x509_make_values::numbers::number;

/// The bytes that were written from a place on.
///
/// # Errors
/// `OutOfMemory`.
pub(crate) fn written_from<A: Allocator + Copy>(
    maker: &Maker<A>,
    start: usize,
) -> Result<Vec<u8, A>, Fault> {
    let bytes = maker.out.as_slice();
    let written = if start <= bytes.len() {
        &bytes[start..]
    } else {
        &bytes[bytes.len()..]
    };
    match Vec::from_slice(maker.alloc, written) {
        Ok(copy) => Ok(copy),
        Err(_) => Err(Fault::OutOfMemory),
    }
}

/// Appends the attribute of a request that asks for extensions, if there are any (RFC 2985, 5.4.2).
fn extension_request<A: Allocator + Copy>(
    maker: &mut Maker<A>,
    root: &Value<'_, A>,
    key: &[u8],
) -> Done
    ensures { OnOk result (Appends maker.old.out.items maker.new.out.items) }
{
    let start = maker.open();
    identifier(maker, 0x06, "1.2.840.113549.1.9.14")?;
    let set = maker.open();
    if short_extensions(maker, root, key)? {
        maker.close(set, 0x31)?;
        return maker.close(start, 0x30);
    }
    maker.out.truncate(start);
    Ok(())
}

/// Appends a `CertificationRequestInfo` of a short description: the members `subject` and `key`, and those that stand
/// for extensions.
///
/// # Errors
/// `Missing` or `Unknown`, and those of what stands in it.
pub fn short_request<A: Allocator + Copy>(maker: &mut Maker<A>, root: &Value<'_, A>) -> Done
    ensures { OnOk result (AppendsElement 48 maker.old.out.items maker.new.out.items) }
{
    let start = maker.open();
    let mut fields = Fields::of(&mut maker.place, root)?;
    fields.pass(&["type"]);
    fields.pass(&OF_REQUESTS);
    number(maker, 0x02, 0)?;
    subject_member(maker, &mut fields)?;
    let from = maker.open();
    key_member(maker, &mut fields, "key")?;
    let key = written_from(maker, from)?;
    fields.finish(&mut maker.place)?;
    let attributes = maker.open();
    extension_request(maker, root, key.as_slice())?;
    maker.close(attributes, 0xa0)?;
    maker.close(start, 0x30)
}
