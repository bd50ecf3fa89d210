//! Certificates in the short form.

ghost use Rattle.std.specs.Prelude.{OnOk};
ghost use Rattle.x509_make_parts.specs.Appending.{Appends, AppendsElement};

use crate::certificates::{put_version, validity};
use crate::issuer::subject_of;
use crate::members::{key_member, subject_member};
use crate::pem::is_pem;
use crate::short_extensions::{OF_CERTIFICATES, short_extensions};
use crate::short_requests::written_from;
use json::Value;
use std::alloc::Allocator;
use x509_make_keys::members::{algorithm_member, integer_member};
use x509_make_names::names::name;
use x509_make_parts::{Done, Maker};
use x509_make_values::Fields;

/// Appends the issuer: the subject, that of a certificate in PEM, or a name.
fn issuer<A: Allocator + Copy>(maker: &mut Maker<A>, fields: &mut Fields<'_, '_, A>) -> Done
    ensures { OnOk result (Appends maker.old.out.items maker.new.out.items) }
{
    let told = fields.need(&mut maker.place, "issuer")?;
    match told {
        Value::String("subject") => {
            maker.place.leave();
            subject_member(maker, fields)
        }
        Value::String(text) if is_pem(*text) => {
            subject_of(maker, *text)?;
            maker.place.leave();
            Ok(())
        }
        _ => {
            name(maker, told)?;
            maker.place.leave();
            Ok(())
        }
    }
}

/// Appends the extensions under [3], if there are any.
fn tail<A: Allocator + Copy>(maker: &mut Maker<A>, root: &Value<'_, A>, key: &[u8]) -> Done
    ensures { OnOk result (Appends maker.old.out.items maker.new.out.items) }
{
    let start = maker.open();
    if short_extensions(maker, root, key)? {
        return maker.close(start, 0xa3);
    }
    maker.out.truncate(start);
    Ok(())
}

/// Appends a `TBSCertificate` of version 3 of a short description: the members `serialNumber`, `signature`, `issuer`,
/// `notBefore`, `notAfter`, `subject` and `key`, and those that stand for extensions.
///
/// # Errors
/// `Missing` or `Unknown`, and those of what stands in it.
pub fn short_certificate<A: Allocator + Copy>(maker: &mut Maker<A>, root: &Value<'_, A>) -> Done
    ensures { OnOk result (AppendsElement 48 maker.old.out.items maker.new.out.items) }
{
    let start = maker.open();
    let mut fields = Fields::of(&mut maker.place, root)?;
    fields.pass(&["type"]);
    fields.pass(&OF_CERTIFICATES);
    put_version(maker, 2)?;
    integer_member(maker, &mut fields, "serialNumber")?;
    algorithm_member(maker, &mut fields, "signature")?;
    issuer(maker, &mut fields)?;
    validity(maker, &mut fields)?;
    subject_member(maker, &mut fields)?;
    let from = maker.open();
    key_member(maker, &mut fields, "key")?;
    let key = written_from(maker, from)?;
    fields.finish(&mut maker.place)?;
    tail(maker, root, key.as_slice())?;
    maker.close(start, 0x30)
}
