//! General names that are structures of their own.

ghost use Rattle.std.specs.Prelude.{OnOk};
ghost use Rattle.x509_make_parts.specs.Appending.{AppendsElement};

use crate::attributes::string_value;
use std::alloc::Allocator;
use x509_make_parts::{Done, Maker};
use x509_make_values::Fields;
use x509_make_values::identifiers::identified;
use x509_make_values::strings::UTF8;

/// Appends a text that must be a member, under a tag of its own.
fn tagged_text<A: Allocator + Copy>(
    maker: &mut Maker<A>,
    fields: &mut Fields<'_, '_, A>,
    name: &'static str,
    tag: u8,
) -> Done
    ensures { OnOk result (AppendsElement tag maker.old.out.items maker.new.out.items) }
{
    let start = maker.open();
    let text = fields.need(&mut maker.place, name)?;
    string_value(maker, text, UTF8)?;
    maker.place.leave();
    maker.close(start, tag)
}

/// Appends a name of another form: `SEQUENCE { type-id OBJECT IDENTIFIER, value [0] EXPLICIT ANY }` under [0].
///
/// # Errors
/// `Missing`, and those of its members.
pub(crate) fn other_name<A: Allocator + Copy>(
    maker: &mut Maker<A>,
    fields: &mut Fields<'_, '_, A>,
) -> Done
    ensures { OnOk result (AppendsElement 160 maker.old.out.items maker.new.out.items) }
{
    let start = maker.open();
    let form = fields.need(&mut maker.place, "type-id")?;
    identified(maker, 0x06, form)?;
    maker.place.leave();
    tagged_text(maker, fields, "value", 0xa0)?;
    maker.close(start, 0xa0)
}

/// Appends a party to electronic data interchange: `SEQUENCE { nameAssigner [0] DirectoryString OPTIONAL, partyName [1]
/// DirectoryString }` under [5].
///
/// # Errors
/// `Missing`, and those of its members.
pub(crate) fn edi_party<A: Allocator + Copy>(
    maker: &mut Maker<A>,
    fields: &mut Fields<'_, '_, A>,
) -> Done
    ensures { OnOk result (AppendsElement 165 maker.old.out.items maker.new.out.items) }
{
    let start = maker.open();
    if fields.has("nameAssigner") {
        tagged_text(maker, fields, "nameAssigner", 0xa0)?;
    }
    tagged_text(maker, fields, "partyName", 0xa1)?;
    maker.close(start, 0xa5)
}
