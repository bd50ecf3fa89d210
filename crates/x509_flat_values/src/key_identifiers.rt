//! The identifiers of keys, as extensions carry them.

ghost use Rattle.std.specs.Prelude.{◌≡◌, ℕ, List};
ghost use Rattle.x509_der.specs.PrimitiveContent.{octets as bytes};
ghost use Rattle.x509_der.specs.Tagged.{tagged};
ghost use Rattle.x509_der.specs.Tally.{Tally};
ghost use Rattle.picky_asn1_x509.specs.AuthorityKeyIdentifier.{KeyAuthority, authority_key_identifier as authorities};
ghost use Rattle.x509_fields.specs.Spans.{FieldIn};
ghost use Rattle.x509_values.specs.Elements.{span_of};
ghost use Rattle.x509_flat_values.specs.Covered.{CoversAll, CoversIf, no_span};
ghost use Rattle.x509_flat_values.specs.Told.{Told};

use crate::answers::{done, nowhere, refused};
use picky_asn1_x509::{AuthorityKeyIdentifier, SubjectKeyIdentifier, check};
use std::alloc::Allocator;
use x509_der::laws::spellings_are_lawful;
use x509_fields::Span;
use x509_flat::status::Answer;
use x509_values::content_within;
use x509_values::elements::{Element, Elements};

/// The tag of `keyIdentifier [0] KeyIdentifier`.
const KEY_IDENTIFIER_TAG: u8 = 0x80;

/// Where the octets stand that identify a certificate's key (RFC 5280, 4.2.1.2), which the octets of an extension's value
/// encode.
pub fn subject_key_identifier<A: Allocator + Copy>(alloc: A, value: &[u8]) -> Answer<Span>
    ensures { Told (tagged 4 bytes) value.now (λ v at. CoversAll value.now at v) no_span result.status result.fields }
{
    let whole = Span {
        start: 0,
        end: value.len(),
    };
    match check::<SubjectKeyIdentifier<A>, A>(alloc, value) {
        Ok(_deviations) => done(content_within(value, whole)),
        Err(error) => refused(error, nowhere()),
    }
}

/// Where the octets stand that a field has which identify a key, or else those before it.
fn later(field: &Element<'_>, before: Span) -> Span
    ensures here { field.now.tag ≡ 128 → result ≡ span_of field.now.inside }
    ensures other { (field.now.tag ≡ 128 → ⊥) → result ≡ before }
{
    if field.tag != KEY_IDENTIFIER_TAG {
        return before;
    }
    field.inside.span()
}

/// Where the octets stand that identify the key in an authority key identifier, which a span of an input encodes: those of the
/// last field that has them.
fn key_identifier_within<A: Allocator + Copy>(input: &[u8], span: Span) -> Span
    ensures { (v : KeyAuthority A) (whole : Tally) → FieldIn authorities v span input.now whole →
        CoversIf input.now result v.key_identifier }
{
    let mut list = Elements::over(input, span);
    let mut fields = list.take().inside;
    let mut last = nowhere();
    'fields: while let Some(field) = fields.next() {
        last = later(&field, last);
    }
    last
}

/// Where the octets stand that identify the key of a certificate's issuer (RFC 5280, 4.2.1.1), in an authority key identifier
/// that the octets of an extension's value encode. The span is 0..0 where it has none.
pub fn authority_key_identifier<A: Allocator + Copy>(alloc: A, value: &[u8]) -> Answer<Span>
    ensures { Told (authorities {A = A}) value.now (λ v at. CoversIf value.now at v.key_identifier) no_span result.status result.fields }
{
    spellings_are_lawful::<AuthorityKeyIdentifier<A>, A>();
    let whole = Span {
        start: 0,
        end: value.len(),
    };
    match check::<AuthorityKeyIdentifier<A>, A>(alloc, value) {
        Ok(_deviations) => done(key_identifier_within::<A>(value, whole)),
        Err(error) => refused(error, nowhere()),
    }
}
