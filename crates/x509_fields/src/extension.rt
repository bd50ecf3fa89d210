//! Where the fields of an extension stand.

ghost use Rattle.std.specs.Prelude.{ℕ, List};
ghost use Rattle.x509_der.specs.Tally.{Tally};
ghost use Rattle.picky_asn1_x509.specs.Extensions.{extension};
ghost use Rattle.x509_fields.specs.Found.{ExtensionWithin};
ghost use Rattle.x509_fields.specs.Extensions.{ExtensionIn};

use crate::span::Span;
use crate::walk::Walk;
use picky_asn1_x509::{Extension, laws};
use std::alloc::Allocator;
use x509_der::parts::BOOLEAN_TAG;

/// Where the fields of an extension stand in the bytes that encode it: each with its tag and its length. A criticality
/// that is left out has no place (RFC 5280, 4.1).
#[derive(Clone, Copy, Debug, PartialEq, Eq)]
pub struct ExtensionFields {
    /// `extnID OBJECT IDENTIFIER`.
    pub extn_id: Span,
    /// `critical BOOLEAN DEFAULT FALSE`.
    pub critical: Option<Span>,
    /// `extnValue OCTET STRING`.
    pub extn_value: Span,
}

impl ExtensionFields {
    /// Where the fields of an extension stand in the bytes that it was read from, or the slice of a larger input that
    /// encodes it: in each span stand the bytes that encode the field. Takes no memory. Of bytes that don't encode the
    /// extension the spans say nothing.
    pub fn of<A: Allocator + Copy>(value: &Extension<A>, bytes: &[u8]) -> Self
        ensures { (y : Tally) → (extension {A = A}).spelled value.now bytes.now y → ExtensionIn value.now result bytes.now y }
    {
        let _ = value;
        Self::within::<A>(bytes)
    }

    /// Where the fields of the extension stand that the bytes encode, whatever extension it is: no value is needed. Takes no
    /// memory. Of bytes that encode no extension the spans say nothing.
    pub fn within<A: Allocator + Copy>(bytes: &[u8]) -> Self
        ensures { ExtensionWithin A bytes.now result }
    {
        laws::extension_fields::<A>();
        let mut walk = Walk::of(bytes).inside();
        let extn_id = walk.next();
        let critical = walk.next_if(BOOLEAN_TAG);
        let extn_value = walk.next();
        ExtensionFields {
            extn_id,
            critical,
            extn_value,
        }
    }
}
