//! Values of extensions, lent.

ghost use Rattle.std.specs.Prelude.{◌≡◌, ⊤};

use crate::authority_key_identifier::AuthorityKeyIdentifier;
use crate::basic_constraints::BasicConstraints;
use crate::extended_key_usage::ExtendedKeyUsage;
use crate::key_identifier::SubjectKeyIdentifier;
use crate::key_usage::KeyUsage;
use std::alloc::{AllocError, Allocator, Global};
use x509_der::{IntegerAsn1, OctetStringAsn1, OctetStringAsn1Container, SameEq};
use x509_names::GeneralNames;

/// The value of an extension, lent: the variant is the one that the object identifier says.
#[derive(Drop)]
#[derive_where(Debug, Copy, PartialEq, Eq)]
pub enum ExtensionView<'a, A: Allocator = Global> {
    /// Which key signed (RFC 5280, 4.2.1.1).
    AuthorityKeyIdentifier(&'a AuthorityKeyIdentifier<A>),
    /// The identifier of the certified key (RFC 5280, 4.2.1.2).
    SubjectKeyIdentifier(&'a SubjectKeyIdentifier<A>),
    /// What the certified key may be used for (RFC 5280, 4.2.1.3).
    KeyUsage(&'a KeyUsage<A>),
    /// Further names of the subject (RFC 5280, 4.2.1.6).
    SubjectAltName(&'a GeneralNames<A>),
    /// Further names of the issuer (RFC 5280, 4.2.1.7).
    IssuerAltName(&'a GeneralNames<A>),
    /// Whether the subject is an authority (RFC 5280, 4.2.1.9).
    BasicConstraints(&'a BasicConstraints),
    /// What the certified key is for (RFC 5280, 4.2.1.12).
    ExtendedKeyUsage(&'a ExtendedKeyUsage<A>),
    /// The octets of an extension that isn't known here.
    Generic(&'a OctetStringAsn1<A>),
    /// The number of a revocation list (RFC 5280, 5.2.3).
    CrlNumber(&'a OctetStringAsn1Container<IntegerAsn1<A>>),
}

// By hand, since a derived one copies field by field, in 20 seconds of proof.
impl<A: Allocator> Clone for ExtensionView<'_, A> {
    ghost is_clone = { λ view copy. copy ≡ view };

    ghost is_infallible = { λ _. ⊤ };

    fn clone(&self) -> Result<Self, AllocError> {
        Ok(*self)
    }
}

/// A view whose `==` answers true exactly where two of them lend the same value.
pub(crate) trait SameLent<A: Allocator>: Eq {
    ghost use Rattle.std.specs.Prelude.{◌≡◌};
    ghost use Rattle.std.specs.Bool.{Decides};
    ghost use Rattle.picky_asn1_x509_parts.specs.declared.extension_value.ExtensionValue.{ExtensionValue};

    /// The value that a view lends.
    ghost lent: { Self → ExtensionValue A };

    /// `==` decides whether two views lend the same value. It does nothing when it runs: its contract is the law.
    fn decides()
        ensures { (x y : Self) → Decides (Self.eq x y) (lent x ≡ lent y) };
}

impl<A: Allocator> SameLent<A> for ExtensionView<'_, A> {
    ghost use Rattle.picky_asn1_x509_parts.specs.Extensions.{viewed};

    ghost lent = { viewed };

    fn decides() {
        AuthorityKeyIdentifier::<A>::decides();
        SubjectKeyIdentifier::<A>::decides();
        KeyUsage::<A>::decides();
        GeneralNames::<A>::decides();
        BasicConstraints::decides();
        ExtendedKeyUsage::<A>::decides();
        OctetStringAsn1Container::<IntegerAsn1<A>>::decides();
    }
}
