//! PrivateKeyUsagePeriod, written by `tools/structures.py` from `declarations.asn1`.

ghost use Rattle.std.specs.Prelude.{◌≡◌, refl};
ghost use Rattle.x509_der.specs.laws.Structure.{structure_lawful};
ghost use Rattle.x509_more_extensions.specs.PrivateKeyUsagePeriod.{private_key_usage_period_parts, private_key_usage_period_inner, private_key_usage_period_content};
ghost use Rattle.x509_more_extensions.specs.facts.structures.PrivateKeyUsagePeriod.{private_key_usage_period_of, private_key_usage_period_same, private_key_usage_period_not_before_apart};

use std::alloc::Allocator;
use x509_der::parts::{
    Content, ContextPrimitive, FromContent, Join, One, Optional, Output, OwnTag, Reader, Ref,
    Sequence, Structure, Tagged, ToContent, known_there, pass_as_content, read_as_content,
};
use x509_der::{CloneEq, ReadError, SameEq, TooLong};
use x509_prim::GeneralizedTimeAsn1;

/// When the private key of a certificate is used (RFC 5280, A.2). A structure without fields is read too.
///
/// # Encoding
/// `PrivateKeyUsagePeriod ::= SEQUENCE { notBefore [0] GeneralizedTime OPTIONAL, notAfter [1] GeneralizedTime OPTIONAL
/// }`. Reading it takes no memory.
#[derive(Clone, Debug, Drop, PartialEq, Eq)]
pub struct PrivateKeyUsagePeriod {
    /// From when on.
    pub not_before: Option<GeneralizedTimeAsn1>,
    /// Until when.
    pub not_after: Option<GeneralizedTimeAsn1>,
}

impl CloneEq for PrivateKeyUsagePeriod {
    ghost use Rattle.std.proofs.Common.{rules};

    ghost exact = { Prim.search (rules) };
}

impl SameEq for PrivateKeyUsagePeriod {
    fn decides() {
        Option::<GeneralizedTimeAsn1>::decides();
    }
}

/// The fields in the SEQUENCE, owned or borrowed.
type Nest<B, C> = Join<
    Optional<Tagged<ContextPrimitive<0>, B>>,
    One<Optional<Tagged<ContextPrimitive<1>, C>>>,
>;

/// The fields, owned.
type Inner = Nest<GeneralizedTimeAsn1, GeneralizedTimeAsn1>;

/// The fields, borrowed.
type Written<'a> = Nest<Ref<'a, GeneralizedTimeAsn1>, Ref<'a, GeneralizedTimeAsn1>>;

/// The fields of a value, to be written.
fn written(value: &PrivateKeyUsagePeriod) -> Written<'_>
    ensures { result ≡ private_key_usage_period_parts value.now }
{
    Join(
        Optional::borrowed_content(&value.not_before),
        One(Optional::borrowed_content(&value.not_after)),
    )
}

impl ToContent for PrivateKeyUsagePeriod {
    ghost content = { λ v. private_key_usage_period_inner.strict (private_key_usage_period_parts v) };

    fn put_content<O: Output>(&self, out: &mut [u8], at: usize) -> Result<usize, TooLong> {
        written(self).put_content::<O>(out, at)
    }
}

impl Structure<Inner> for PrivateKeyUsagePeriod {
    ghost fields = { private_key_usage_period_parts };

    fn from_fields(parts: Inner) -> Self {
        let Join(not_before, One(not_after)) = parts;
        PrivateKeyUsagePeriod {
            not_before: not_before.into_inner(),
            not_after: not_after.into_inner(),
        }
    }

    ghost same = { private_key_usage_period_same };

    ghost made = { λ f. (private_key_usage_period_of f, refl) };
}

impl<A: Allocator + Copy> Content<A> for PrivateKeyUsagePeriod {
    type ContentBrief = ();

    ghost content_shape = { private_key_usage_period_content };

    ghost content_brief = { λ v. tt };

    ghost content_lawful = { λ h. structure_lawful private_key_usage_period_parts private_key_usage_period_inner private_key_usage_period_same
        (⟦<Inner as Content<A>>⟧.content_lawful ((tt, tt), (tt, tt), private_key_usage_period_not_before_apart)) };

    fn known_content(&self) {
        known_there::<GeneralizedTimeAsn1, A>(&self.not_before);
        known_there::<GeneralizedTimeAsn1, A>(&self.not_after);
    }

    fn read_content(alloc: A, reader: &mut Reader<'_, A>) -> Result<Self, ReadError> {
        read_as_content::<Self, Inner, A>(alloc, reader)
    }

    fn pass_content(alloc: A, reader: &mut Reader<'_, A>) -> Result<(), ReadError> {
        pass_as_content::<Self, Inner, A>(alloc, reader)
    }

    ghost content_agrees = { λ v. refl };
}

impl<A: Allocator + Copy> FromContent<A> for PrivateKeyUsagePeriod {
    ghost content_always = { tt };
}

impl OwnTag for PrivateKeyUsagePeriod {
    type Tag = Sequence;
}
