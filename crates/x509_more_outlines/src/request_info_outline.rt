//! The part of a request that is signed, of which the frame alone is read.

ghost use Rattle.std.specs.Prelude.{◌≡◌, refl};
ghost use Rattle.x509_der.specs.laws.Structure.{structure_lawful, structure_element};
ghost use Rattle.x509_more_outlines.specs.Requests.{end_parts, info_parts, info_base, request_info};
ghost use Rattle.x509_more_outlines.specs.facts.Requests.{info_from, info_same};

use std::alloc::{AllocError, Allocator, Global};
use x509_der::parts::{
    ContextConstructed, Field, Join, One, Output, Reader, Ref, SEQUENCE_TAG, Sequence, Structure,
    Tagged, clone_three,
};
use x509_der::{Asn1SetOf, CloneEq, FromDer, ReadError, SameEq, ToDer, TooLong};
use x509_outline::sequences::{pass_three, put_three, read_three};
use x509_outline_parts::{AttributeValuesOutline, NameOutline, PublicKeyOutline};

/// The part of a request that is signed, with names, keys and attributes of any kind.
///
/// # Encoding
/// `CertificationRequestInfo ::= SEQUENCE { version INTEGER, subject Name, subjectPKInfo SubjectPublicKeyInfo,
/// attributes [0] IMPLICIT SET OF Attribute }` (RFC 2986, 4.1). The version is any from 0 to 255. The tag of the
/// attributes is asked for, also where there are none; their order is kept.
#[derive(Drop)]
#[derive_where(Debug, PartialEq, Eq)]
pub struct RequestInfoOutline<A: Allocator = Global> {
    /// The version: 0 in RFC 2986.
    pub version: u8,
    /// Whose key is to be certified.
    pub subject: NameOutline<A>,
    /// The key.
    pub subject_public_key_info: PublicKeyOutline<A>,
    /// What else is asked for.
    pub attributes: Asn1SetOf<AttributeValuesOutline<A>, A>,
}

impl<A: Allocator + Copy> Clone for RequestInfoOutline<A> {
    ghost is_clone = { λ x y. y ≡ x };

    fn clone(&self) -> Result<Self, AllocError> {
        let (subject, subject_public_key_info, attributes) = clone_three(
            &self.subject,
            &self.subject_public_key_info,
            &self.attributes,
        )?;
        Ok(RequestInfoOutline {
            version: self.version,
            subject,
            subject_public_key_info,
            attributes,
        })
    }
}

impl<A: Allocator + Copy> CloneEq for RequestInfoOutline<A> {
    ghost exact = { λ x y h. h };
}

/// The attributes.
type Attributes<A> = Asn1SetOf<AttributeValuesOutline<A>, A>;

impl<A: Allocator> SameEq for RequestInfoOutline<A> {
    fn decides() {
        u8::decides();
        NameOutline::<A>::decides();
        PublicKeyOutline::<A>::decides();
        Attributes::<A>::decides();
    }
}

/// The last two fields, owned or borrowed.
type EndNest<K, L> = Join<K, One<Tagged<ContextConstructed<0>, L>>>;

/// The last two fields, owned.
type InfoEnd<A> = EndNest<PublicKeyOutline<A>, Attributes<A>>;

/// The last two fields, borrowed.
type WrittenEnd<'a, A> = EndNest<Ref<'a, PublicKeyOutline<A>>, Ref<'a, Attributes<A>>>;

/// The fields, owned.
type Inner<A> = Join<u8, Join<NameOutline<A>, InfoEnd<A>>>;

/// The SEQUENCE, owned.
type Fields<A> = Tagged<Sequence, Inner<A>>;

/// The last two fields, to be written.
fn borrowed_end<A: Allocator>(value: &RequestInfoOutline<A>) -> WrittenEnd<'_, A>
    ensures { result ≡ end_parts value.now }
{
    Join(
        Ref(&value.subject_public_key_info),
        One(Tagged::new(Ref(&value.attributes))),
    )
}

impl<A: Allocator> ToDer for RequestInfoOutline<A> {
    ghost strict = { request_info.strict };

    fn put<O: Output>(&self, out: &mut [u8], at: usize) -> Result<usize, TooLong> {
        let end = borrowed_end(self);
        put_three::<O, _, _, _>(&self.version, &self.subject, &end, out, at)
    }
}

impl<A: Allocator> Structure<Inner<A>> for RequestInfoOutline<A> {
    ghost fields = { info_parts };

    fn from_fields(parts: Inner<A>) -> Self {
        let Join(version, Join(subject, Join(subject_public_key_info, One(attributes)))) = parts;
        RequestInfoOutline {
            version,
            subject,
            subject_public_key_info,
            attributes: attributes.into_inner(),
        }
    }

    ghost same = { info_same };

    ghost made = { λ f. (info_from f, refl) };
}

impl<A: Allocator + Copy> Field<A> for RequestInfoOutline<A> {
    type Brief = ();

    ghost brief = { λ v. tt };

    ghost shape = { request_info };

    ghost lawful = { λ h. structure_lawful info_parts info_base info_same
        (⟦<Fields<A> as Field<A>>⟧.lawful (tt, (tt, (tt, (tt, tt), λ c h. refl), λ c h. refl), λ c h. refl)) };

    ghost elements = { λ h. structure_element info_parts info_base
        (⟦<Fields<A> as Field<A>>⟧.elements tt) };

    ghost agrees = { λ v. refl };

    fn starts(byte: u8) -> bool {
        byte == SEQUENCE_TAG
    }

    fn known(&self) {
        let _version = self.version;
        self.subject.known();
        self.subject_public_key_info.known();
        Field::<A>::known(&self.attributes);
    }

    fn read(alloc: A, reader: &mut Reader<'_, A>) -> Result<Self, ReadError> {
        read_three::<Self, u8, NameOutline<A>, InfoEnd<A>, A>(alloc, reader)
    }

    fn pass(alloc: A, reader: &mut Reader<'_, A>) -> Result<(), ReadError> {
        pass_three::<Self, u8, NameOutline<A>, InfoEnd<A>, A>(alloc, reader)
    }
}

impl<A: Allocator + Copy> FromDer<A> for RequestInfoOutline<A> {
    ghost stands_alone = { (tt, tt) };
}
