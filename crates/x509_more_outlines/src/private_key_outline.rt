//! Private keys of any algorithm, of which the frame alone is read.

ghost use Rattle.std.specs.Prelude.{◌≡◌, refl};
ghost use Rattle.x509_der.specs.laws.Structure.{structure_lawful, structure_element};
ghost use Rattle.x509_more_outlines.specs.PrivateKeys.{end_parts, private_key_parts, private_key_base, private_key};
ghost use Rattle.x509_more_outlines.specs.facts.PrivateKeys.{private_key_from, private_key_same, attributes_apart};

use crate::public_bits_outline::PublicBitsOutline;
use std::alloc::{Allocator, Global};
use x509_der::parts::{
    ContextConstructed, Field, Join, One, Optional, Output, Reader, Ref, SEQUENCE_TAG, Sequence,
    Structure, Tagged, known_there,
};
use x509_der::{Asn1SetOf, CloneEq, FromDer, OctetStringAsn1, ReadError, SameEq, ToDer, TooLong};
use x509_outline::sequences::{pass_three, put_three, read_three};
use x509_outline_parts::{AlgorithmOutline, AttributeValuesOutline};

/// A private key of any algorithm, as octets that aren't looked into, and perhaps attributes and the public key. Whether
/// the version and the public key go together isn't looked at.
///
/// # Encoding
/// `OneAsymmetricKey ::= SEQUENCE { version INTEGER { v1(0), v2(1) }, privateKeyAlgorithm AlgorithmIdentifier,
/// privateKey OCTET STRING, attributes [0] IMPLICIT SET OF Attribute OPTIONAL, publicKey [1] BIT STRING OPTIONAL }` (RFC
/// 5958, 2), which was `PrivateKeyInfo` of RFC 5208, 5. The version is any from 0 to 255, and the public key stands under
/// an implicit or an explicit tag. An empty set of attributes is read, and the order of attributes is kept.
#[derive(Drop)]
#[derive_where(Debug, PartialEq, Eq)]
#[derive_where(Clone; A: Copy)]
pub struct PrivateKeyOutline<A: Allocator = Global> {
    /// The version: 0, or 1 with a public key, in RFC 5958.
    pub version: u8,
    /// The algorithm.
    pub private_key_algorithm: AlgorithmOutline<A>,
    /// The octets of the key.
    pub private_key: OctetStringAsn1<A>,
    /// What else is said of the key.
    pub attributes: Option<Asn1SetOf<AttributeValuesOutline<A>, A>>,
    /// The public key.
    pub public_key: Option<PublicBitsOutline<A>>,
}

impl<A: Allocator + Copy> CloneEq for PrivateKeyOutline<A> {
    ghost use Rattle.std.proofs.Common.{rules};

    ghost exact = { Prim.search (rules) };
}

/// The attributes.
type Attributes<A> = Asn1SetOf<AttributeValuesOutline<A>, A>;

impl<A: Allocator> SameEq for PrivateKeyOutline<A> {
    fn decides() {
        u8::decides();
        AlgorithmOutline::<A>::decides();
        OctetStringAsn1::<A>::decides();
        Option::<Attributes<A>>::decides();
        Option::<PublicBitsOutline<A>>::decides();
    }
}

/// The fields behind the algorithm, owned or borrowed.
type EndNest<O, L, B> = Join<O, Join<Optional<Tagged<ContextConstructed<0>, L>>, One<Optional<B>>>>;

/// The fields behind the algorithm, owned.
type KeyEnd<A> = EndNest<OctetStringAsn1<A>, Attributes<A>, PublicBitsOutline<A>>;

/// The fields behind the algorithm, borrowed.
type WrittenEnd<'a, A> = EndNest<
    Ref<'a, OctetStringAsn1<A>>,
    Ref<'a, Attributes<A>>,
    Ref<'a, PublicBitsOutline<A>>,
>;

/// The fields, owned.
type Inner<A> = Join<u8, Join<AlgorithmOutline<A>, KeyEnd<A>>>;

/// The SEQUENCE, owned.
type Fields<A> = Tagged<Sequence, Inner<A>>;

/// The fields behind the algorithm, to be written.
fn borrowed_end<A: Allocator>(value: &PrivateKeyOutline<A>) -> WrittenEnd<'_, A>
    ensures { result ≡ end_parts value.now }
{
    let attributes = Optional::borrowed_content(&value.attributes);
    let public_key = Optional::borrowed(&value.public_key);
    Join(Ref(&value.private_key), Join(attributes, One(public_key)))
}

impl<A: Allocator> ToDer for PrivateKeyOutline<A> {
    ghost strict = { private_key.strict };

    fn put<O: Output>(&self, out: &mut [u8], at: usize) -> Result<usize, TooLong> {
        let end = borrowed_end(self);
        put_three::<O, _, _, _>(&self.version, &self.private_key_algorithm, &end, out, at)
    }
}

impl<A: Allocator> Structure<Inner<A>> for PrivateKeyOutline<A> {
    ghost fields = { private_key_parts };

    fn from_fields(parts: Inner<A>) -> Self {
        let Join(version, Join(private_key_algorithm, Join(private_key, behind))) = parts;
        let Join(attributes, One(public_key)) = behind;
        PrivateKeyOutline {
            version,
            private_key_algorithm,
            private_key,
            attributes: attributes.into_inner(),
            public_key: public_key.0,
        }
    }

    ghost same = { private_key_same };

    ghost made = { λ f. (private_key_from f, refl) };
}

impl<A: Allocator + Copy> Field<A> for PrivateKeyOutline<A> {
    type Brief = ();

    ghost brief = { λ v. tt };

    ghost shape = { private_key };

    ghost lawful = { λ h. structure_lawful private_key_parts private_key_base private_key_same
        (⟦<Fields<A> as Field<A>>⟧.lawful (
          tt,
          (
            tt,
            (
              tt,
              (((tt, tt), tt), (tt, tt), attributes_apart),
              λ c h. refl,
            ),
            λ c h. refl,
          ),
          λ c h. refl,
        )) };

    ghost elements = { λ h. structure_element private_key_parts private_key_base
        (⟦<Fields<A> as Field<A>>⟧.elements tt) };

    ghost agrees = { λ v. refl };

    fn starts(byte: u8) -> bool {
        byte == SEQUENCE_TAG
    }

    fn known(&self) {
        let _version = self.version;
        self.private_key_algorithm.known();
        self.private_key.known();
        known_there::<Attributes<A>, A>(&self.attributes);
        known_there::<PublicBitsOutline<A>, A>(&self.public_key);
    }

    fn read(alloc: A, reader: &mut Reader<'_, A>) -> Result<Self, ReadError> {
        read_three::<Self, u8, AlgorithmOutline<A>, KeyEnd<A>, A>(alloc, reader)
    }

    fn pass(alloc: A, reader: &mut Reader<'_, A>) -> Result<(), ReadError> {
        pass_three::<Self, u8, AlgorithmOutline<A>, KeyEnd<A>, A>(alloc, reader)
    }
}

impl<A: Allocator + Copy> FromDer<A> for PrivateKeyOutline<A> {
    ghost stands_alone = { (tt, tt) };
}
