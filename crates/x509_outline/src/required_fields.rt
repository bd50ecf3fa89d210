//! The fields that every certificate has.

ghost use Rattle.std.specs.Prelude.{◌≡◌, refl, IfOk};
ghost use Rattle.x509_outline.specs.TbsCertificates.{tbs_with, required_fields, required_of};

use crate::tbs_certificate_outline::TbsCertificateOutline;
use std::alloc::{AllocError, Allocator};
use std::marker::Model;
use x509_der::parts::{
    Content, Field, INTEGER_TAG, Join, One, Output, Reader, Ref, SEQUENCE_TAG, ToContent,
    clone_three,
};
use x509_der::{BitStringAsn1, IntegerAsn1, ReadError, ToDer, TooLong};
use x509_names::{Validity, Version};
use x509_outline_parts::{AlgorithmOutline, ExtensionsOutline, NameOutline, PublicKeyOutline};

/// The fields that every certificate has, one behind another, owned or borrowed.
type RequiredNest<I, S, N, V, K> = Join<I, Join<S, Join<N, Join<V, Join<N, One<K>>>>>>;

/// The fields that every certificate has, owned.
type RequiredParts<A> = RequiredNest<
    IntegerAsn1<A>,
    AlgorithmOutline<A>,
    NameOutline<A>,
    Validity,
    PublicKeyOutline<A>,
>;

/// These as one field: the structure's own field then has few parts. Contracts see the pairs.
#[derive(Drop)]
pub(crate) struct RequiredFields<A: Allocator>(RequiredParts<A>);

impl<A: Allocator> Model for RequiredFields<A> {
    ghost use Rattle.x509_outline.specs.TbsCertificates.{RequiredFields};

    ghost Value = { RequiredFields A };

    ghost view = { λ c. c.0 };
}

impl<A: Allocator> ToDer for RequiredFields<A> {
    ghost strict = { required_fields.strict };

    fn put<O: Output>(&self, out: &mut [u8], at: usize) -> Result<usize, TooLong> {
        self.0.put_content::<O>(out, at)
    }
}

impl<A: Allocator + Copy> Field<A> for RequiredFields<A> {
    type Brief = ();

    ghost brief = { λ v. tt };

    ghost shape = { required_fields };

    ghost lawful = { λ h. ⟦<RequiredParts<A> as Content<A>>⟧.content_lawful (
      tt,
      (
        tt,
        (
          tt,
          (
            tt,
            (tt, tt, λ c h. refl),
            λ c h. refl,
          ),
          λ c h. refl,
        ),
        λ c h. refl,
      ),
      λ c h. refl,
    ) };

    ghost alone = { ⊥ };

    ghost elements = { λ h. absurd h };

    ghost agrees = { λ v. refl };

    fn starts(byte: u8) -> bool {
        // with any of the parts, as the shape of a join says
        byte == INTEGER_TAG || byte == SEQUENCE_TAG
    }

    fn known(&self) {
        let RequiredFields(Join(serial_number, Join(signature, Join(issuer, rest)))) = self;
        let Join(validity, Join(subject, One(subject_public_key_info))) = rest;
        serial_number.known();
        signature.known();
        issuer.known();
        Field::<A>::known(validity);
        subject.known();
        subject_public_key_info.known();
    }

    fn read(alloc: A, reader: &mut Reader<'_, A>) -> Result<Self, ReadError> {
        Ok(RequiredFields(RequiredParts::read_content(alloc, reader)?))
    }

    fn pass(alloc: A, reader: &mut Reader<'_, A>) -> Result<(), ReadError> {
        let _brief = RequiredParts::<A>::pass_content(alloc, reader)?;
        Ok(())
    }
}

/// The value of these fields.
pub(crate) fn from_required<A: Allocator>(
    version: Version,
    required: RequiredFields<A>,
    issuer_unique_id: Option<BitStringAsn1<A>>,
    subject_unique_id: Option<BitStringAsn1<A>>,
    extensions: ExtensionsOutline<A>,
) -> TbsCertificateOutline<A>
    ensures { result ≡ tbs_with version required issuer_unique_id subject_unique_id extensions }
{
    let RequiredFields(Join(serial_number, Join(signature, Join(issuer, rest)))) = required;
    let Join(validity, Join(subject, One(subject_public_key_info))) = rest;
    TbsCertificateOutline {
        version,
        serial_number,
        signature,
        issuer,
        validity,
        subject,
        subject_public_key_info,
        issuer_unique_id,
        subject_unique_id,
        extensions,
    }
}

/// Equal fields of those that every certificate has.
///
/// # Errors
/// `AllocError` where memory is refused.
pub(crate) fn clone_required<A: Allocator + Copy>(
    value: &TbsCertificateOutline<A>,
) -> Result<RequiredFields<A>, AllocError>
    ensures { IfOk result (λ required. required ≡ required_of value.now) }
{
    let (serial_number, signature, issuer) = clone_three(
        &value.serial_number,
        &value.signature,
        &value.issuer,
    )?;
    let (validity, subject, key) = clone_three(
        &value.validity,
        &value.subject,
        &value.subject_public_key_info,
    )?;
    let rest = Join(validity, Join(subject, One(key)));
    Ok(RequiredFields(Join(serial_number, Join(signature, Join(issuer, rest)))))
}

/// The fields that every certificate has, borrowed.
type BorrowedParts<'a, A> = RequiredNest<
    Ref<'a, IntegerAsn1<A>>,
    Ref<'a, AlgorithmOutline<A>>,
    Ref<'a, NameOutline<A>>,
    Ref<'a, Validity>,
    Ref<'a, PublicKeyOutline<A>>,
>;

/// The fields that every certificate has, borrowed.
fn borrowed_required<A: Allocator>(value: &TbsCertificateOutline<A>) -> BorrowedParts<'_, A>
    ensures { result ≡ required_of value.now }
{
    let subject = Join(
        Ref(&value.subject),
        One(Ref(&value.subject_public_key_info)),
    );
    let rest = Join(Ref(&value.issuer), Join(Ref(&value.validity), subject));
    Join(Ref(&value.serial_number), Join(Ref(&value.signature), rest))
}

/// These of a certificate as one field, to be written.
#[derive(Drop)]
pub(crate) struct WrittenRequired<'a, A: Allocator>(pub(crate) &'a TbsCertificateOutline<A>);

impl<'a, A: Allocator> Model for WrittenRequired<'a, A> {
    ghost use Rattle.x509_outline.specs.TbsCertificates.{RequiredFields, required_of};

    ghost Value = { RequiredFields A };

    ghost view = { λ w. required_of w.0.now };
}

impl<'a, A: Allocator> ToDer for WrittenRequired<'a, A> {
    ghost strict = { required_fields.strict };

    fn put<O: Output>(&self, out: &mut [u8], at: usize) -> Result<usize, TooLong> {
        borrowed_required(self.0).put_content::<O>(out, at)
    }
}
