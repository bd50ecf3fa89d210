//! The fields that every revocation list has.

ghost use Rattle.std.specs.Prelude.{◌≡◌, refl, IfOk};
ghost use Rattle.x509_list_outlines.specs.TbsCertLists.{tbs_list_with, required_fields, required_of};

use crate::revoked_certificate_outline::RevokedCertificateOutline;
use crate::tbs_cert_list_outline::TbsCertListOutline;
use std::alloc::{AllocError, Allocator};
use std::marker::Model;
use x509_der::parts::{
    Content, Field, GENERALIZED_TIME_TAG, Join, One, Output, Reader, Ref, SEQUENCE_TAG, ToContent,
    UTC_TIME_TAG, clone_three,
};
use x509_der::{Asn1SequenceOf, ReadError, ToDer, TooLong};
use x509_names::{Time, Version};
use x509_outline_parts::{AlgorithmOutline, ExtensionsOutline, NameOutline};

/// The fields that every list has, one behind another, owned or borrowed.
type RequiredNest<S, N, T> = Join<S, Join<N, One<T>>>;

/// The fields that every list has, owned.
type RequiredParts<A> = RequiredNest<AlgorithmOutline<A>, NameOutline<A>, Time>;

/// These as one field: the structure's own field then has few parts. Contracts see the pairs.
#[derive(Drop)]
pub(crate) struct RequiredFields<A: Allocator>(RequiredParts<A>);

impl<A: Allocator> Model for RequiredFields<A> {
    ghost use Rattle.x509_list_outlines.specs.TbsCertLists.{RequiredFields};

    ghost Value = { RequiredFields A };

    ghost view = { λ c. c.0 };
}

impl<A: Allocator> ToDer for RequiredFields<A> {
    ghost strict = { required_fields.strict };

    fn put<O: Output>(&self, out: &mut [u8], at: usize) -> Result<usize, TooLong> {
        self.0.put_content::<O>(out, at)
    }
}

impl<A: Allocator + Copy> Field<A> for RequiredFields<A> {
    type Brief = ();

    ghost brief = { λ v. tt };

    ghost shape = { required_fields };

    ghost lawful = { λ h. ⟦<RequiredParts<A> as Content<A>>⟧.content_lawful (tt, (tt, tt, λ c h. refl), λ c h. refl) };

    ghost alone = { ⊥ };

    ghost elements = { λ h. absurd h };

    ghost agrees = { λ v. refl };

    fn starts(byte: u8) -> bool {
        // with any of the parts, as the shape of a join says
        byte == SEQUENCE_TAG || byte == UTC_TIME_TAG || byte == GENERALIZED_TIME_TAG
    }

    fn known(&self) {
        let RequiredFields(Join(signature, Join(issuer, One(this_update)))) = self;
        signature.known();
        issuer.known();
        Field::<A>::known(this_update);
    }

    fn read(alloc: A, reader: &mut Reader<'_, A>) -> Result<Self, ReadError> {
        Ok(RequiredFields(RequiredParts::read_content(alloc, reader)?))
    }

    fn pass(alloc: A, reader: &mut Reader<'_, A>) -> Result<(), ReadError> {
        let _brief = RequiredParts::<A>::pass_content(alloc, reader)?;
        Ok(())
    }
}

/// The value of these fields.
pub(crate) fn from_required<A: Allocator>(
    version: Version,
    required: RequiredFields<A>,
    next_update: Option<Time>,
    revoked_certificates: Option<Asn1SequenceOf<RevokedCertificateOutline<A>, A>>,
    crl_extensions: ExtensionsOutline<A>,
) -> TbsCertListOutline<A>
    ensures { result ≡ tbs_list_with version required next_update revoked_certificates crl_extensions }
{
    let RequiredFields(Join(signature, Join(issuer, One(this_update)))) = required;
    TbsCertListOutline {
        version,
        signature,
        issuer,
        this_update,
        next_update,
        revoked_certificates,
        crl_extensions,
    }
}

/// Equal fields of those that every list has.
///
/// # Errors
/// `AllocError` where memory is refused.
pub(crate) fn clone_required<A: Allocator + Copy>(
    value: &TbsCertListOutline<A>,
) -> Result<RequiredFields<A>, AllocError>
    ensures { IfOk result (λ required. required ≡ required_of value.now) }
{
    let (signature, issuer, this_update) = clone_three(
        &value.signature,
        &value.issuer,
        &value.this_update,
    )?;
    Ok(RequiredFields(Join(signature, Join(issuer, One(this_update)))))
}

/// The fields that every list has, borrowed.
type BorrowedParts<'a, A> = RequiredNest<
    Ref<'a, AlgorithmOutline<A>>,
    Ref<'a, NameOutline<A>>,
    Ref<'a, Time>,
>;

/// The fields that every list has, borrowed.
fn borrowed_required<A: Allocator>(value: &TbsCertListOutline<A>) -> BorrowedParts<'_, A>
    ensures { result ≡ required_of value.now }
{
    let behind = Join(Ref(&value.issuer), One(Ref(&value.this_update)));
    Join(Ref(&value.signature), behind)
}

/// These of a list as one field, to be written.
#[derive(Drop)]
pub(crate) struct WrittenRequired<'a, A: Allocator>(pub(crate) &'a TbsCertListOutline<A>);

impl<'a, A: Allocator> Model for WrittenRequired<'a, A> {
    ghost use Rattle.x509_list_outlines.specs.TbsCertLists.{RequiredFields, required_of};

    ghost Value = { RequiredFields A };

    ghost view = { λ w. required_of w.0.now };
}

impl<'a, A: Allocator> ToDer for WrittenRequired<'a, A> {
    ghost strict = { required_fields.strict };

    fn put<O: Output>(&self, out: &mut [u8], at: usize) -> Result<usize, TooLong> {
        borrowed_required(self.0).put_content::<O>(out, at)
    }
}
