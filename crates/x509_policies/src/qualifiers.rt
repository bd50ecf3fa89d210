//! What policies say of themselves, read by kind.

ghost use Rattle.std.specs.Prelude.{◌≡◌};
ghost use Rattle.x509_policies.specs.Qualifiers.{kind_of as kind_by, IsSaid};

use crate::structures::{PolicyQualifierInfo, UserNotice};
use std::alloc::{Allocator, Global};
use x509_der::{Asn1RawDer, Deviations, ObjectIdentifierAsn1, Refused, read_explained};
use x509_prim::Ia5StringAsn1;

/// The kind of what a policy says of itself.
#[derive(Clone, Copy, Debug, Drop, PartialEq, Eq)]
pub enum QualifierKind {
    /// `id-qt-cps`, 1.3.6.1.5.5.7.2.1.
    Cps,
    /// `id-qt-unotice`, 1.3.6.1.5.5.7.2.2.
    UserNotice,
    /// Any other.
    Other,
}

/// What a policy says of itself (RFC 5280, 4.2.1.4).
#[derive(Drop)]
#[derive_where(Debug, PartialEq, Eq)]
#[derive_where(Clone; A: Copy)]
pub enum Qualifier<A: Allocator = Global> {
    /// `CPSuri ::= IA5String`: the address of the statement of certification practices.
    Cps(Ia5StringAsn1<A>),
    /// What is to be shown to whoever relies on the certificate.
    UserNotice(UserNotice<A>),
    /// Something of a kind that isn't known, as it is.
    Other(Asn1RawDer<A>),
}

impl QualifierKind {
    /// The kind that an object identifier tells. Contents are compared, and no arcs are decoded.
    #[tactic(auto, unfolding(x509_der::specs::ObjectIdentifier::numbers_from))]
    pub fn of<A: Allocator>(identifier: &ObjectIdentifierAsn1<A>) -> QualifierKind
        ensures { result ≡ kind_by identifier.now }
    {
        if identifier.0.is_content(&[0x2B, 6, 1, 5, 5, 7, 2, 1]) {
            QualifierKind::Cps
        } else if identifier.0.is_content(&[0x2B, 6, 1, 5, 5, 7, 2, 2]) {
            QualifierKind::UserNotice
        } else {
            QualifierKind::Other
        }
    }
}

/// Reads what a policy says of itself, as one of a kind.
///
/// # Errors
/// As `PolicyQualifierInfo::read`.
fn read_as<A: Allocator + Copy>(
    alloc: A,
    kind: QualifierKind,
    element: &[u8],
) -> Result<(Qualifier<A>, Deviations), Refused>
    ensures { IsSaid kind element.now result }
{
    match kind {
        QualifierKind::Cps => match read_explained(alloc, element) {
            Ok((address, deviations)) => Ok((Qualifier::Cps(address), deviations)),
            Err(refused) => Err(refused),
        },
        QualifierKind::UserNotice => match read_explained(alloc, element) {
            Ok((notice, deviations)) => Ok((Qualifier::UserNotice(notice), deviations)),
            Err(refused) => Err(refused),
        },
        QualifierKind::Other => match read_explained(alloc, element) {
            Ok((other, deviations)) => Ok((Qualifier::Other(other), deviations)),
            Err(refused) => Err(refused),
        },
    }
}

impl<A: Allocator + Copy> PolicyQualifierInfo<A> {
    /// What the policy says, read by the kind that `policy_qualifier_id` tells, and the deviations in it.
    ///
    /// # Errors
    /// Refused exactly where what stands there isn't of that kind, or memory is refused; with how far the reader had got
    /// in `qualifier`, as by `read_explained`.
    pub fn read(&self, alloc: A) -> Result<(Qualifier<A>, Deviations), Refused>
        ensures { IsSaid (kind_by self.now.policy_qualifier_id) self.now.qualifier result }
    {
        read_as(
            alloc,
            QualifierKind::of(&self.policy_qualifier_id),
            self.qualifier.as_bytes(),
        )
    }
}
