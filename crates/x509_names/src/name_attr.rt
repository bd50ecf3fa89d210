//! The attributes of names whose values are directory strings.

ghost use Rattle.std.specs.Prelude.{◌≡◌, ◌∷◌, [], IfOk};
ghost use Rattle.x509_der.specs.ObjectIdentifier.{arcs_spelled};
ghost use Rattle.x509_names.specs.Attributes.{arcs_of, attr_of as attr_by};

use std::alloc::{AllocError, Allocator};
use x509_der::parts::{OidRef, from_lawful};
use x509_der::{CloneEq, ObjectIdentifier, SameEq};

/// An attribute of a name whose value is a directory string (RFC 5280, appendix A.1; X.520).
#[derive(Clone, Copy, Debug, PartialEq, Eq)]
pub enum NameAttr {
    /// `id-at-commonName`, 2.5.4.3.
    CommonName,
    /// `id-at-surname`, 2.5.4.4.
    Surname,
    /// `id-at-serialNumber`, 2.5.4.5.
    SerialNumber,
    /// `id-at-countryName`, 2.5.4.6.
    CountryName,
    /// `id-at-localityName`, 2.5.4.7.
    LocalityName,
    /// `id-at-stateOrProvinceName`, 2.5.4.8.
    StateOrProvinceName,
    /// `id-at-streetAddress`, 2.5.4.9.
    StreetName,
    /// `id-at-organizationName`, 2.5.4.10.
    OrganizationName,
    /// `id-at-organizationalUnitName`, 2.5.4.11.
    OrganizationalUnitName,
    /// `id-at-givenName`, 2.5.4.42.
    GivenName,
    /// `id-at-telephoneNumber`, 2.5.4.20.
    Phone,
}

/// All of them.
const ATTRS: &'static [NameAttr] = &[
    NameAttr::CommonName,
    NameAttr::Surname,
    NameAttr::SerialNumber,
    NameAttr::CountryName,
    NameAttr::LocalityName,
    NameAttr::StateOrProvinceName,
    NameAttr::StreetName,
    NameAttr::OrganizationName,
    NameAttr::OrganizationalUnitName,
    NameAttr::GivenName,
    NameAttr::Phone,
];

impl SameEq for NameAttr {
    fn decides() {}
}

impl NameAttr {
    /// The last arc of its object identifier: 2.5.4 and this one, which the content spells by `0x55`, 4 and this one.
    #[tactic(auto, unfolding(x509_der::specs::ObjectIdentifier::numbers_from))]
    fn last_arc(&self) -> u8
        ensures arcs { arcs_of self.now ≡ 2 ∷ 5 ∷ 4 ∷ result ∷ [] }
        ensures content { arcs_spelled (85 ∷ 4 ∷ result ∷ []) ≡ arcs_of self.now }
    {
        match self {
            NameAttr::CommonName => 3,
            NameAttr::Surname => 4,
            NameAttr::SerialNumber => 5,
            NameAttr::CountryName => 6,
            NameAttr::LocalityName => 7,
            NameAttr::StateOrProvinceName => 8,
            NameAttr::StreetName => 9,
            NameAttr::OrganizationName => 10,
            NameAttr::OrganizationalUnitName => 11,
            NameAttr::GivenName => 42,
            NameAttr::Phone => 20,
        }
    }
}

impl CloneEq for NameAttr {
    ghost use Rattle.std.proofs.Common.{rules};

    ghost exact = { Prim.search (rules) };
}

/// The attribute that an object identifier says, of those whose values are directory strings.
pub(crate) fn attr_of(identifier: &OidRef<'_>) -> Option<NameAttr>
    ensures { result ≡ attr_by identifier.now }
{
    for attr in ATTRS {
        if identifier.is_content(&[0x55, 4, attr.last_arc()]) {
            return Some(*attr);
        }
    }
    None
}

/// The object identifier of an attribute.
///
/// # Errors
/// `AllocError` where memory is refused.
#[tactic(auto, using(crate::specs::facts::AttributeFacts::attr_lawful))]
pub(crate) fn identifier_of<A: Allocator>(
    alloc: A,
    attr: &NameAttr,
) -> Result<ObjectIdentifier<A>, AllocError>
    ensures { IfOk result (λ o. o ≡ arcs_of attr.now) }
{
    from_lawful(alloc, &[2, 5, 4, attr.last_arc() as u64])
}
