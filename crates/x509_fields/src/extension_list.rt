//! Where the extensions of a list stand.

ghost use Rattle.std.specs.Prelude.{ℕ, List};
ghost use Rattle.x509_der.specs.Tally.{Tally};
ghost use Rattle.picky_asn1_x509.specs.Certificates.{certificate};
ghost use Rattle.picky_asn1_x509.specs.ExtensionLists.{extensions};
ghost use Rattle.x509_fields.specs.Found.{CarriedIn, CarriedWithin, ListedIn, ListWithin};

use crate::certificate::CertificateFields;
use crate::walk::Walk;
use picky_asn1_x509::{Certificate, Extensions, laws};
use std::alloc::Allocator;

/// A walk over the extensions of a certificate, in the bytes that it was read from: each is the next element. It is over
/// nothing where the certificate has none. Takes no memory.
pub fn certificate_extensions<'a, A: Allocator + Copy>(
    value: &Certificate<A>,
    bytes: &'a [u8],
) -> Walk<'a>
    ensures { (y : Tally) → (certificate {A = A}).spelled value.now bytes.now y → CarriedIn value.now result bytes.now y }
{
    let _ = value;
    certificate_items::<A>(bytes)
}

/// A walk over the extensions of the certificate that the bytes encode, whatever it is: each is the next element. Takes
/// no memory. Of bytes that encode no certificate the walk says nothing.
pub fn certificate_items<A: Allocator + Copy>(bytes: &[u8]) -> Walk<'_>
    ensures { CarriedWithin A bytes.now result }
{
    laws::spellings_are_lawful::<Extensions<A>, A>();
    let places = CertificateFields::within::<A>(bytes);
    match places.fields.extensions {
        Some(tagged) => Walk::over(bytes, tagged).inside().inside(),
        None => Walk::of(&[]),
    }
}

/// A walk over the extensions of a list, in the bytes that it was read from: each is the next element. Takes no memory.
pub fn listed_extensions<'a, A: Allocator + Copy>(
    value: &Extensions<A>,
    bytes: &'a [u8],
) -> Walk<'a>
    ensures { (y : Tally) → (extensions {A = A}).spelled value.now bytes.now y → ListedIn value.now result bytes.now y }
{
    let _ = value;
    listed_items::<A>(bytes)
}

/// A walk over the extensions of the list that the bytes encode, whatever it is: each is the next element. Takes no
/// memory. Of bytes that encode no list of extensions the walk says nothing.
pub fn listed_items<A: Allocator + Copy>(bytes: &[u8]) -> Walk<'_>
    ensures { ListWithin A bytes.now result }
{
    laws::fields::<Extensions<A>, A>();
    Walk::of(bytes).inside()
}
