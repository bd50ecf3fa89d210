//! Laws of the types of this crate. A function here does nothing when it runs: its contract is the law.

ghost use Rattle.std.specs.Prelude.{ℕ, List};
ghost use Rattle.x509_der.specs.Tally.{Tally};
ghost use Rattle.x509_outline.specs.Certificates.{certificate, CertificateAt};
ghost use Rattle.x509_outline.specs.TbsCertificates.{tbs_certificate, TbsAt};

use crate::certificate_outline::CertificateOutline;
use crate::tbs_certificate_outline::TbsCertificateOutline;
use std::alloc::Allocator;
use x509_der::laws::fields;

/// The law of fields of `TbsCertificateOutline`: the version and the extensions, where they are encoded, and the others
/// stand one behind another.
pub fn tbs_certificate_outline_fields<A: Allocator + Copy>()
    ensures { (v : TbsCertificateOutline A) (string : List ℕ) (y : Tally) → tbs_certificate.spelled v string y →
        TbsAt v string y }
{
    fields::<TbsCertificateOutline<A>, A>();
}

/// The law of fields of `CertificateOutline`: the signed part stands right behind the header, and behind it the algorithm
/// and the signature.
pub fn certificate_outline_fields<A: Allocator + Copy>()
    ensures { (v : CertificateOutline A) (string : List ℕ) (y : Tally) → certificate.spelled v string y →
        CertificateAt v string y }
{
    fields::<CertificateOutline<A>, A>();
}
