//! Laws of the types of this crate. A function here does nothing when it runs: its contract is the law.

ghost use Rattle.std.specs.Prelude.{ℕ, List};
ghost use Rattle.x509_der.specs.Tally.{Tally};
ghost use Rattle.x509_list_outlines.specs.CertificateLists.{certificate_list, CertificateListAt};
ghost use Rattle.x509_list_outlines.specs.Revoked.{revoked, RevokedAt};
ghost use Rattle.x509_list_outlines.specs.TbsCertLists.{tbs_list, TbsListAt};

use crate::certificate_list_outline::CertificateListOutline;
use crate::revoked_certificate_outline::RevokedCertificateOutline;
use crate::tbs_cert_list_outline::TbsCertListOutline;
use std::alloc::Allocator;
use x509_der::laws::fields;

/// The law of fields of `RevokedCertificateOutline`: the serial number, the date and the extensions, where they are
/// encoded, stand one behind another.
pub fn revoked_certificate_outline_fields<A: Allocator + Copy>()
    ensures { (v : RevokedCertificateOutline A) (string : List ℕ) (y : Tally) → revoked.spelled v string y →
        RevokedAt v string y }
{
    fields::<RevokedCertificateOutline<A>, A>();
}

/// The law of fields of `TbsCertListOutline`: the version and the extensions, where they are encoded, and the others stand
/// one behind another.
pub fn tbs_cert_list_outline_fields<A: Allocator + Copy>()
    ensures { (v : TbsCertListOutline A) (string : List ℕ) (y : Tally) → tbs_list.spelled v string y →
        TbsListAt v string y }
{
    fields::<TbsCertListOutline<A>, A>();
}

/// The law of fields of `CertificateListOutline`: the signed part stands right behind the header, and behind it the
/// algorithm and the signature.
pub fn certificate_list_outline_fields<A: Allocator + Copy>()
    ensures { (v : CertificateListOutline A) (string : List ℕ) (y : Tally) → certificate_list.spelled v string y →
        CertificateListAt v string y }
{
    fields::<CertificateListOutline<A>, A>();
}
