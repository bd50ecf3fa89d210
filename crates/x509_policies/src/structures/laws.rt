//! The laws of fields of the plain structures of this crate, written by `tools/structures.py` from `declarations.asn1`.
//! A function here does nothing when it runs: its contract is the law.

ghost use Rattle.std.specs.Prelude.{List, ℕ};
ghost use Rattle.x509_der.specs.Fields.{ContentFirst};
ghost use Rattle.x509_der.specs.Items.{items};
ghost use Rattle.x509_der.specs.Tally.{Tally};
ghost use Rattle.x509_policies.specs.DisplayText.{display_text};
ghost use Rattle.x509_policies.specs.NoticeReference.{notice_reference};
ghost use Rattle.x509_policies.specs.PolicyInformation.{certificate_policies, policy_information};
ghost use Rattle.x509_policies.specs.PolicyQualifierInfo.{policy_qualifier_info};
ghost use Rattle.x509_policies.specs.UserNotice.{user_notice};
ghost use Rattle.x509_policies.specs.fields.DisplayText.{DisplayTextAt};
ghost use Rattle.x509_policies.specs.fields.NoticeReference.{NoticeReferenceAt};
ghost use Rattle.x509_policies.specs.fields.PolicyInformation.{PolicyInformationAt};
ghost use Rattle.x509_policies.specs.fields.PolicyQualifierInfo.{PolicyQualifierInfoAt};
ghost use Rattle.x509_policies.specs.fields.UserNotice.{UserNoticeAt};

use crate::structures::{
    CertificatePolicies, DisplayText, NoticeReference, PolicyInformation, PolicyQualifierInfo,
    UserNotice,
};
use std::alloc::Allocator;
use x509_der::laws::fields;

/// The law of fields of `PolicyQualifierInfo`: in each encoding they stand one behind the other, right behind the
/// header.
pub fn policy_qualifier_info_fields<A: Allocator + Copy>()
    ensures { (v : PolicyQualifierInfo A) (string : List ℕ) (y : Tally) → policy_qualifier_info.spelled v string y →
        PolicyQualifierInfoAt v string y }
{
    fields::<PolicyQualifierInfo<A>, A>();
}

/// The law of fields of `PolicyInformation`: in each encoding they stand one behind the other, right behind the header.
pub fn policy_information_fields<A: Allocator + Copy>()
    ensures { (v : PolicyInformation A) (string : List ℕ) (y : Tally) → policy_information.spelled v string y →
        PolicyInformationAt v string y }
{
    fields::<PolicyInformation<A>, A>();
}

/// The law of fields of `CertificatePolicies`: the items stand one behind another, right behind the header.
pub fn certificate_policies_fields<A: Allocator + Copy>()
    ensures { (v : List (PolicyInformation A)) (string : List ℕ) (y : Tally) → certificate_policies.spelled v string y →
        ContentFirst 48 (items policy_information) v string y }
{
    fields::<CertificatePolicies<A>, A>();
}

/// The law of fields of `DisplayText`: each encoding is one of the alternative that was taken.
pub fn display_text_fields<A: Allocator + Copy>()
    ensures { (v : DisplayText A) (string : List ℕ) (y : Tally) → display_text.spelled v string y →
        DisplayTextAt v string y }
{
    fields::<DisplayText<A>, A>();
}

/// The law of fields of `NoticeReference`: in each encoding they stand one behind the other, right behind the header.
pub fn notice_reference_fields<A: Allocator + Copy>()
    ensures { (v : NoticeReference A) (string : List ℕ) (y : Tally) → notice_reference.spelled v string y →
        NoticeReferenceAt v string y }
{
    fields::<NoticeReference<A>, A>();
}

/// The law of fields of `UserNotice`: in each encoding they stand one behind the other, right behind the header.
pub fn user_notice_fields<A: Allocator + Copy>()
    ensures { (v : UserNotice A) (string : List ℕ) (y : Tally) → user_notice.spelled v string y →
        UserNoticeAt v string y }
{
    fields::<UserNotice<A>, A>();
}
