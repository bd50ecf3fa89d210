//! The plain structures of this crate, written by `tools/structures.py` from `declarations.asn1`.

pub mod certificate_policies;
pub mod display_text;
pub mod laws;
pub mod notice_reference;
pub mod policy_information;
pub mod policy_qualifier_info;
pub mod user_notice;

pub use self::certificate_policies::CertificatePolicies;
pub use self::display_text::DisplayText;
pub use self::notice_reference::NoticeReference;
pub use self::policy_information::PolicyInformation;
pub use self::policy_qualifier_info::PolicyQualifierInfo;
pub use self::user_notice::UserNotice;
