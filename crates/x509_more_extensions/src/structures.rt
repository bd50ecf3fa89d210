//! The plain structures of this crate, written by `tools/structures.py` from `declarations.asn1`.

pub mod access_description;
pub mod authority_info_access;
pub mod general_subtree;
pub mod general_subtrees;
pub mod laws;
pub mod name_constraints;
pub mod policy_constraints;
pub mod policy_mapping;
pub mod policy_mappings;
pub mod private_key_usage_period;
pub mod subject_info_access;

pub use self::access_description::AccessDescription;
pub use self::authority_info_access::AuthorityInfoAccess;
pub use self::general_subtree::GeneralSubtree;
pub use self::general_subtrees::GeneralSubtrees;
pub use self::name_constraints::NameConstraints;
pub use self::policy_constraints::PolicyConstraints;
pub use self::policy_mapping::PolicyMapping;
pub use self::policy_mappings::PolicyMappings;
pub use self::private_key_usage_period::PrivateKeyUsagePeriod;
pub use self::subject_info_access::SubjectInfoAccess;
