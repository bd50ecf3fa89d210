//! Laws of the types of this crate. A function here does nothing when it runs: its contract is the law.

pub use crate::structures::laws::{
    access_description_fields, authority_info_access_fields, general_subtree_fields,
    general_subtrees_fields, name_constraints_fields, policy_constraints_fields,
    policy_mapping_fields, policy_mappings_fields, private_key_usage_period_fields,
    private_key_usage_period_takes_no_memory, subject_info_access_fields,
};
