//! Laws of the types of this crate. A function here does nothing when it runs: its contract is the law.

pub use crate::structures::laws::{
    certificate_policies_fields, display_text_fields, notice_reference_fields,
    policy_information_fields, policy_qualifier_info_fields, user_notice_fields,
};
