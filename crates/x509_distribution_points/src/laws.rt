//! Laws of the types of this crate. A function here does nothing when it runs: its contract is the law.

pub use crate::structures::laws::{
    crl_distribution_points_fields, distribution_point_fields, distribution_point_name_fields,
    issuing_distribution_point_fields,
};
