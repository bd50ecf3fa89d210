//! The plain structures of this crate, written by `tools/structures.py` from `declarations.asn1`.

pub mod crl_distribution_points;
pub mod distribution_point;
pub mod distribution_point_name;
pub mod issuing_distribution_point;
pub mod laws;

pub use self::crl_distribution_points::CrlDistributionPoints;
pub use self::distribution_point::DistributionPoint;
pub use self::distribution_point_name::DistributionPointName;
pub use self::issuing_distribution_point::IssuingDistributionPoint;
