//! The laws of fields of the plain structures of this crate, written by `tools/structures.py` from `declarations.asn1`.
//! A function here does nothing when it runs: its contract is the law.

ghost use Rattle.std.specs.Prelude.{List, ℕ};
ghost use Rattle.x509_der.specs.Fields.{ContentFirst};
ghost use Rattle.x509_der.specs.Items.{items};
ghost use Rattle.x509_der.specs.Tally.{Tally};
ghost use Rattle.x509_more_extensions.specs.AccessDescription.{access_description, authority_info_access, subject_info_access};
ghost use Rattle.x509_more_extensions.specs.GeneralSubtree.{general_subtree, general_subtrees};
ghost use Rattle.x509_more_extensions.specs.NameConstraints.{name_constraints};
ghost use Rattle.x509_more_extensions.specs.PolicyConstraints.{policy_constraints};
ghost use Rattle.x509_more_extensions.specs.PolicyMapping.{policy_mapping, policy_mappings};
ghost use Rattle.x509_more_extensions.specs.PrivateKeyUsagePeriod.{private_key_usage_period};
ghost use Rattle.x509_more_extensions.specs.declared.structures.private_key_usage_period.PrivateKeyUsagePeriod.{PrivateKeyUsagePeriod as PrivateKeyUsagePeriodValue};
ghost use Rattle.x509_more_extensions.specs.fields.AccessDescription.{AccessDescriptionAt};
ghost use Rattle.x509_more_extensions.specs.fields.GeneralSubtree.{GeneralSubtreeAt};
ghost use Rattle.x509_more_extensions.specs.fields.NameConstraints.{NameConstraintsAt};
ghost use Rattle.x509_more_extensions.specs.fields.PolicyConstraints.{PolicyConstraintsAt};
ghost use Rattle.x509_more_extensions.specs.fields.PolicyMapping.{PolicyMappingAt};
ghost use Rattle.x509_more_extensions.specs.fields.PrivateKeyUsagePeriod.{PrivateKeyUsagePeriodAt};

use crate::structures::{
    AccessDescription, AuthorityInfoAccess, GeneralSubtree, GeneralSubtrees, NameConstraints,
    PolicyConstraints, PolicyMapping, PolicyMappings, PrivateKeyUsagePeriod, SubjectInfoAccess,
};
use std::alloc::Allocator;
use x509_der::laws::fields;
use x509_der::parts::Field;

/// The law of fields of `AccessDescription`: in each encoding they stand one behind the other, right behind the header.
pub fn access_description_fields<A: Allocator + Copy>()
    ensures { (v : AccessDescription A) (string : List ℕ) (y : Tally) → access_description.spelled v string y →
        AccessDescriptionAt v string y }
{
    fields::<AccessDescription<A>, A>();
}

/// The law of fields of `AuthorityInfoAccess`: the items stand one behind another, right behind the header.
pub fn authority_info_access_fields<A: Allocator + Copy>()
    ensures { (v : List (AccessDescription A)) (string : List ℕ) (y : Tally) → authority_info_access.spelled v string y →
        ContentFirst 48 (items access_description) v string y }
{
    fields::<AuthorityInfoAccess<A>, A>();
}

/// The law of fields of `SubjectInfoAccess`: the items stand one behind another, right behind the header.
pub fn subject_info_access_fields<A: Allocator + Copy>()
    ensures { (v : List (AccessDescription A)) (string : List ℕ) (y : Tally) → subject_info_access.spelled v string y →
        ContentFirst 48 (items access_description) v string y }
{
    fields::<SubjectInfoAccess<A>, A>();
}

/// The law of fields of `PolicyMapping`: in each encoding they stand one behind the other, right behind the header.
pub fn policy_mapping_fields<A: Allocator + Copy>()
    ensures { (v : PolicyMapping A) (string : List ℕ) (y : Tally) → policy_mapping.spelled v string y →
        PolicyMappingAt v string y }
{
    fields::<PolicyMapping<A>, A>();
}

/// The law of fields of `PolicyMappings`: the items stand one behind another, right behind the header.
pub fn policy_mappings_fields<A: Allocator + Copy>()
    ensures { (v : List (PolicyMapping A)) (string : List ℕ) (y : Tally) → policy_mappings.spelled v string y →
        ContentFirst 48 (items policy_mapping) v string y }
{
    fields::<PolicyMappings<A>, A>();
}

/// The law of fields of `PolicyConstraints`: in each encoding they stand one behind the other, right behind the header.
pub fn policy_constraints_fields<A: Allocator + Copy>()
    ensures { (v : PolicyConstraints A) (string : List ℕ) (y : Tally) → policy_constraints.spelled v string y →
        PolicyConstraintsAt v string y }
{
    fields::<PolicyConstraints<A>, A>();
}

/// The law of fields of `GeneralSubtree`: in each encoding they stand one behind the other, right behind the header.
pub fn general_subtree_fields<A: Allocator + Copy>()
    ensures { (v : GeneralSubtree A) (string : List ℕ) (y : Tally) → general_subtree.spelled v string y →
        GeneralSubtreeAt v string y }
{
    fields::<GeneralSubtree<A>, A>();
}

/// The law of fields of `GeneralSubtrees`: the items stand one behind another, right behind the header.
pub fn general_subtrees_fields<A: Allocator + Copy>()
    ensures { (v : List (GeneralSubtree A)) (string : List ℕ) (y : Tally) → general_subtrees.spelled v string y →
        ContentFirst 48 (items general_subtree) v string y }
{
    fields::<GeneralSubtrees<A>, A>();
}

/// The law of fields of `NameConstraints`: in each encoding they stand one behind the other, right behind the header.
pub fn name_constraints_fields<A: Allocator + Copy>()
    ensures { (v : NameConstraints A) (string : List ℕ) (y : Tally) → name_constraints.spelled v string y →
        NameConstraintsAt v string y }
{
    fields::<NameConstraints<A>, A>();
}

/// The law of fields of `PrivateKeyUsagePeriod`: in each encoding they stand one behind the other, right behind the
/// header.
pub fn private_key_usage_period_fields<A: Allocator + Copy>()
    ensures { (v : PrivateKeyUsagePeriodValue) (string : List ℕ) (y : Tally) → private_key_usage_period.spelled v string y →
        PrivateKeyUsagePeriodAt v string y }
{
    fields::<PrivateKeyUsagePeriod, A>();
}

/// Reading `PrivateKeyUsagePeriod` takes no memory, so that `from_bytes`, `read_counted` and `read_metered` never
/// answer want of it.
pub fn private_key_usage_period_takes_no_memory<A: Allocator + Copy>()
    ensures { ⟦<PrivateKeyUsagePeriod as Field<A>>⟧.shape.frugal }
{}
