//! The laws of fields of the plain structures of this crate, written by `tools/structures.py` from `declarations.asn1`.
//! A function here does nothing when it runs: its contract is the law.

ghost use Rattle.std.specs.Prelude.{List, ℕ};
ghost use Rattle.x509_der.specs.Fields.{ContentFirst};
ghost use Rattle.x509_der.specs.Items.{items};
ghost use Rattle.x509_der.specs.Tally.{Tally};
ghost use Rattle.x509_qualified.specs.DirectoryAttribute.{directory_attribute, subject_directory_attributes};
ghost use Rattle.x509_qualified.specs.QcStatement.{qc_statement, qc_statements};
ghost use Rattle.x509_qualified.specs.fields.DirectoryAttribute.{DirectoryAttributeAt};
ghost use Rattle.x509_qualified.specs.fields.QcStatement.{QcStatementAt};

use crate::structures::{
    DirectoryAttribute, QcStatement, QcStatements, SubjectDirectoryAttributes,
};
use std::alloc::Allocator;
use x509_der::laws::fields;

/// The law of fields of `QcStatement`: in each encoding they stand one behind the other, right behind the header.
pub fn qc_statement_fields<A: Allocator + Copy>()
    ensures { (v : QcStatement A) (string : List ℕ) (y : Tally) → qc_statement.spelled v string y →
        QcStatementAt v string y }
{
    fields::<QcStatement<A>, A>();
}

/// The law of fields of `QcStatements`: the items stand one behind another, right behind the header.
pub fn qc_statements_fields<A: Allocator + Copy>()
    ensures { (v : List (QcStatement A)) (string : List ℕ) (y : Tally) → qc_statements.spelled v string y →
        ContentFirst 48 (items qc_statement) v string y }
{
    fields::<QcStatements<A>, A>();
}

/// The law of fields of `DirectoryAttribute`: in each encoding they stand one behind the other, right behind the
/// header.
pub fn directory_attribute_fields<A: Allocator + Copy>()
    ensures { (v : DirectoryAttribute A) (string : List ℕ) (y : Tally) → directory_attribute.spelled v string y →
        DirectoryAttributeAt v string y }
{
    fields::<DirectoryAttribute<A>, A>();
}

/// The law of fields of `SubjectDirectoryAttributes`: the items stand one behind another, right behind the header.
pub fn subject_directory_attributes_fields<A: Allocator + Copy>()
    ensures { (v : List (DirectoryAttribute A)) (string : List ℕ) (y : Tally) → subject_directory_attributes.spelled v string y →
        ContentFirst 48 (items directory_attribute) v string y }
{
    fields::<SubjectDirectoryAttributes<A>, A>();
}
