//! Laws of the types of this crate. A function here does nothing when it runs: its contract is the law.

ghost use Rattle.std.specs.Prelude.{ℕ, List};
ghost use Rattle.x509_der.specs.Tally.{Tally};
ghost use Rattle.x509_names_parts.specs.DirectoryStrings.{directory_string as directory_strings, StringAt};
ghost use Rattle.x509_names_parts.specs.Time.{time as times, FormAt};
ghost use Rattle.x509_names_parts.specs.Validities.{validity as validities, TimesAt};

use crate::directory_string::DirectoryString;
use crate::time::Time;
use crate::validity::Validity;
use crate::version::Version;
use std::alloc::Allocator;
use x509_der::laws::fields;
use x509_der::parts::Field;

/// Reading a version takes no memory, so that `from_bytes`, `read_counted` and `read_metered` never answer want of it.
pub fn version_takes_no_memory<A: Allocator + Copy>()
    ensures { ⟦<Version as Field<A>>⟧.shape.frugal }
{}

/// Reading a time takes no memory, so that `from_bytes`, `read_counted` and `read_metered` never answer want of it.
pub fn time_takes_no_memory<A: Allocator + Copy>()
    ensures { ⟦<Time as Field<A>>⟧.shape.frugal }
{}

/// Reading a validity takes no memory, so that `from_bytes`, `read_counted` and `read_metered` never answer want of it.
pub fn validity_takes_no_memory<A: Allocator + Copy>()
    ensures { ⟦<Validity as Field<A>>⟧.shape.frugal }
{}

/// The law of fields of `DirectoryString`: each encoding is one of the string type that was taken.
pub fn directory_string_fields<A: Allocator + Copy>()
    ensures { (v : DirectoryString A) (string : List ℕ) (y : Tally) → directory_strings.spelled v string y →
        StringAt v string y }
{
    fields::<DirectoryString<A>, A>();
}

/// The law of fields of `Time`: each encoding is one of the form that was taken.
pub fn time_fields<A: Allocator + Copy>()
    ensures { (v : Time) (string : List ℕ) (y : Tally) → times.spelled v string y → FormAt v string y }
{
    fields::<Time, A>();
}

/// The law of fields of `Validity`: in each encoding `not_before` stands right behind the header, and behind it
/// `not_after`, each in the form that was taken.
pub fn validity_fields<A: Allocator + Copy>()
    ensures { (v : Validity) (string : List ℕ) (y : Tally) → validities.spelled v string y →
        TimesAt v string y }
{
    fields::<Validity, A>();
}
