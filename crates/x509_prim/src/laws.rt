//! Laws of the types of this crate. A function here does nothing when it runs: its contract is the law.

ghost use Rattle.std.specs.Prelude.{◌≡◌, ℕ, List};
ghost use Rattle.x509_der.specs.Element.{element};

use crate::utf8_string::Utf8String;
use std::alloc::Allocator;
use x509_der::ToDer;
use x509_der::parts::Field;
use x509_prim_parts::generalized_time::GeneralizedTimeAsn1;
use x509_prim_parts::utc_time::UtcTimeAsn1;

/// Reading UTCTime takes no memory, so that `from_bytes`, `read_counted` and `read_metered` never answer want of it.
pub fn utc_time_takes_no_memory<A: Allocator + Copy>()
    ensures { ⟦<UtcTimeAsn1 as Field<A>>⟧.shape.frugal }
{}

/// Reading GeneralizedTime takes no memory, so that `from_bytes`, `read_counted` and `read_metered` never answer want
/// of it.
pub fn generalized_time_takes_no_memory<A: Allocator + Copy>()
    ensures { ⟦<GeneralizedTimeAsn1 as Field<A>>⟧.shape.frugal }
{}

/// The DER encoding of a UTF8String is the element of the tag 12 (X.680, 8.6) around its bytes.
pub fn utf8_tag<A: Allocator>()
    ensures { (v : List ℕ) → ⟦<Utf8String<A> as ToDer>⟧.strict v ≡ element 12 v }
{}
