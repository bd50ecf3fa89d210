//! Numbers.

ghost use Rattle.std.specs.Prelude.{◌↔◌, IsTrue};
ghost use Rattle.x509_findings_parts.specs.Numbers.{IsBelow, IsEven, IsLonger};

use std::alloc::Allocator;
use x509_der::IntegerAsn1;

/// Whether a number is below a bound. Takes no memory.
pub fn is_below<A: Allocator>(number: &IntegerAsn1<A>, bound: u64) -> bool
    ensures { IsTrue result ↔ IsBelow number.now bound }
{
    match number.to_u64() {
        Some(value) => value < bound,
        None => number.is_negative(),
    }
}

/// Whether the content of a number has more octets than a bound. Takes no memory.
pub fn is_longer<A: Allocator>(number: &IntegerAsn1<A>, most: usize) -> bool
    ensures { IsTrue result ↔ IsLonger number.now most }
{
    number.as_bytes().len() > most
}

/// Whether 2 divides a number. Takes no memory.
pub fn is_even<A: Allocator>(number: &IntegerAsn1<A>) -> bool
    ensures { IsTrue result ↔ IsEven number.now }
{
    let octets = number.as_bytes();
    let size = octets.len();
    if size == 0 {
        return true;
    }
    octets[size - 1] % 2 == 0
}
