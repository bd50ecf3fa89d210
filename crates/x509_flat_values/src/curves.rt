//! The sizes of keys on named curves, and of others whose algorithm says them.

ghost use Rattle.std.specs.Prelude.{◌≡◌};
ghost use Rattle.x509_flat_values.specs.Curves.{algorithm_size as size_by, binary_size as binary_by, brainpool_size as brainpool_by, curve_size as size_of};

use crate::identifier::Identifier;

/// How many bits the field of a curve has, 160 to 571; 0 of a curve that isn't known here (RFC 5480, 2.1.1.1; SEC 2; RFC
/// 5639, 3).
#[tactic(auto, unfolding(x509_der::specs::ObjectIdentifier::numbers_from))]
pub fn curve_size(curve: &Identifier<'_>) -> usize
    ensures { result ≡ size_of curve.now }
{
    if curve.is_content(&[0x2A, 0x86, 0x48, 0xCE, 0x3D, 3, 1, 7]) {
        256
    } else if curve.is_content(&[0x2B, 0x81, 4, 0, 0x22]) {
        384
    } else if curve.is_content(&[0x2B, 0x81, 4, 0, 0x23]) {
        521
    } else if curve.is_content(&[0x2A, 0x86, 0x48, 0xCE, 0x3D, 3, 1, 1]) {
        192
    } else if curve.is_content(&[0x2B, 0x81, 4, 0, 0x21]) {
        224
    } else if curve.is_content(&[0x2B, 0x81, 4, 0, 0x0A]) {
        256
    } else {
        brainpool_size(curve)
    }
}

/// The same of those of Brainpool (RFC 5639, 3).
#[tactic(auto, unfolding(x509_der::specs::ObjectIdentifier::numbers_from))]
fn brainpool_size(curve: &Identifier<'_>) -> usize
    ensures { result ≡ brainpool_by curve.now }
{
    if curve.is_content(&[0x2B, 0x24, 3, 3, 2, 8, 1, 1, 1]) {
        160
    } else if curve.is_content(&[0x2B, 0x24, 3, 3, 2, 8, 1, 1, 3]) {
        192
    } else if curve.is_content(&[0x2B, 0x24, 3, 3, 2, 8, 1, 1, 5]) {
        224
    } else if curve.is_content(&[0x2B, 0x24, 3, 3, 2, 8, 1, 1, 7]) {
        256
    } else if curve.is_content(&[0x2B, 0x24, 3, 3, 2, 8, 1, 1, 9]) {
        320
    } else if curve.is_content(&[0x2B, 0x24, 3, 3, 2, 8, 1, 1, 0x0B]) {
        384
    } else if curve.is_content(&[0x2B, 0x24, 3, 3, 2, 8, 1, 1, 0x0D]) {
        512
    } else {
        binary_size(curve)
    }
}

/// The same of those over fields of characteristic 2 (RFC 5480, 2.1.1.1; SEC 2, 3).
#[tactic(auto, unfolding(x509_der::specs::ObjectIdentifier::numbers_from))]
fn binary_size(curve: &Identifier<'_>) -> usize
    ensures { result ≡ binary_by curve.now }
{
    if curve.is_content(&[0x2B, 0x81, 4, 0, 1]) {
        163
    } else if curve.is_content(&[0x2B, 0x81, 4, 0, 0x0F]) {
        163
    } else if curve.is_content(&[0x2B, 0x81, 4, 0, 0x10]) {
        283
    } else if curve.is_content(&[0x2B, 0x81, 4, 0, 0x11]) {
        283
    } else if curve.is_content(&[0x2B, 0x81, 4, 0, 0x1A]) {
        233
    } else if curve.is_content(&[0x2B, 0x81, 4, 0, 0x1B]) {
        233
    } else if curve.is_content(&[0x2B, 0x81, 4, 0, 0x24]) {
        409
    } else if curve.is_content(&[0x2B, 0x81, 4, 0, 0x25]) {
        409
    } else if curve.is_content(&[0x2B, 0x81, 4, 0, 0x26]) {
        571
    } else if curve.is_content(&[0x2B, 0x81, 4, 0, 0x27]) {
        571
    } else {
        0
    }
}

/// How many bits the keys of an algorithm have that it says itself (RFC 8032, 5.1 and 5.2; RFC 7748, 5), else 0.
#[tactic(auto, unfolding(x509_der::specs::ObjectIdentifier::numbers_from))]
pub fn algorithm_size(algorithm: &Identifier<'_>) -> usize
    ensures { result ≡ size_by algorithm.now }
{
    if algorithm.is_content(&[0x2B, 0x65, 0x70]) {
        256
    } else if algorithm.is_content(&[0x2B, 0x65, 0x71]) {
        456
    } else if algorithm.is_content(&[0x2B, 0x65, 0x6E]) {
        256
    } else if algorithm.is_content(&[0x2B, 0x65, 0x6F]) {
        448
    } else {
        0
    }
}
