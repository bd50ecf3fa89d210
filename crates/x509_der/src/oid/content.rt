//! Which bytes are the content of an object identifier.

ghost use Rattle.std.specs.Prelude.{◌≡◌, ◌+◌, ◌≤◌, ◌<◌, ◌&&◌, ◌==◌, ℕ, List, length, IfOk, IfErr, IsTrue, count_by, nat_lt};
ghost use Rattle.x509_der_parts.specs.declared.errors.ReadError.TheVariants.{BadOid};
ghost use Rattle.x509_der.specs.ObjectIdentifier.{IsOid, arcs_spelled, oid_content};

use x509_der_parts::errors::ReadError;

/// Whether a number begins with a digit that says nothing. Of one that is under way something was read, and no zero.
fn is_padding(number: u64, digit: u8) -> bool
    ensures { result ≡ ((number == 0) && digit == 128) }
{
    number == 0 && digit == 128
}

/// From here on, one digit more passes 64 bits.
const FULL: u64 = 1 << 57;

/// Whether a content may be that of these arcs, by its last byte. Identifiers of one family differ in their last arc, so
/// that most others are told by this alone.
pub(crate) fn may_end(content: &[u8], arcs: &[u64]) -> bool
    ensures { content.now ≡ oid_content arcs.now → IsTrue result }
{
    if content.is_empty() || arcs.len() < 3 {
        return true;
    }
    content[content.len() - 1] as u64 == arcs[arcs.len() - 1] % 128
}

/// How many arcs a content encodes: each ends with a byte below 128, and the first number encodes two.
pub(crate) fn arcs_len(bytes: &[u8]) -> usize
    ensures { result ≡ count_by (λ b. nat_lt b 128) bytes.now + 1 }
{
    let mut len = 1;
    for byte in bytes {
        if *byte < 128 {
            len += 1;
        }
    }
    len
}

/// Up to so many bytes no number passes 63 bits, since each digit has seven.
const FEW: usize = 9;

/// Whether a digit begins a number, and says nothing.
fn pads(is_fresh: bool, digit: u8) -> bool
    ensures { result ≡ (is_fresh && digit == 128) }
{
    is_fresh && digit == 128
}

/// Checks that nine bytes at most are the content of an object identifier.
///
/// # Errors
/// As `check`.
fn check_few(bytes: &[u8]) -> Result<(), ReadError>
    requires some { 0 < length bytes.now }
    requires few { length bytes.now ≤ 9 }
    ensures ok { IfOk result (λ _. IsOid (arcs_spelled bytes.now) bytes.now) }
    ensures err { IfErr result (λ e. (v : List ℕ) → IsOid v bytes.now → ⊥) }
    ensures kind { IfErr result (λ e. e ≡ BadOid) }
{
    let mut is_fresh = true;
    for byte in bytes {
        let digit = *byte;
        if digit < 128 {
            is_fresh = true;
        } else {
            if pads(is_fresh, digit) {
                return Err(ReadError::BadOid);
            }
            is_fresh = false;
        }
    }
    if is_fresh {
        Ok(())
    } else {
        Err(ReadError::BadOid)
    }
}

/// Checks that bytes are the content of an object identifier.
///
/// # Errors
/// `BadOid`, exactly where they aren't.
pub(crate) fn check(bytes: &[u8]) -> Result<(), ReadError>
    ensures ok { IfOk result (λ _. IsOid (arcs_spelled bytes.now) bytes.now) }
    ensures err { IfErr result (λ e. (v : List ℕ) → IsOid v bytes.now → ⊥) }
    ensures kind { IfErr result (λ e. e ≡ BadOid) }
{
    if bytes.is_empty() {
        return Err(ReadError::BadOid);
    }
    if bytes.len() <= FEW {
        return check_few(bytes);
    }
    // what was read of the number that is under way: 0 where none is
    let mut number: u64 = 0;
    for byte in bytes {
        if number >= FULL {
            return Err(ReadError::BadOid);
        }
        let digit = *byte;
        if digit < 128 {
            number = 0;
        } else {
            let padded = is_padding(number, digit);
            if padded {
                return Err(ReadError::BadOid);
            }
            number = number * 128 + (digit - 128) as u64;
        }
    }
    if number == 0 {
        Ok(())
    } else {
        Err(ReadError::BadOid)
    }
}
