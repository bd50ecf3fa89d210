//! How many bits a number has.

ghost use Rattle.std.specs.Prelude.{◌≡◌, ◌*◌, ◌^◌, ◌<◌, ◌≤◌, length};
ghost use Rattle.x509_der.specs.Integer.{unsigned_value};
ghost use Rattle.x509_flat_values.specs.Numbers.{IsBitLength};

/// How many bits a byte has, from the highest that is 1.
fn byte_length(byte: u8) -> usize
    ensures length { IsBitLength byte result }
    ensures few { result ≤ 8 }
{
    if byte >= 128 {
        8
    } else if byte >= 64 {
        7
    } else if byte >= 32 {
        6
    } else if byte >= 16 {
        5
    } else if byte >= 8 {
        4
    } else if byte >= 4 {
        3
    } else if byte >= 2 {
        2
    } else {
        byte as usize
    }
}

/// How many bits a number has whose digits in base 256 these are, the highest first. Of 2^61 digits and more it says nothing.
pub fn bit_length(digits: &[u8]) -> usize
    ensures { 8 * length digits.now < 2 ^ 64 → IsBitLength (unsigned_value digits.now) result }
{
    let mut rest = digits;
    'zeros: while let [first, more @ ..] = rest {
        if *first != 0 {
            return more
                .len()
                .saturating_mul(8)
                .saturating_add(byte_length(*first));
        }
        rest = more;
    }
    0
}
