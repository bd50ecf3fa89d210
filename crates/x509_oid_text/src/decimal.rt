//! The digits of numbers.

ghost use Rattle.std.specs.Prelude.{◌≡◌, ◌≤◌, ◌+◌, drop, length};
ghost use Rattle.std.specs.Fmt.{decimal};

/// How many digits a number has at most.
pub(crate) const MOST: usize = 20;

/// Writes the digits of a number to the end of an array, and answers where they begin.
pub(crate) fn write_back(number: u64, room: &mut [u8; MOST]) -> usize
    ensures digits { drop result room.new ≡ decimal number }
    ensures fits { result + length (decimal number) ≡ 20 }
{
    let mut at = MOST - 1;
    let mut rest = number;
    'digits: while rest >= 10 {
        room[at] = 48 + (rest % 10) as u8;
        rest /= 10;
        at -= 1;
    }
    room[at] = 48 + rest as u8;
    at
}

/// How many digits a number has.
pub(crate) fn digits_in(number: u64) -> usize
    ensures digits { result ≡ length (decimal number) }
    ensures few { result ≤ 20 }
{
    let mut room = [0u8; MOST];
    MOST - write_back(number, &mut room)
}
