//! Numbers in base 128, and the content of an object identifier that they make.

ghost use Rattle.std.specs.Prelude.{◌≡◌, ◌+◌, ◌≤◌, ◌++◌, ◌∷◌, length, take, drop};
ghost use Rattle.std.specs.List.{flat_map};
ghost use Rattle.x509_der_parts.specs.Writing.{Measures};
ghost use Rattle.x509_der.specs.ObjectIdentifier.{IsLawful, septets, high_digits, spelled_numbers, oid_content};

use std::marker::Model;
use x509_der_parts::errors::TooLong;

/// A number in base 128, the highest digit first, with the top bit on each digit but the last (X.690, 8.19.2).
#[derive(Drop)]
struct Septets(u64);

impl Model for Septets {
    ghost use Rattle.std.specs.Prelude.{ℕ};

    ghost Value = { ℕ };

    ghost view = { λ v. v.0 };
}

/// How many digits that bear the top bit a number has.
fn high_len(number: u64) -> usize
    ensures len { result ≡ length (high_digits number) }
    ensures few { result ≤ number }
{
    if number == 0 {
        return 0;
    }
    high_len(number / 128) + 1
}

/// Writes the digits of a number, each with the top bit, to the end of a slice, and answers where they begin.
fn write_high(number: u64, out: &mut [u8]) -> usize
    requires { length (high_digits number) ≤ length out.old }
    ensures start { result + length (high_digits number) ≡ length out.old }
    ensures bytes { out.new ≡ take result out.old ++ high_digits number }
{
    if number == 0 {
        return out.len();
    }
    let last = out.len() - 1;
    out[last] = 128 + (number % 128) as u8;
    write_high(number / 128, &mut out[..last])
}

impl Septets {
    /// How many digits the number has.
    fn len(&self) -> usize
        ensures { result ≡ length (septets self.now) }
    {
        high_len(self.0 / 128) + 1
    }

    /// Writes the digits to the end of a slice, and answers where they begin.
    fn write_back(&self, out: &mut [u8]) -> usize
        requires { length (septets self.now) ≤ length out.old }
        ensures start { result + length (septets self.now) ≡ length out.old }
        ensures bytes { out.new ≡ take result out.old ++ septets self.now }
    {
        let last = out.len() - 1;
        out[last] = (self.0 % 128) as u8;
        write_high(self.0 / 128, &mut out[..last])
    }

    /// Writes the digits in front of what was written from a place on, and answers where they begin.
    fn write_before(&self, out: &mut [u8], end: usize) -> usize
        requires end { end ≤ length out.old }
        requires room { length (septets self.now) ≤ end }
        ensures start { result + length (septets self.now) ≡ end }
        ensures bytes { out.new ≡ take result out.old ++ (septets self.now ++ drop end out.old) }
    {
        self.write_back(&mut out[..end])
    }
}

/// How many bytes numbers are together in base 128.
fn numbers_len(numbers: &[u64]) -> Result<usize, TooLong>
    ensures { Measures (length (flat_map septets numbers.now)) result }
{
    let mut total: usize = 0;
    for number in numbers {
        let Some(sum) = total.checked_add(Septets(*number).len()) else {
            return Err(TooLong);
        };
        total = sum;
    }
    Ok(total)
}

/// Writes numbers in base 128 to the end of a slice, the last one first, and answers where they begin.
fn write_numbers(numbers: &[u64], out: &mut [u8]) -> usize
    requires { length (flat_map septets numbers.now) ≤ length out.old }
    ensures start { result + length (flat_map septets numbers.now) ≡ length out.old }
    ensures bytes { out.new ≡ take result out.old ++ flat_map septets numbers.now }
{
    let mut start = out.len();
    let mut left = numbers.len();
    while left > 0 {
        left -= 1;
        start = Septets(numbers[left]).write_before(out, start);
    }
    start
}

/// The numbers that encode the arcs: one for the first two, and then one each.
fn numbers_of(arcs: &[u64]) -> (u64, &[u64])
    requires { IsLawful arcs.now }
    ensures { spelled_numbers arcs.now ≡ result.0 ∷ result.1.now }
{
    let (first, rest) = arcs.split_at(2);
    (40 * first[0] + first[1], rest)
}

/// How many bytes the content of an object identifier is.
pub(crate) fn oid_len(arcs: &[u64]) -> Result<usize, TooLong>
    requires { IsLawful arcs.now }
    ensures { Measures (length (oid_content arcs.now)) result }
{
    let (first, rest) = numbers_of(arcs);
    let rest = numbers_len(rest)?;
    Septets(first).len().checked_add(rest).ok_or(TooLong)
}

/// Writes the content of an object identifier to the end of a slice, and answers where it begins.
pub(crate) fn write_oid(arcs: &[u64], out: &mut [u8]) -> usize
    requires lawful { IsLawful arcs.now }
    requires room { length (oid_content arcs.now) ≤ length out.old }
    ensures start { result + length (oid_content arcs.now) ≡ length out.old }
    ensures bytes { out.new ≡ take result out.old ++ oid_content arcs.now }
{
    let (first, rest) = numbers_of(arcs);
    let start = write_numbers(rest, out);
    Septets(first).write_before(out, start)
}

/// Writes the content of an object identifier to a slice of its length.
pub(crate) fn fill_oid(arcs: &[u64], out: &mut [u8])
    requires lawful { IsLawful arcs.now }
    requires room { length (oid_content arcs.now) ≡ length out.old }
    ensures { out.new ≡ oid_content arcs.now }
{
    let _start = write_oid(arcs, out);
}
