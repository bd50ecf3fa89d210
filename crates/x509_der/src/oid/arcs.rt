//! The arcs of an object identifier, one after another.

ghost use Rattle.std.specs.Prelude.{◌≡◌, ℕ, List, MatchOption};
ghost use Rattle.x509_der.specs.ObjectIdentifier.{parse_numbers, put_front, first_of, arcs_spelled, IsOid, BeginsNumber};

use super::content::check;
use std::marker::Model;

/// The arcs of an object identifier from some place on. Contracts see those that are still to come.
#[derive(Debug, Drop)]
pub struct Arcs<'a> {
    first: Option<u64>,
    second: Option<u64>,
    numbers: &'a [u8],
}

impl<'a> Model for Arcs<'a> {
    ghost use Rattle.std.specs.Prelude.{List, ℕ};
    ghost use Rattle.x509_der.specs.ObjectIdentifier.{AreNumbers, numbers_in, if_some_front};

    ghost Value = { List ℕ };

    ghost view = { λ a. if_some_front a.first (if_some_front a.second (numbers_in a.numbers.now)) };

    ghost invariant = { λ a. AreNumbers a.numbers.now };
}

impl<'a> Arcs<'a> {
    /// The arcs that the content of an object identifier encodes; none where the bytes aren't one's content. Takes no
    /// memory.
    pub fn in_content(content: &'a [u8]) -> Option<Arcs<'a>>
        ensures { MatchOption result ((v : List ℕ) → IsOid v content.now → ⊥) (λ arcs. IsOid arcs content.now) }
    {
        match check(content) {
            Ok(()) => Some(arcs_of(content)),
            Err(_) => None,
        }
    }
}

/// The first arc that a number encodes together with the second.
fn first_arc(number: u64) -> u64
    ensures { result ≡ first_of number }
{
    if number < 40 {
        0
    } else if number < 80 {
        1
    } else {
        2
    }
}

/// The number that bytes in base 128 begin with, and the bytes behind it.
fn split_number(bytes: &[u8]) -> (u64, &[u8])
    requires { BeginsNumber bytes.now }
    ensures { parse_numbers bytes.now ≡ put_front result.0 (parse_numbers result.1.now) }
{
    let mut number: u64 = 0;
    for (index, byte) in bytes.iter().enumerate() {
        if *byte < 128 {
            return (number * 128 + *byte as u64, &bytes[index + 1..]);
        }
        number = number * 128 + (*byte - 128) as u64;
    }
    unreachable!()
}

/// The arcs that the content of an object identifier encodes.
pub(crate) fn arcs_of(content: &[u8]) -> Arcs<'_>
    requires { BeginsNumber content.now }
    ensures { result ≡ arcs_spelled content.now }
{
    let (number, numbers) = split_number(content);
    let first = first_arc(number);
    Arcs {
        first: Some(first),
        second: Some(number - 40 * first),
        numbers,
    }
}

impl<'a> Iterator for Arcs<'a> {
    ghost use Rattle.std.specs.Iterator.{YieldsFirst, item_count};

    type Item = u64;

    ghost next_gives = { YieldsFirst (λ arcs. arcs) };

    ghost remaining = { item_count (λ arcs. arcs) };

    fn next(&mut self) -> Option<u64> {
        if let Some(arc) = self.first {
            self.first = None;
            return Some(arc);
        }
        if let Some(arc) = self.second {
            self.second = None;
            return Some(arc);
        }
        if self.numbers.is_empty() {
            return None;
        }
        let (number, numbers) = split_number(self.numbers);
        self.numbers = numbers;
        Some(number)
    }
}
