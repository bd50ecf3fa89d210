//! Elements whose tag is chosen when the program runs.

ghost use Rattle.std.specs.Prelude.{◌≡◌};
ghost use Rattle.x509_der.specs.Element.{element};

use std::marker::Model;
use x509_der::parts::{Output, ToContent, put_element};
use x509_der::{ToDer, TooLong};

/// The bytes of a content, lent. Contracts see them.
#[derive(Drop)]
struct Lent<'a> {
    bytes: &'a [u8],
}

impl<'a> Model for Lent<'a> {
    ghost use Rattle.std.specs.Prelude.{List, ℕ};

    ghost Value = { List ℕ };

    ghost view = { λ l. l.bytes.now };
}

impl<'a> Lent<'a> {
    /// These bytes.
    fn of(bytes: &'a [u8]) -> Self
        ensures { result ≡ bytes.now }
    {
        Lent { bytes }
    }
}

impl<'a> ToContent for Lent<'a> {
    ghost content = { λ l. l };

    fn put_content<O: Output>(&self, out: &mut [u8], at: usize) -> Result<usize, TooLong> {
        O::bytes(self.bytes, out, at)
    }
}

/// An element: a tag and the bytes of its content, lent. Contracts see its encoding.
#[derive(Drop)]
pub(crate) struct LentElement<'a> {
    tag: u8,
    content: Lent<'a>,
}

impl<'a> Model for LentElement<'a> {
    ghost use Rattle.std.specs.Prelude.{List, ℕ};
    ghost use Rattle.x509_der.specs.Element.{element};

    ghost Value = { List ℕ };

    ghost view = { λ e. element e.tag e.content };
}

impl<'a> LentElement<'a> {
    /// The element of a tag and a content.
    pub(crate) fn of(tag: u8, content: &'a [u8]) -> Self
        ensures { result ≡ element tag content.now }
    {
        LentElement {
            tag,
            content: Lent::of(content),
        }
    }
}

impl<'a> ToDer for LentElement<'a> {
    ghost strict = { λ e. e };

    fn put<O: Output>(&self, out: &mut [u8], at: usize) -> Result<usize, TooLong> {
        put_element::<O, Lent<'a>>(self.tag, &self.content, out, at)
    }
}
