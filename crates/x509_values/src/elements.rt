//! A walk over elements, with their tags and what stands in them.

ghost use Rattle.std.specs.Prelude.{◌≡◌, ◌+◌, ◌<◌, ◌^◌, length};
ghost use Rattle.x509_values.specs.Elements.{Finds, IsInside, Over, Takes, span_of};

use std::marker::Model;
use x509_der::parts::first_element;
use x509_fields::Span;

/// Elements of an input, one behind another, and where they stand. Contracts see the bytes that are left, and how many
/// bytes of the input stand before them.
#[derive(Drop)]
pub struct Elements<'a> {
    rest: &'a [u8],
    at: usize,
}

impl<'a> Model for Elements<'a> {
    ghost use Rattle.std.specs.Prelude.{◌+◌, ◌<◌, ◌^◌, length};
    ghost use Rattle.x509_values.specs.Rests.{Rest};

    ghost Value = { Rest };

    ghost view = { λ r. record { rest = r.rest.now; at = r.at } };

    ghost invariant = { λ r. r.at + length r.rest.now < 2 ^ 64 };
}

/// An element of an input.
#[derive(Drop)]
pub struct Element<'a> {
    /// The tag, which is one byte.
    pub tag: u8,
    /// How many bytes of the input stand before it.
    pub start: usize,
    /// What stands in it.
    pub inside: Elements<'a>,
}

impl<'a> Elements<'a> {
    /// The elements in a span of an input: none where the span doesn't lie in it.
    pub fn over(bytes: &'a [u8], span: Span) -> Self
        ensures { Over bytes.now span result }
    {
        match span.slice(bytes) {
            Some(rest) => Elements {
                rest,
                at: span.start,
            },
            None => Elements { rest: &[], at: 0 },
        }
    }

    /// Goes past the next element, and answers it; where none stands in front, the walk stays.
    pub fn next(&mut self) -> Option<Element<'a>>
        ensures takes { Takes self.old self.new result }
        ensures fits { self.new.at + length self.new.rest < 2 ^ 64 }
    {
        let Some(element) = first_element(self.rest) else {
            return None;
        };
        let start = self.at;
        let (whole, after) = self.rest.split_at(element.end);
        let (_, content) = whole.split_at(element.start);
        let inside = Elements {
            rest: content,
            at: start + element.start,
        };
        self.rest = after;
        self.at = start + element.end;
        Some(Element {
            tag: element.tag,
            start,
            inside,
        })
    }

    /// Goes past the next element, and answers it; where none stands in front, an empty one of the tag 0, and the walk
    /// stays.
    pub fn take(&mut self) -> Element<'a>
        ensures { Finds self.old self.new result }
    {
        let Some(element) = self.next() else {
            let nothing = Elements {
                rest: &[],
                at: self.at,
            };
            return Element {
                tag: 0,
                start: self.at,
                inside: nothing,
            };
        };
        element
    }

    /// The bytes that are left.
    pub fn bytes(&self) -> &'a [u8]
        ensures { result.now ≡ self.now.rest }
    {
        self.rest
    }

    /// Where the bytes stand that are left.
    pub fn span(&self) -> Span
        ensures { result ≡ span_of self.now }
    {
        Span {
            start: self.at,
            end: self.at + self.rest.len(),
        }
    }
}

/// Where the content of the element stands that a span of an input encodes. Of a span that encodes none it says nothing.
pub fn content_within(bytes: &[u8], span: Span) -> Span
    ensures { IsInside bytes.now span result }
{
    let mut element = Elements::over(bytes, span);
    element.take().inside.span()
}
