//! Where elements stand: a cursor over bytes that were read before.

ghost use Rattle.std.specs.Prelude.{◌≡◌, ◌≤◌, ◌<◌, ◌+◌, ◌^◌, ◌↔◌, ℕ, List, [], ◌∷◌, length, drop, IsTrue, MatchOption};

use x509_der::parts::first_element;

/// The bytes of an input from `start` up to `end`.
#[derive(Clone, Copy, Debug, PartialEq, Eq)]
pub struct Span {
    /// How many bytes stand before it.
    pub start: usize,
    /// How many bytes stand before its end.
    pub end: usize,
}

impl Span {
    /// Whether another span lies in this one.
    pub fn contains(&self, other: Span) -> bool
        ensures { IsTrue result ↔ ((self.now.start ≤ other.start) × (other.end ≤ self.now.end)) }
    {
        self.start <= other.start && other.end <= self.end
    }
}

/// Elements one behind another, and where the first of them stands.
#[derive(Clone, Copy, Drop)]
pub struct Cursor<'a> {
    /// The bytes of the elements that are left.
    pub rest: &'a [u8],
    /// How many bytes of the input stand before them.
    pub at: usize,
    ghost fits: { at + length rest.now < 2 ^ 64 },
}

/// An element: its tag, where it stands, and a cursor over its content.
#[derive(Clone, Copy, Drop)]
pub struct Element<'a> {
    /// The tag; 0 where there is no element.
    pub tag: u8,
    /// Where it stands, with its header.
    pub span: Span,
    /// What is in it.
    pub inside: Cursor<'a>,
}

impl<'a> Cursor<'a> {
    ghost use Rattle.x509_report_parts.specs.Cursors.{IsNext, IsNone, Next, NotNext, Last};

    /// At the start of an input.
    pub fn new(bytes: &'a [u8]) -> Self
        ensures rest { result.rest.now ≡ bytes.now }
        ensures at { result.at ≡ 0 }
    {
        Cursor { rest: bytes, at: 0 }
    }

    /// The next element, which it goes past; `None` where the bytes begin with none, and it stays where it is.
    pub fn take(&mut self) -> Option<Element<'a>>
        ensures { MatchOption result (IsNone self.old self.new) (λ e. IsNext self.old e self.new) }
    {
        let start = self.at;
        let found = first_element(self.rest)?;
        let (whole, rest) = self.rest.split_at(found.end);
        let (_header, content) = whole.split_at(found.start);
        let end = start + found.end;
        let at = start + found.start;
        *self = Cursor { rest, at: end };
        Some(Element {
            tag: found.tag,
            span: Span { start, end },
            inside: Cursor { rest: content, at },
        })
    }

    /// The next element, which it goes past; an empty place where there is none.
    pub fn next(&mut self) -> Element<'a>
        ensures { Next self.old result self.new }
    {
        let at = self.at;
        match self.take() {
            Some(element) => element,
            None => Element {
                tag: 0,
                span: Span { start: at, end: at },
                inside: Cursor { rest: &[], at },
            },
        }
    }

    /// The next element, which it goes past, if its tag is this one; else it stays where it is.
    pub fn next_if(&mut self, tag: u8) -> Option<Element<'a>>
        ensures { MatchOption result (NotNext tag self.old self.new) (λ e. (e.tag ≡ tag) × IsNext self.old e self.new) }
    {
        let mut ahead = *self;
        match ahead.take() {
            Some(element) if element.tag == tag => {
                *self = ahead;
                Some(element)
            }
            _ => None,
        }
    }

    /// The last element with a tag, of all up to the first bytes that begin with none: of fields in any order.
    pub fn last(&self, tag: u8) -> Option<Element<'a>>
        ensures { Last self.now tag result }
    {
        let mut cursor = *self;
        let mut found = None;
        for _ in 0..self.rest.len() {
            match cursor.take() {
                Some(element) if element.tag == tag => found = Some(element),
                Some(_) => {}
                None => break,
            }
        }
        found
    }

    /// The first byte, which is the tag of the next element.
    pub fn tag(&self) -> Option<u8>
        ensures { MatchOption result (self.now.rest.now ≡ []) (λ tag. (more : List ℕ) × (self.now.rest.now ≡ tag ∷ more)) }
    {
        self.rest.first().copied()
    }

    /// The same behind a number of bytes, as of a BIT STRING behind the count of unused bits; at the end where there are
    /// fewer.
    pub fn behind(&self, count: usize) -> Self
        ensures rest { result.rest.now ≡ drop count self.now.rest.now }
        ensures at { count ≤ length self.now.rest.now → result.at ≡ self.now.at + count }
    {
        if count > self.rest.len() {
            return Cursor {
                rest: &[],
                at: self.at,
            };
        }
        Cursor {
            rest: &self.rest[count..],
            at: self.at + count,
        }
    }
}
