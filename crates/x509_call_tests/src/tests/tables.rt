//! The tables of object identifiers: how many there are, that each constant and each printed value is the stated text,
//! and that each function answers want of memory where its request is refused.

/// Compares the lines of a table: a constant, the function that makes its identifier, and the stated text of both.
macro_rules! lines {
    ($checked:ident, $alloc:ident: $($constant:ident $function:ident $text:literal;)*) => {
        $($checked.line(oids::$constant, oids::$function($alloc), $text);)*
    };
}

mod algorithms;
mod objects;

use refusing::{Refusing, Turn, in_turn};
use std::alloc::{AllocError, Allocator};
use std::fmt::{self, Write};
use x509_der::{ObjectIdentifier, OidError};

/// A text that is compared with what is printed, piece by piece.
#[derive(Drop)]
struct Expected<'a> {
    rest: &'a [u8],
    differs: bool,
}

impl Write for Expected<'_> {
    fn write_str(&mut self, piece: &str) -> fmt::Result {
        let piece = piece.as_bytes();
        match self.rest.strip_prefix(piece) {
            Some(rest) => self.rest = rest,
            None => self.differs = true,
        }
        Ok(())
    }
}

/// Whether the value prints the text. Takes no memory.
fn prints<A: Allocator>(value: &ObjectIdentifier<A>, text: &str) -> bool {
    let mut expected = Expected {
        rest: text.as_bytes(),
        differs: false,
    };
    let printed = write!(expected, "{value}").is_ok();
    printed && !expected.differs && expected.rest.is_empty()
}

/// How many lines were compared, how many of them aren't as stated, and of how many the function was refused memory.
#[derive(Clone, Copy)]
pub struct Checked {
    lines: u32,
    wrong: u32,
    refused: u32,
}

/// No line yet.
const NONE: Checked = Checked {
    lines: 0,
    wrong: 0,
    refused: 0,
};

impl Checked {
    /// Compares a constant and what a value prints with a text.
    pub(super) fn line<A: Allocator>(
        &mut self,
        constant: &str,
        made: Result<ObjectIdentifier<A>, AllocError>,
        text: &str,
    ) {
        self.lines = self.lines.saturating_add(1);
        match made {
            Ok(value) if constant == text && prints(&value, text) => {}
            Ok(_value) => self.wrong = self.wrong.saturating_add(1),
            Err(AllocError) => self.refused = self.refused.saturating_add(1),
        }
    }

    /// What the run showed, in which at most one request was refused.
    fn turn(self) -> Turn {
        match self.refused {
            0 => Turn::right(self.wrong == 0),
            _ => Turn::stands(self.wrong == 0 && self.refused == 1),
        }
    }
}

/// No function takes memory, since each identifier is short.
#[test]
fn each_line_is_as_stated(rt: HostRuntime) {
    let heap = Refusing::new(rt.alloc());
    let requests = in_turn!(
        heap,
        {
            let mut checked = NONE;
            algorithms::lines(&heap, &mut checked);
            checked.turn()
        }
    );
    assert_eq!(rt; requests, Some(0));
    let requests = in_turn!(
        heap,
        {
            let mut checked = NONE;
            objects::lines(&heap, &mut checked);
            checked.turn()
        }
    );
    assert_eq!(rt; requests, Some(0));
}

#[test]
fn the_tables_are_whole(rt: HostRuntime) {
    let mut checked = NONE;
    algorithms::lines(rt.alloc(), &mut checked);
    assert_eq!(rt; (checked.lines, checked.wrong), (95, 0));
    let mut checked = NONE;
    objects::lines(rt.alloc(), &mut checked);
    assert_eq!(rt; (checked.lines, checked.wrong), (90, 0));
}

#[test]
fn printing_takes_no_memory(rt: HostRuntime) {
    let heap = Refusing::new(rt.alloc());
    let value = ObjectIdentifier::from_arcs(&heap, &[2, 5, 4, 3]).expect(&rt, "lawful arcs");
    heap.refuse_all();
    assert!(rt; prints(&value, "2.5.4.3"));
    assert_eq!(rt; heap.requests(), 0);
}

/// What a run showed that should read the text, as an identifier that prints it.
fn read_turn<A: Allocator>(answer: Result<ObjectIdentifier<A>, OidError>, text: &str) -> Turn {
    match answer {
        Ok(value) => Turn::right(prints(&value, text)),
        Err(OidError::OutOfMemory) => Turn::Refused,
        Err(OidError::Bad) => Turn::Wrong,
    }
}

#[test]
fn texts_are_read(rt: HostRuntime) {
    let heap = Refusing::new(rt.alloc());
    for text in &[
        "2.40",
        "2.999",
        "2.18446744073709551535",
        "1.2.18446744073709551615",
        "1.3.6.1.5.2.3.2",
        "0.0",
    ] {
        let requests = in_turn!(
            heap,
            read_turn(ObjectIdentifier::from_text(&heap, *text), *text)
        );
        assert!(rt; requests.is_some(), "{text}");
    }
}

/// What a run showed that should find that the text is no identifier's.
fn bad_turn<A: Allocator>(answer: Result<ObjectIdentifier<A>, OidError>) -> Turn {
    match answer {
        Ok(_value) => Turn::Wrong,
        Err(OidError::OutOfMemory) => Turn::Refused,
        Err(OidError::Bad) => Turn::Granted,
    }
}

#[test]
fn other_texts_are_bad(rt: HostRuntime) {
    let heap = Refusing::new(rt.alloc());
    for text in &[
        "",
        "2",
        "1.40",
        "3.1",
        "2.5.4.03",
        "2.5.",
        "2..5",
        ".2.5",
        "2.18446744073709551536",
        "1.2.18446744073709551616",
        "1.+2",
        "1.-2",
        "1. 2",
        "1.2 ",
        "a.b",
        "1,2",
    ] {
        let requests = in_turn!(heap, bad_turn(ObjectIdentifier::from_text(&heap, *text)));
        assert!(rt; requests.is_some(), "{text}");
    }
}
