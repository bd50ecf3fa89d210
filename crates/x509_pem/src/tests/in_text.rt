//! Blocks of a text in memory: each is the one that a reader of a stream finds.

use crate::tests::grammar::{NO_BASE64, TAKEN};
use crate::{Cursor, Fault, Span, TextBlock, decode_in, next_in, room_for};
use std::process::Abort;
use std::test::Fail;

/// The bytes of a text at a span.
fn at(text: &[u8], span: Span) -> &[u8] {
    text.get(span.start..span.end).unwrap_or(b"".as_slice())
}

/// How many bytes a text stands for, where the buffer has room and it is base64.
fn decoded(text: &[u8], out: &mut [u8]) -> Option<usize> {
    if room_for(text) > out.len() {
        return None;
    }
    decode_in(text, out)
}

/// Asks that a block has the label `A` and the bytes 1, 2 and 3, and stands in these lines.
fn is_taken(rt: &impl Abort, text: &[u8], block: TextBlock, first: u64, last: u64) {
    let mut bytes = [9u8; 4];
    assert!(rt; block.fault.is_none() && at(text, block.label) == b"A".as_slice());
    assert!(rt; block.first_line == first && block.last_line == last);
    assert!(rt; room_for(at(text, block.symbols)) == 3);
    assert!(rt; decoded(at(text, block.symbols), &mut bytes) == Some(3));
    assert!(rt; bytes.as_slice() == b"\x01\x02\x03\x09".as_slice());
}

/// The next block.
fn found(rt: &impl Abort, text: &[u8], start: Cursor) -> TextBlock {
    match next_in(text, start) {
        Some(block) => block,
        None => panic!(rt; "no block"),
    }
}

#[test]
fn blocks_are_found(rt: HostRuntime) {
    for (text, first, last) in TAKEN {
        let text = text.as_bytes();
        let block = found(&rt, text, Cursor::front());
        is_taken(&rt, text, block, *first, *last);
        assert!(rt; next_in(text, block.next).is_none());
    }
}

/// Texts, the fault of their first block, its line, and the line where the next block begins, 0 where there is none.
const FAULTS: &[(&str, Fault, u64, u64)] = &[
    (
        "-----BEGIN A-----\nAQID\n-----END B-----\n-----BEGIN C-----\n-----END C-----",
        Fault::LabelMismatch,
        3,
        4,
    ),
    ("-----BEGIN A-----\r\nAQID\r\n", Fault::NoEnd, 2, 0),
    (
        "-----BEGIN A-----\r\nAQID\r\n-----BEGIN C-----\r\n-----END C-----\r\n",
        Fault::NoEnd,
        3,
        3,
    ),
    (
        "x\n-----BEGIN A-----\nProc-Type: 4,ENCRYPTED\n\nAQID\n-----END A-----\n",
        Fault::HasHeaders,
        3,
        0,
    ),
];

#[test]
fn faults_are_told(rt: HostRuntime) {
    for (text, fault, line, next) in FAULTS {
        let text = text.as_bytes();
        let block = found(&rt, text, Cursor::front());
        assert!(rt; block.fault == Some(*fault) && block.last_line == *line);
        // (as a caller goes on that keeps two numbers)
        let there = Cursor::behind(text, block.next.at, block.next.line);
        assert!(rt; there == block.next);
        let line = match next_in(text, there) {
            Some(block) => block.first_line,
            None => 0,
        };
        assert!(rt; line == *next);
    }
}

#[test]
fn other_text_is_no_base64(rt: HostRuntime) {
    for text in NO_BASE64 {
        let mut bytes = [0u8; 16];
        assert!(rt; decoded(text.as_bytes(), &mut bytes).is_none(), "{text}");
    }
}

/// So many `A`, in lines of 65, what stands behind them, and how many bytes of 0 that stands for.
const CHUNKS: &[(usize, &str, usize)] = &[
    (128, "", 96),
    (132, "", 99),
    (124, "AA==", 94),
    (128, "AAA=", 98),
];

/// The text of `CHUNKS`.
fn chunks(rt: &HostRuntime, symbols: usize, tail: &str) -> Result<String, Fail> {
    let mut text = String::new(rt.alloc());
    for index in 0..symbols {
        text.push('A')?;
        if index % 65 == 64 {
            text.push('\n')?;
        }
    }
    text.push_str(tail)?;
    Ok(text)
}

#[test]
fn chunks_are_decoded(rt: HostRuntime) -> Result<(), Fail> {
    for (symbols, tail, len) in CHUNKS {
        let mut bytes = [1u8; 102];
        let mut text = chunks(&rt, *symbols, tail)?;
        assert!(rt; decoded(text.as_bytes(), &mut bytes) == Some(*len));
        assert!(rt; bytes.iter().position(|byte| *byte != 0) == Some(*len));
        // (nothing stands behind padding)
        text.push_str("AAAA")?;
        assert!(rt; decoded(text.as_bytes(), &mut bytes).is_some() == (*len % 3 == 0));
    }
    Ok(())
}
