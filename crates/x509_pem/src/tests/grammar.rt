//! What is taken for PEM, by RFC 7468. Where OpenSSL 3.0.19 or pyca/cryptography 48 takes or refuses another text, a
//! comment says so.

use crate::{Fault, PemError, PemReader};
use std::io::{self, BufRead, BufReader, ErrorKind, Read};
use std::process::Abort;
use std::test::Fail;

/// Texts with one block, of the label `A` and the bytes 1, 2 and 3, and the lines that begin and end it.
pub(super) const TAKEN: &[(&str, u64, u64)] = &[
    ("-----BEGIN A-----\nAQID\n-----END A-----\n", 1, 3),
    ("-----BEGIN A-----\r\nAQID\r\n-----END A-----\r\n", 1, 3),
    // CR alone ends a line (RFC 7468, 3): OpenSSL finds no block
    ("-----BEGIN A-----\rAQID\r-----END A-----\r", 1, 3),
    ("\r\r-----BEGIN A-----\n\r\n\nAQID\n\r-----END A-----", 3, 8),
    // indented, as in YAML: OpenSSL finds no block
    (
        "key: |\n  -----BEGIN A-----\n  AQID\n  -----END A-----\n",
        2,
        4,
    ),
    (
        "\t\x0b\x0c -----BEGIN A-----\x0b\x0c \t\n \x0b\x0cAQID\x0b\n\x0b-----END A-----\x0c",
        1,
        3,
    ),
    // white space among symbols, and lines of nothing, which OpenSSL and pyca refuse
    ("-----BEGIN A-----\nA Q\tI\n\nD\n \n-----END A-----\n", 1, 6),
    // a byte order mark, which OpenSSL and pyca take at the front of the text alone
    ("\u{feff}-----BEGIN A-----\nAQID\n-----END A-----\n", 1, 3),
    (
        "\u{feff} hello\n\u{feff}\t-----BEGIN A-----\nAQID\n\u{feff}-----END A-----\n",
        2,
        4,
    ),
    (
        "-----BEGIN B----\n----BEGIN B-----\n-----BEGIN-----\nx -----BEGIN B-----\n-----END B-----\n-----BEGIN A-----\nAQID\n-----END A-----",
        6,
        8,
    ),
];

/// Asks that the next block has the label `A` and the bytes 1, 2 and 3, and stands in these lines.
fn is_taken<R: BufRead + Drop>(rt: &impl Abort, reader: &mut PemReader<R>, first: u64, last: u64) {
    assert!(rt; matches!(reader.next_block(), Ok(true)));
    assert!(rt; reader.block().label() == b"A".as_slice());
    assert!(rt; reader.block().bytes() == b"\x01\x02\x03".as_slice());
    assert!(rt;
        reader.first_line() == first,
        "{} for {first}",
        reader.first_line()
    );
    assert!(rt;
        reader.last_line() == last,
        "{} for {last}",
        reader.last_line()
    );
}

#[test]
fn blocks_are_taken(rt: HostRuntime) {
    for (text, first, last) in TAKEN {
        let mut reader = PemReader::new(rt.alloc(), text.as_bytes(), 4);
        is_taken(&rt, &mut reader, *first, *last);
        assert!(rt; matches!(reader.next_block(), Ok(false)));
    }
}

#[test]
fn blocks_are_taken_in_pieces(rt: HostRuntime) -> Result<(), Fail> {
    for (text, first, last) in TAKEN {
        let pieces = BufReader::with_capacity(rt.alloc(), 1, text.as_bytes())?;
        let mut reader = PemReader::new(rt.alloc(), pieces, 4);
        is_taken(&rt, &mut reader, *first, *last);
        assert!(rt; matches!(reader.next_block(), Ok(false)));
    }
    Ok(())
}

/// Blocks whose text is no base64 (RFC 4648, 4): bits behind the last byte, which OpenSSL takes, padding that is missing,
/// too much or in the middle, another alphabet, a byte order mark.
pub(super) const NO_BASE64: &[&str] = &[
    "AR==",
    "AQJ=",
    "AQ",
    "AQ=",
    "AQI",
    "AQID=",
    "AQ==AQID",
    "A-_D",
    "\u{feff}AQID",
    "AQ.D",
];

#[test]
fn other_text_is_refused(rt: HostRuntime) -> Result<(), Fail> {
    for text in NO_BASE64 {
        let block = format!(in rt.alloc(); "-----BEGIN A-----\n{text}\n-----END A-----\n")?;
        let mut reader = PemReader::new(rt.alloc(), block.as_bytes(), 16);
        let met = reader.next_block();
        assert!(rt;
            matches!(
                met,
                Err(PemError::Fault {
                    fault: Fault::BadBase64,
                    line: 3
                })
            ),
            "{text}"
        );
        assert!(rt; matches!(reader.next_block(), Ok(false)));
    }
    Ok(())
}

/// A text whose first line has this many bytes, and a block behind it.
fn with_line(rt: &HostRuntime, len: usize) -> Result<String, Fail> {
    let mut text = String::new(rt.alloc());
    for _ in 1..len {
        text.push('x')?;
    }
    text.push_str("\n-----BEGIN A-----\nAQID\n-----END A-----\n")?;
    Ok(text)
}

#[test]
fn lines_are_limited(rt: HostRuntime) -> Result<(), Fail> {
    let longest = with_line(&rt, 132)?;
    let mut reader = PemReader::new(rt.alloc(), longest.as_bytes(), 4);
    is_taken(&rt, &mut reader, 2, 4);
    let longer = with_line(&rt, 133)?;
    let pieces = BufReader::with_capacity(rt.alloc(), 50, longer.as_bytes())?;
    let mut reader = PemReader::new(rt.alloc(), pieces, 4);
    let met = reader.next_block();
    assert!(rt;
        matches!(
            met,
            Err(PemError::Fault {
                fault: Fault::TooLong,
                line: 1
            })
        )
    );
    is_taken(&rt, &mut reader, 2, 4);
    Ok(())
}

/// A block, with a line in it that is too long: what stands behind that line is no part of a block.
#[test]
fn long_lines_end_blocks(rt: HostRuntime) -> Result<(), Fail> {
    let mut text = format!(in rt.alloc(); "-----BEGIN A-----\nAQID\n")?;
    for _ in 0..140 {
        text.push(' ')?;
    }
    text.push_str("\n-----END A-----\n")?;
    let mut reader = PemReader::new(rt.alloc(), text.as_bytes(), 4);
    let met = reader.next_block();
    assert!(rt;
        matches!(
            met,
            Err(PemError::Fault {
                fault: Fault::TooLong,
                line: 3
            })
        )
    );
    assert!(rt; matches!(reader.next_block(), Ok(false)));
    Ok(())
}

/// A reader that fails three times, and then ends.
#[derive(Drop)]
struct Failing {
    times: u32,
}

impl Read for Failing {
    fn read(&mut self, buf: &mut [u8]) -> io::Result<usize> {
        if self.times == 3 || buf.is_empty() {
            return Ok(0);
        }
        self.times = self.times.saturating_add(1);
        Err(io::Error::from(ErrorKind::BrokenPipe))
    }
}

/// Texts that break off, outside of a block, inside, and in the middle of a line.
const BROKEN: &[&str] = &[
    "",
    "hello\n",
    "-----BEGIN A-----\nAQID\n",
    "-----BEGIN A-----\nAQID\n-----END",
];

#[test]
fn failures_are_told_at_once(rt: HostRuntime) -> Result<(), Fail> {
    for text in BROKEN {
        let breaking = text.as_bytes().chain(Failing { times: 0 });
        let input = BufReader::with_capacity(rt.alloc(), 64, breaking)?;
        let mut reader = PemReader::new(rt.alloc(), input, 4);
        for _ in 0..3 {
            assert!(rt; matches!(reader.next_block(), Err(PemError::Input(_))));
        }
        // the block was given up
        assert!(rt; matches!(reader.next_block(), Ok(false)));
    }
    Ok(())
}
