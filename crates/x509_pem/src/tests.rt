mod grammar;
mod in_text;

use crate::{Fault, PemError, PemReader};
use std::io::{BufRead, BufReader};
use std::process::Abort;
use std::test::Fail;

/// Two blocks with text around them, white space at the ends of lines, and no line feed at the end.
const TWO: &str =
    "hello\n-----BEGIN A B-----\r\nAQID \nBA==\n-----END A B-----\nbetween\n-----BEGIN C-----\n-----END C-----";

/// Asks that the next block has this label, these bytes, and ends in this line.
fn has_block<R: BufRead + Drop>(
    rt: &impl Abort,
    reader: &mut PemReader<R>,
    label: &[u8],
    bytes: &[u8],
    lines: (u64, u64),
) {
    assert!(rt; matches!(reader.next_block(), Ok(true)));
    assert!(rt; reader.block().label() == label);
    assert!(rt; reader.block().bytes() == bytes);
    assert!(rt; reader.first_line() == lines.0 && reader.last_line() == lines.1);
}

#[test]
fn two_blocks(rt: HostRuntime) -> Result<(), Fail> {
    let mut reader = PemReader::new(rt.alloc(), TWO.as_bytes(), 1000);
    has_block(
        &rt,
        &mut reader,
        b"A B".as_slice(),
        b"\x01\x02\x03\x04".as_slice(),
        (2, 5),
    );
    has_block(&rt, &mut reader, b"C".as_slice(), b"".as_slice(), (7, 8));
    assert!(rt; matches!(reader.next_block(), Ok(false)));
    Ok(())
}

/// Texts, the line of their first fault, and the fault.
const FAULTS: &[(&str, u64, Fault)] = &[
    (
        "-----BEGIN A-----\nAQID\n-----END B-----\n",
        3,
        Fault::LabelMismatch,
    ),
    (
        "x\n-----BEGIN A-----\nAQ!D\n-----END A-----\n",
        4,
        Fault::BadBase64,
    ),
    (
        "-----BEGIN A-----\nAQI\n-----END A-----\n",
        3,
        Fault::BadBase64,
    ),
    ("-----BEGIN A-----\nAQID\n", 2, Fault::NoEnd),
    (
        "-----BEGIN A-----\nAQID\n-----BEGIN B-----\n",
        3,
        Fault::NoEnd,
    ),
    (
        "-----BEGIN A-----\nAQIDAQIDAQID\n-----END A-----\n",
        2,
        Fault::TooLong,
    ),
    (
        "-----BEGIN A-----\nProc-Type: 4,ENCRYPTED\n\nAQID\n-----END A-----\n",
        2,
        Fault::HasHeaders,
    ),
];

/// Asks that the first read meets a fault in a line.
fn is_faulty(rt: &impl Abort, reader: Result<bool, PemError>, line: u64, fault: Fault) {
    match reader {
        Err(
            PemError::Fault {
                fault: met,
                line: there,
            },
        ) => assert!(rt; met == fault && there == line, "{met} in line {there}"),
        _ => assert!(rt; false, "no fault"),
    }
}

#[test]
fn faults(rt: HostRuntime) {
    for (text, line, fault) in FAULTS {
        let mut reader = PemReader::new(rt.alloc(), text.as_bytes(), 8);
        is_faulty(&rt, reader.next_block(), *line, *fault);
    }
}

/// Behind each of these faults stands a block.
const BEHIND: &[&str] = &[
    "-----BEGIN A-----\nAQID\n-----END B-----\n-----BEGIN C-----\nAQID\n-----END C-----\n",
    "-----BEGIN A-----\nAQID\n-----BEGIN C-----\nAQID\n-----END C-----\n",
    "-----BEGIN A-----\nDEK-Info: x\n\nAQID\n-----END A-----\n-----BEGIN C-----\nAQID\n-----END C-----\n",
];

#[test]
fn goes_on_behind_faults(rt: HostRuntime) {
    for text in BEHIND {
        let mut reader = PemReader::new(rt.alloc(), text.as_bytes(), 8);
        assert!(rt; reader.next_block().is_err());
        assert!(rt; matches!(reader.next_block(), Ok(true)));
        assert!(rt; reader.block().label() == b"C".as_slice());
    }
}

/// The bytes from 0 to 99.
const BYTES: &[u8] = &[
    0, 1, 2, 3, 4, 5, 6, 7, 8, 9, 10, 11, 12, 13, 14, 15, 16, 17, 18, 19, 20, 21, 22, 23, 24, 25,
    26, 27, 28, 29, 30, 31, 32, 33, 34, 35, 36, 37, 38, 39, 40, 41, 42, 43, 44, 45, 46, 47, 48, 49,
    50, 51, 52, 53, 54, 55, 56, 57, 58, 59, 60, 61, 62, 63, 64, 65, 66, 67, 68, 69, 70, 71, 72, 73,
    74, 75, 76, 77, 78, 79, 80, 81, 82, 83, 84, 85, 86, 87, 88, 89, 90, 91, 92, 93, 94, 95, 96, 97,
    98, 99,
];

/// The same bytes as OpenSSL writes them (`openssl base64`).
const TEXT: &str = "-----BEGIN A-----\n\
     AAECAwQFBgcICQoLDA0ODxAREhMUFRYXGBkaGxwdHh8gISIjJCUmJygpKissLS4v\n\
     MDEyMzQ1Njc4OTo7PD0+P0BBQkNERUZHSElKS0xNTk9QUVJTVFVWV1hZWltcXV5f\n\
     YGFiYw==\n\
     -----END A-----\n";

/// That text with other ends of its lines, and in other lines.
const LAYOUTS: &[&str] = &[
    TEXT,
    "-----BEGIN A-----\r\n\
     AAECAwQFBgcICQoLDA0ODxAREhMUFRYXGBkaGxwdHh8gISIjJCUmJygpKissLS4v\r\n\
     MDEyMzQ1Njc4OTo7PD0+P0BBQkNERUZHSElKS0xNTk9QUVJTVFVWV1hZWltcXV5f\r\n\
     YGFiYw==\r\n\
     -----END A-----\r\n",
    "-----BEGIN A-----\n\
     AAECAwQFBgcICQoLDA0ODxAREhMUFRYXGBkaGxwdHh8gISIjJCUmJygpKissLS4vMDEyMzQ1Njc4\n\
     OTo7PD0+P0BBQkNERUZHSElKS0xNTk9QUVJTVFVWV1hZWltcXV5fYGFiYw==\n\
     -----END A-----\n",
    "-----BEGIN A-----\n\
     AAECA\n\
     wQFBgcICQoLDA0ODxAREhMUFRYXGBkaGxwdHh8gISIjJCUmJygpKissLS4vMDEyM\n\
     zQ1Njc4OTo7PD0+P0BBQkNERUZHSElKS0xNTk9QUVJTVFVWV1hZWltcXV5fYGFiY\n\
     w==\n\
     -----END A-----\n",
    "-----BEGIN A-----\n\
     AAECAwQFBgcICQoLDA0ODxAREhMUFRYXGBkaGxwdHh8gISIjJCUmJygpKissLS4vMDEyMzQ1Njc4OTo7PD0+P0BBQkNERUZHSElKS0xNTk9QUVJTVFVWV1hZWltcXV5fYGFiYw==\n\
     -----END A-----\n",
];

#[test]
fn layouts(rt: HostRuntime) {
    for text in LAYOUTS {
        let mut reader = PemReader::new(rt.alloc(), text.as_bytes(), 136);
        assert!(rt; matches!(reader.next_block(), Ok(true)));
        assert!(rt; reader.block().bytes() == BYTES);
    }
}

#[test]
fn layouts_in_pieces(rt: HostRuntime) -> Result<(), Fail> {
    for text in LAYOUTS {
        let pieces = BufReader::with_capacity(rt.alloc(), 100, text.as_bytes())?;
        let mut reader = PemReader::new(rt.alloc(), pieces, 136);
        assert!(rt; matches!(reader.next_block(), Ok(true)));
        assert!(rt; reader.block().bytes() == BYTES);
    }
    Ok(())
}

/// Limits below the 136 symbols of the text, and the line that is too long for each.
const LIMITS: &[(usize, u64)] = &[(135, 4), (128, 4), (127, 3), (63, 2)];

#[test]
fn limits(rt: HostRuntime) {
    for (limit, line) in LIMITS {
        let mut reader = PemReader::new(rt.alloc(), TEXT.as_bytes(), *limit);
        is_faulty(&rt, reader.next_block(), *line, Fault::TooLong);
        assert!(rt; reader.block().bytes().is_empty());
    }
}

/// Texts with a full line, the line of their fault, and the fault.
const FULL_FAULTS: &[(&str, u64, Fault)] = &[
    (
        "-----BEGIN A-----\n\
     AAECAwQFBgcICQoLDA0ODxAREhMUFRYXGBkaGxwdHh8gISIjJCUmJygpKissLS4v\n\
     MDEyMzQ1Njc4OTo7PD0+P0BBQkNERU!HSElKS0xNTk9QUVJTVFVWV1hZWltcXV5f\n\
     YGFiYw==\n\
     -----END A-----\n",
        5,
        Fault::BadBase64,
    ),
    (
        "-----BEGIN A-----\n\
     AAECAwQFBgcICQoLDA0ODxAREhMUFRYXGBkaGxwdHh8gISIjJCUmJygpKissLS4v\n\
     YGFiYw==\n\
     MDEyMzQ1Njc4OTo7PD0+P0BBQkNERUZHSElKS0xNTk9QUVJTVFVWV1hZWltcXV5f\n\
     -----END A-----\n",
        5,
        Fault::BadBase64,
    ),
    (
        "-----BEGIN A-----\n\
     AAECAwQFBgcICQoLDA0ODxAREhMUFRYXGBkaGxwdHh8gISIjJCUmJygpKissLS4v\n\
     MDEyMzQ1Njc4OTo7PD0+P0BBQkNERUZHSElKS0xNTk9QUVJTVFVWV1hZWltcXV5f\n\
     -----END B-----\n",
        4,
        Fault::LabelMismatch,
    ),
];

#[test]
fn full_faults(rt: HostRuntime) {
    for (text, line, fault) in FULL_FAULTS {
        let mut reader = PemReader::new(rt.alloc(), text.as_bytes(), 1000);
        is_faulty(&rt, reader.next_block(), *line, *fault);
        assert!(rt; reader.block().bytes().is_empty());
    }
}
