//! The work on one input.

use crate::progress::Progress;
use cimaroly_work::form::{Form, form_of, is_hexadecimal};
use cimaroly_work::input::{FRONT, LONGEST, decoded, read_front, read_rest};
use cimaroly_work::{Action, Session, Stop};
use std::io::{self, BufRead, Read, Write};
use std::time::Clock;
use x509_inspect::Source;
use x509_pem::{Block, Fault, PemError, PemReader, decode_in, room_for};

/// What is said of hexadecimal that stands for no bytes.
const ODD: &str = "an odd number of hexadecimal digits";

/// What is said of an input other than PEM that is too long to be a structure (`LONGEST`).
const TOO_LONG: &str = "input other than PEM must be under 64 MiB";

/// Works on a PEM block that was read.
fn block<W: Write>(
    session: &mut Session<'_, W>,
    path: &str,
    block: &Block,
    line: u64,
) -> Result<(), Stop> {
    let label = block.label();
    let source = Source {
        file: path,
        block: Some((line, label)),
    };
    session.block(source, label, block.bytes())
}

/// Tells what is wrong with a PEM block.
fn fault<W: Write>(
    session: &mut Session<'_, W>,
    path: &str,
    block: &Block,
    line: u64,
    fault: Fault,
) -> Result<(), Stop> {
    if fault == Fault::OutOfMemory {
        return Err(Stop::memory());
    }
    let reason = fault.to_string(session.alloc)?;
    let source = Source {
        file: path,
        block: Some((line, block.label())),
    };
    session.refuse(source, reason.as_str())
}

/// Works on the next PEM block. Answers whether there may be more.
fn next_block<R: BufRead + Drop, W: Write>(
    session: &mut Session<'_, W>,
    path: &str,
    reader: &mut PemReader<R>,
) -> Result<bool, Stop> {
    match reader.next_block() {
        Ok(true) => {
            block(session, path, reader.block(), reader.first_line())?;
            Ok(true)
        }
        Ok(false) => Ok(false),
        Err(PemError::Input(error)) => Err(Stop::from(error)),
        Err(PemError::Fault { fault: met, line }) => {
            fault(session, path, reader.block(), line, met)?;
            Ok(true)
        }
    }
}

/// Tells standard error what is noted for it.
pub(crate) fn tell_notes<T: Eprint, W: Write>(
    rt: &T,
    session: &mut Session<'_, W>,
) -> io::Result<()> {
    if session.notes.is_empty() {
        return Ok(());
    }
    eprint!(rt; "{}", session.notes)?;
    session.notes.clear();
    Ok(())
}

/// Works on all PEM blocks of an input.
fn blocks<R: BufRead + Drop, W: Write, T: Clock + Eprint>(
    rt: &T,
    session: &mut Session<'_, W>,
    path: &str,
    input: R,
    front: &[u8],
    progress: &mut Progress,
) -> Result<(), Stop> {
    let mut reader = PemReader::new(session.alloc, front.chain(input), LONGEST);
    let before = session.tally;
    for _ in 0..u64::MAX {
        if !next_block(session, path, &mut reader)? {
            break;
        }
        tell_notes(rt, session)?;
        progress.tick(rt, &session.tally)?;
    }
    if session.tally.structures() > before.structures() {
        return Ok(());
    }
    if session.tally.passed_over > before.passed_over {
        session.miss();
        return Ok(());
    }
    let source = Source {
        file: path,
        block: None,
    };
    session.unread(source, front)
}

/// Works on the bytes that hexadecimal digits stand for.
fn hexadecimal<W: Write>(
    session: &mut Session<'_, W>,
    source: Source<'_>,
    text: &[u8],
) -> Result<(), Stop> {
    match decoded(session.alloc, text)? {
        Some(bytes) => session.bare(source, bytes.as_slice()),
        None if is_hexadecimal(text) => session.nothing(source, ODD),
        None => session.bare(source, text),
    }
}

/// Works on the bytes that base64 text stands for.
fn base64<W: Write>(
    session: &mut Session<'_, W>,
    source: Source<'_>,
    text: &[u8],
) -> Result<(), Stop> {
    let mut bytes = vec![in session.alloc; 0u8; room_for(text)]?;
    match decode_in(text, bytes.as_mut_slice()) {
        Some(len) => {
            bytes.truncate(len);
            session.bare(source, bytes.as_slice())
        }
        None => session.unread(source, text),
    }
}

/// Whether bytes that begin otherwise than any type may be read all the same.
fn may_be_read<W: Write>(session: &Session<'_, W>, front: &[u8]) -> bool {
    let settings = session.settings;
    settings.action == Action::Tree || settings.kind.is_some() || front.first() == Some(&0x30)
}

/// Works on all that an input has.
///
/// # Errors
/// Input or output failed, memory is refused, or the program was called in a wrong way.
pub(crate) fn input<R: BufRead + Drop, W: Write, T: Clock + Eprint>(
    rt: &T,
    session: &mut Session<'_, W>,
    path: &str,
    mut input: R,
    progress: &mut Progress,
) -> Result<(), Stop> {
    let mut front = read_front(session.alloc, &mut input)?;
    let is_whole = front.len() < FRONT;
    let form = form_of(front.as_slice(), is_whole);
    let source = Source {
        file: path,
        block: None,
    };
    if form == Form::Pem {
        return blocks(rt, session, path, input, front.as_slice(), progress);
    }
    if form == Form::Der && !may_be_read(session, front.as_slice()) {
        return session.unread(source, front.as_slice());
    }
    let is_all = read_rest(&mut front, &mut input)?;
    match form {
        _ if !is_all => session.refuse(source, TOO_LONG)?,
        Form::Hexadecimal => hexadecimal(session, source, front.as_slice())?,
        Form::Base64 => base64(session, source, front.as_slice())?,
        _ => session.bare(source, front.as_slice())?,
    }
    progress.tick(rt, &session.tally)?;
    Ok(())
}
