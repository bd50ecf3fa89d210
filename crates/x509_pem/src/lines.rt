//! Lines of a reader, each in memory that is used again, and none longer than a limit.

ghost use Rattle.std.specs.Prelude.{◌≡◌, ◌≤◌, ◌<◌, ◌++◌, ℕ, List, [], true, false, nat_lt, IfOk, IfSome, OnOk, MatchResult, Some, None, take, length};
ghost use Rattle.x509_pem.specs.Part.{Counted, IsPart, IsHeld, Measures, DropsLine};
ghost use Rattle.x509_pem.specs.Text.{line_of, is_feed};

use crate::block::Block;
use crate::fault::Fault;
use memchr::memchr2;
use std::alloc::Allocator;
use std::io::{self, BufRead, ErrorKind};

/// The length of a full line: 64 symbols, and CR or LF.
const FULL_LINE: usize = 65;

/// How long a line is, at most as far as a `usize` goes, and its last byte, 0 where it has none.
#[derive(Clone, Copy, Debug)]
struct Measure {
    len: usize,
    last: u8,
}

impl Measure {
    /// The measure of bytes.
    fn of(bytes: &[u8]) -> Measure
        ensures { Measures result bytes.now }
    {
        let last = match bytes.last() {
            Some(last) => *last,
            None => 0,
        };
        Measure {
            len: bytes.len(),
            last,
        }
    }

    /// The measure of these bytes and, behind them, of others.
    fn and(self, more: Measure) -> Measure
        ensures { (line bytes : List ℕ) → Measures self line → Measures more bytes → Measures result (line ++ bytes) }
    {
        Measure {
            len: self.len.saturating_add(more.len),
            last: if more.len == 0 { self.last } else { more.last },
        }
    }

    /// Whether it is that of LF alone.
    fn is_feed(self) -> bool
        ensures { (line : List ℕ) → Measures self line → result ≡ is_feed line }
    {
        self.len == 1 && self.last == b'\n'
    }
}

/// A part of a line, and whether the line ends there.
#[derive(Clone, Copy, Debug)]
struct Part {
    measure: Measure,
    is_done: bool,
}

/// How many bytes of a chunk belong to its first line, and whether that line ends there.
pub(crate) fn line_part(chunk: &[u8]) -> (usize, bool)
    ensures bound { result.0 ≤ length chunk.now }
    ensures all { result.1 ≡ false → result.0 ≡ length chunk.now }
    ensures some { 0 < length chunk.now → 0 < result.0 }
    ensures part { IsPart result.1 (take result.0 chunk.now) }
{
    match memchr2(b'\n', b'\r', chunk) {
        Some(at) => (at + 1, true),
        None => (chunk.len(), chunk.is_empty()),
    }
}

/// Appends a part of a line, unless something was lacking for the line already, and answers what is lacking then.
fn hold<A: Allocator>(
    lack: Option<Fault>,
    held: &mut Vec<u8, A>,
    limit: usize,
    part: &[u8],
) -> Option<Fault>
    ensures { (line : List ℕ) → IsHeld limit lack held.old.items line → IsHeld limit result held.new.items (line ++ part.now) }
{
    if lack.is_some() {
        return lack;
    }
    if part.len() > limit.saturating_sub(held.len()) {
        return Some(Fault::TooLong);
    }
    match held.extend_from_slice(part) {
        Ok(()) => None,
        Err(_) => Some(Fault::OutOfMemory),
    }
}

/// The number of the line with a measure behind line `number`, by whether that ended in CR, and whether CR ends the line
/// too. LF behind CR belongs to the line of the CR; nothing is no line.
fn numbered(number: u64, returned: bool, line: Measure) -> (u64, bool)
    ensures { (bytes : List ℕ) → Measures line bytes → Counted (nat_lt 0 line.len) bytes number returned result.0 result.1 }
{
    if line.len == 0 {
        return (number, returned);
    }
    let ends_return = line.last == b'\r';
    if returned && line.is_feed() {
        return (number, ends_return);
    }
    (number.saturating_add(1), ends_return)
}

/// A reader of lines, with the line that was read last, or why that isn't held.
#[derive(Drop)]
pub(crate) struct Lines<R: BufRead + Drop, A: Allocator> {
    input: R,
    held: Vec<u8, A>,
    lack: Option<Fault>,
    limit: usize,
    count: u64,
    returned: bool,
}

impl<R: BufRead + Drop, A: Allocator> Lines<R, A> {
    ghost use Rattle.x509_pem.specs.Part.{Fills};
    ghost use Rattle.x509_pem.specs.Reader.{place_at, Counts};
    ghost use Rattle.x509_pem.specs.Block.{limit_of as block_limit};
    ghost use Rattle.x509_pem.specs.Step.{TakesFull};

    /// Lines of at most `limit` bytes. None was read yet.
    pub(crate) fn new(alloc: A, input: R, limit: usize) -> Self
        ensures input { result.input ≡ input }
        ensures line { (result.count ≡ 0) × (result.returned ≡ false) }
        ensures limit { result.limit ≡ limit }
    {
        Lines {
            input,
            held: Vec::new(alloc),
            lack: None,
            limit,
            count: 0,
            returned: false,
        }
    }

    /// The line that was read last.
    ///
    /// # Errors
    /// It is too long, or memory was refused for it.
    pub(crate) fn line(&self) -> Result<&[u8], Fault>
        ensures { MatchResult result (λ line. (self.now.lack ≡ None) × (line.now ≡ self.now.held.items))
            (λ fault. self.now.lack ≡ Some fault) }
    {
        match self.lack {
            None => Ok(self.held.as_slice()),
            Some(fault) => Err(fault),
        }
    }

    /// The number of the line that was read last, from 1: CR and LF together end one line.
    pub(crate) fn count(&self) -> u64
        ensures { result ≡ self.now.count }
    {
        self.count
    }

    /// Goes past what the reader shows of the line, and holds it where it can.
    ///
    /// # Errors
    /// The input failed. A read that was interrupted hasn't failed.
    fn fill_part(&mut self) -> io::Result<Part>
        ensures part { IfOk result (λ part. Fills self.old.limit part (R.remaining self.old.input) (R.remaining self.new.input)
            self.old.lack self.old.held.items self.new.lack self.new.held.items) }
        ensures count { (self.new.count ≡ self.old.count) × (self.new.returned ≡ self.old.returned) }
        ensures limit { self.new.limit ≡ self.old.limit }
    {
        let chunk = match self.input.fill_buf() {
            Ok(chunk) => chunk,
            Err(error) => {
                return if error.kind() == ErrorKind::Interrupted {
                    Ok(Part {
                        measure: Measure::of(b"".as_slice()),
                        is_done: false,
                    })
                } else {
                    Err(error)
                };
            }
        };
        let (len, is_done) = line_part(chunk);
        let measure = Measure::of(&chunk[..len]);
        self.lack = hold(self.lack, &mut self.held, self.limit, &chunk[..len]);
        self.input.consume(len);
        Ok(Part { measure, is_done })
    }

    /// Goes past a line with the byte that ends it, if one does, and holds it where it can. Answers whether there is one:
    /// there is none at the end of the input.
    ///
    /// # Errors
    /// The input failed.
    pub(crate) fn fill(&mut self) -> io::Result<bool>
        ensures held { IfOk result (λ some. IfSome (R.remaining self.old.input)
            (λ text. IsHeld self.old.limit self.new.lack self.new.held.items (line_of text))) }
        ensures end { IfOk result (λ some. IfSome (R.remaining self.old.input) (λ text. some ≡ false → text ≡ [])) }
        ensures number { IfOk result (λ some. IfSome (R.remaining self.old.input)
            (λ text. Counts some (line_of text) self.old self.new)) }
        ensures left { OnOk result (DropsLine (R.remaining self.old.input) (R.remaining self.new.input)) }
        ensures limit { OnOk result (self.new.limit ≡ self.old.limit) }
    {
        self.held.clear();
        self.lack = None;
        let mut line = Measure::of(b"".as_slice());
        'parts: for _ in 0..u64::MAX {
            let part = self.fill_part()?;
            line = line.and(part.measure);
            if part.is_done {
                let (count, returned) = numbered(self.count, self.returned, line);
                self.count = count;
                self.returned = returned;
                return Ok(line.len > 0);
            }
        }
        Err(ErrorKind::Other.into())
    }

    /// Takes the next line into a block, where it is a full line of symbols that the reader shows whole: it is decoded
    /// right where the reader holds it. Answers whether it was taken.
    ///
    /// # Errors
    /// The input failed. A read that was interrupted hasn't failed.
    pub(crate) fn take_full(&mut self, block: &mut Block<A>) -> io::Result<bool>
        ensures taken { IfOk result (λ taken. TakesFull taken (R.remaining self.old.input) (R.remaining self.new.input)
            (place_at self.old block.old) (place_at self.new block.new)) }
        ensures limits { (self.new.limit ≡ self.old.limit) × (block_limit block.new ≡ block_limit block.old) }
    {
        let chunk = match self.input.fill_buf() {
            Ok(chunk) => chunk,
            Err(error) => {
                return if error.kind() == ErrorKind::Interrupted {
                    Ok(false)
                } else {
                    Err(error)
                };
            }
        };
        let is_taken = block.add_front(chunk);
        if is_taken {
            self.returned = chunk[FULL_LINE - 1] == b'\r';
            self.input.consume(FULL_LINE);
            self.count = self.count.saturating_add(1);
        }
        Ok(is_taken)
    }
}
