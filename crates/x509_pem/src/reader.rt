//! Reads blocks from a reader.

ghost use Rattle.std.specs.Prelude.{◌≡◌, ◌+◌, ◌-◌, ◌^◌, min, ℕ, List, [], true, false, IfOk, IfSome, MatchResult};
ghost use Rattle.x509_pem.specs.Reader.{step_of as said};

use crate::block::Block;
use crate::fault::{Fault, PemError};
use crate::lines::Lines;
use std::alloc::{Allocator, Global};
use std::io::{self, BufRead, ErrorKind};

/// How much longer than a block's text a line may be.
const LINE_ROOM: usize = 128;

/// What a line was.
#[derive(Clone, Copy, Debug, PartialEq, Eq)]
enum Step {
    /// Neither of the two.
    Other,
    /// The last of a block.
    BlockEnd,
    /// None: the input has ended.
    InputEnd,
}

/// The step that was done by a line of this number.
fn step_of(taken: Result<bool, Fault>, line: u64) -> Result<Step, PemError>
    ensures { result ≡ said taken line }
{
    match taken {
        Ok(true) => Ok(Step::BlockEnd),
        Ok(false) => Ok(Step::Other),
        Err(fault) => Err(PemError::Fault { fault, line }),
    }
}

/// A reader of blocks, which holds one block at a time.
#[derive(Drop)]
pub struct PemReader<R: BufRead + Drop, A: Allocator = Global> {
    lines: Lines<R, A>,
    block: Block<A>,
}

impl<R: BufRead + Drop, A: Allocator + Copy> PemReader<R, A> {
    ghost use Rattle.x509_pem.specs.Reader.{block_of, input_of, limit_of, longest_of, place_of};

    /// A reader of blocks whose text has at most `limit` symbols.
    pub fn new(alloc: A, input: R, limit: usize) -> Self
        ensures input { input_of result ≡ input }
        ensures shut { (block_of result).is_open ≡ false }
        ensures line { (place_of result).line ≡ 0 }
        ensures limit { (limit_of result ≡ limit) × (longest_of result ≡ min (limit + 128) (2 ^ 64 - 1)) }
    {
        PemReader {
            lines: Lines::new(alloc, input, limit.saturating_add(LINE_ROOM)),
            block: Block::new(alloc, limit),
        }
    }
}

impl<R: BufRead + Drop, A: Allocator> PemReader<R, A> {
    ghost use Rattle.x509_pem.specs.Block.{state_of};
    ghost use Rattle.x509_pem.specs.Part.{IsHeld};
    ghost use Rattle.x509_pem.specs.Reader.{IfFault, Stepped, Takes, Walked, block_of, input_of, limit_of, longest_of, place_of};
    ghost use Rattle.x509_pem.specs.Step.{EndsInside, Skips};
    ghost use Rattle.x509_pem.specs.Whole.{NextBlock};

    /// The block that was read last.
    pub fn block(&self) -> &Block<A>
        ensures { state_of result.now ≡ block_of self.now }
    {
        &self.block
    }

    /// The number of the line that began the block, from 1.
    pub fn first_line(&self) -> u64
        ensures { result ≡ (block_of self.now).begun }
    {
        self.block.begun()
    }

    /// The number of the line that was read last, from 1: of a block that was read, the line that ended it.
    pub fn last_line(&self) -> u64
        ensures { result ≡ (place_of self.now).line }
    {
        self.lines.count()
    }

    /// A fault in the line that was read last.
    fn fault_there(&self, fault: Fault) -> PemError
        ensures { result ≡ PemError.Fault fault (place_of self.now).line }
    {
        PemError::Fault {
            fault,
            line: self.lines.count(),
        }
    }

    /// Gives up the block, since the input failed.
    fn failed(&mut self, error: io::Error) -> PemError
        ensures { IfFault result (λ fault number. ⊥) }
    {
        self.block.give_up();
        PemError::Input(error)
    }

    /// Takes the line that was read last.
    ///
    /// # Errors
    /// The line isn't held, and the block is given up; else those of `Block::take_line`.
    fn take_held(&mut self) -> Result<bool, Fault>
        ensures takes { (line : List ℕ) → IsHeld self.old.lines.limit self.old.lines.lack self.old.lines.held.items line
            → Takes (limit_of self.old) (longest_of self.old) line result (place_of self.old) (place_of self.new) }
        ensures input { self.new.lines ≡ self.old.lines }
        ensures limit { limit_of self.new ≡ limit_of self.old }
    {
        match self.lines.line() {
            Ok(line) => self.block.take_line(line, self.lines.count()),
            Err(fault) => {
                self.block.give_up();
                Err(fault)
            }
        }
    }

    /// Takes a full line of symbols inside of a block, where the reader shows one, and answers whether it did.
    ///
    /// # Errors
    /// The input failed.
    fn take_full(&mut self) -> Result<bool, PemError>
        ensures taken { MatchResult result (λ taken. IfSome (R.remaining self.old.lines.input) (λ text. Skips taken text
            (place_of self.old) (R.remaining self.new.lines.input) (place_of self.new)))
            (λ error. IfFault error (λ fault number. ⊥)) }
        ensures limits { IfOk result (λ _. (limit_of self.new ≡ limit_of self.old) × (longest_of self.new ≡ longest_of self.old)) }
    {
        if !self.block.is_open() {
            return Ok(false);
        }
        match self.lines.take_full(&mut self.block) {
            Ok(taken) => Ok(taken),
            Err(error) => Err(self.failed(error)),
        }
    }

    /// Reads a line and takes it.
    ///
    /// # Errors
    /// The input failed, or those of `take_held`.
    fn read_line(&mut self) -> Result<Step, PemError>
        ensures stepped { Stepped (limit_of self.old) (longest_of self.old) (R.remaining self.old.lines.input) result
            (place_of self.old) (R.remaining self.new.lines.input) (place_of self.new) }
        ensures limits { IfOk result (λ _. (limit_of self.new ≡ limit_of self.old) × (longest_of self.new ≡ longest_of self.old)) }
    {
        match self.lines.fill() {
            Ok(true) => {
                let taken = self.take_held();
                step_of(taken, self.lines.count())
            }
            Ok(false) => Ok(Step::InputEnd),
            Err(error) => Err(self.failed(error)),
        }
    }

    /// Takes a line, right from the reader where it can.
    ///
    /// # Errors
    /// Those of `take_full` and `read_line`.
    fn step(&mut self) -> Result<Step, PemError>
        ensures stepped { Stepped (limit_of self.old) (longest_of self.old) (R.remaining self.old.lines.input) result
            (place_of self.old) (R.remaining self.new.lines.input) (place_of self.new) }
        ensures limits { IfOk result (λ _. (limit_of self.new ≡ limit_of self.old) × (longest_of self.new ≡ longest_of self.old)) }
    {
        match self.take_full() {
            Ok(true) => Ok(Step::Other),
            Ok(false) => self.read_line(),
            Err(error) => Err(error),
        }
    }

    /// Ends the reading at the end of the input.
    ///
    /// # Errors
    /// `NoEnd`, where a block is open, which is given up.
    fn finish(&mut self) -> Result<bool, PemError>
        ensures ends { MatchResult result (λ found. (found ≡ false) × ((block_of self.old).is_open ≡ false)
            × (place_of self.new ≡ place_of self.old))
            (λ error. IfFault error (λ fault number. (number ≡ (place_of self.new).line)
            × EndsInside fault [] (place_of self.old) (place_of self.new))) }
        ensures input { self.new.lines.input ≡ self.old.lines.input }
    {
        if self.block.is_open() {
            self.block.give_up();
            return Err(self.fault_there(Fault::NoEnd));
        }
        Ok(false)
    }

    /// Reads up to the end of the next block, line by line.
    ///
    /// # Errors
    /// Those of `step` and `finish`.
    fn walk(&mut self) -> Result<bool, PemError>
        ensures { Walked (limit_of self.old) (longest_of self.old) (R.remaining self.old.lines.input) result
            (place_of self.old) (R.remaining self.new.lines.input) (place_of self.new) }
    {
        'lines: for _ in 0..u64::MAX {
            match self.step() {
                Ok(Step::BlockEnd) => return Ok(true),
                Ok(Step::InputEnd) => return self.finish(),
                Ok(Step::Other) => {}
                Err(error) => return Err(error),
            }
        }
        Err(self.failed(ErrorKind::Other.into()))
    }

    /// Reads up to the end of the next block, and answers whether there is one: `block` then lends it. Text around
    /// blocks is passed over, white space at both ends of a line and among symbols, and a byte order mark before a
    /// boundary. CR, LF, or both end a line (RFC 7468, 2 and 3).
    ///
    /// # Errors
    /// A fault, with its line, or the input failed. The next call goes on behind the line of the fault; where that line
    /// began another block, with this block.
    pub fn next_block(&mut self) -> Result<bool, PemError>
        ensures found { (block_of self.old).is_open ≡ false → IfOk result (λ found.
            IfSome (R.remaining (input_of self.old)) (λ text. NextBlock found text (place_of self.old)
            (place_of self.new) (R.remaining (input_of self.new)))) }
        ensures all { Walked (limit_of self.old) (longest_of self.old) (R.remaining (input_of self.old)) result
            (place_of self.old) (R.remaining (input_of self.new)) (place_of self.new) }
    {
        self.walk()
    }
}
