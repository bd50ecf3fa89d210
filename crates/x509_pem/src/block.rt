//! A block that is read line by line.

ghost use Rattle.std.specs.Prelude.{◌≡◌, ◌≢◌, ◌↔◌, ◌⊎◌, ◌≤◌, ◌<◌, ◌+◌, ◌*◌, ◌/◌, ◌%◌, ◌++◌, [], true, false, length, OnOk, OnErr, IfOk, IsErrOf, MatchResult};
ghost use Rattle.base64.specs.GeneralPurpose.{IsBytes};
ghost use Rattle.x509_pem.specs.Line.{Trimmed};
ghost use Rattle.x509_pem.specs.Text.{solid};

use crate::boundary::{Kind, kind_of};
use crate::fault::Fault;
use crate::full_line::decode_line;
use crate::rest::decode_rest;
use crate::white::{append_solid, is_line_end, solid_len, trimmed};
use base64::DecodeAllocError;
use memchr::memchr;
use std::alloc::{Allocator, Global};

/// A block: its label, and the bytes that its base64 text stands for. Its memory is used again for the next block.
#[derive(Drop)]
pub struct Block<A: Allocator = Global> {
    label: Vec<u8, A>,
    // The text that isn't decoded yet. A full line is decoded as it comes, unless other lines stand here already, whose
    // groups may go on in it.
    text: Vec<u8, A>,
    bytes: Vec<u8, A>,
    is_open: bool,
    begun: u64,
    limit: usize,
    ghost octets: { IsBytes bytes.items },
    ghost groups: { is_open ≡ true → length bytes.items % 3 ≡ 0 },
    ghost fits: { (length bytes.items + 2) / 3 * 4 + length text.items ≤ limit },
}

impl<A: Allocator + Copy> Block<A> {
    ghost use Rattle.x509_pem.specs.Block.{state_of, limit_of};

    /// No block. A text of more than `limit` symbols is too long.
    pub(crate) fn new(alloc: A, limit: usize) -> Block<A>
        ensures shut { (state_of result).is_open ≡ false }
        ensures limit { limit_of result ≡ limit }
    {
        Block {
            label: Vec::new(alloc),
            text: Vec::new(alloc),
            bytes: Vec::new(alloc),
            is_open: false,
            begun: 0,
            limit,
        }
    }
}

impl<A: Allocator> Block<A> {
    ghost use Rattle.x509_pem.specs.Block.{state_of, limit_of, Opens, Adds, Closes, Decodes, DecodesFront, Goes, GivenUp, AddsNot, ClosesNot, Refuses, TextRefused};

    /// The label, such as `CERTIFICATE`: the bytes between `-----BEGIN ` and `-----`, whatever they are.
    pub fn label(&self) -> &[u8]
        ensures { result.now ≡ (state_of self.now).label }
    {
        self.label.as_slice()
    }

    /// The bytes: none before a line has ended the block.
    pub fn bytes(&self) -> &[u8]
        ensures { result.now ≡ (state_of self.now).bytes }
    {
        if self.is_open {
            return b"".as_slice();
        }
        self.bytes.as_slice()
    }

    /// Whether a line has begun a block that no line has ended yet.
    pub(crate) fn is_open(&self) -> bool
        ensures { result ≡ (state_of self.now).is_open }
    {
        self.is_open
    }

    /// The number of the line that began the block, from 1.
    pub(crate) fn begun(&self) -> u64
        ensures { result ≡ (state_of self.now).begun }
    {
        self.begun
    }

    /// Forgets what was read of a block.
    fn forget(&mut self)
        ensures bytes { self.new.bytes.items ≡ [] }
        ensures text { self.new.text.items ≡ [] }
        ensures limit { limit_of self.new ≡ limit_of self.old }
    {
        self.text.clear();
        self.bytes.clear();
    }

    /// Gives up a block whose end never came.
    pub(crate) fn give_up(&mut self)
        ensures given_up { GivenUp (state_of self.new) }
        ensures limit { limit_of self.new ≡ limit_of self.old }
    {
        self.forget();
        self.is_open = false;
    }

    /// Begins a block in the line of a number.
    ///
    /// # Errors
    /// Memory is refused; no block is open then.
    fn begin(&mut self, label: &[u8], number: u64) -> Result<(), Fault>
        ensures opens { MatchResult result (λ _. Opens label.now number (state_of self.new))
            (λ fault. (fault ≡ Fault.OutOfMemory) × GivenUp (state_of self.new)) }
        ensures limit { limit_of self.new ≡ limit_of self.old }
    {
        self.forget();
        self.is_open = false;
        self.label.clear();
        if self.label.extend_from_slice(label).is_err() {
            return Err(Fault::OutOfMemory);
        }
        self.is_open = true;
        self.begun = number;
        Ok(())
    }

    /// How many symbols may still come.
    fn room(&self) -> usize
        ensures { result + length ((state_of self.now).text) ≡ limit_of self.now }
    {
        self.limit - (self.bytes.len().div_ceil(3) * 4 + self.text.len())
    }

    /// Takes a full line of symbols and decodes it, and answers whether it did: where it didn't, the block is as it was.
    pub(crate) fn add_full(&mut self, line: &[u8; 64]) -> bool
        ensures decodes { Decodes result line.now (state_of self.old) (state_of self.new) }
        ensures limit { limit_of self.new ≡ limit_of self.old }
    {
        if !self.is_open || !self.text.is_empty() || self.room() < 64 {
            return false;
        }
        match decode_line(line) {
            Some(bytes) => self.bytes.extend_from_slice(bytes.as_slice()).is_ok(),
            None => false,
        }
    }

    /// As `add_full`, where the bytes begin with a line of 64 symbols and its end.
    pub(crate) fn add_front(&mut self, bytes: &[u8]) -> bool
        ensures decodes { DecodesFront result bytes.now (state_of self.old) (state_of self.new) }
        ensures limit { limit_of self.new ≡ limit_of self.old }
    {
        if bytes.len() <= 64 || !is_line_end(bytes[64]) {
            return false;
        }
        match bytes.first_chunk::<64>() {
            Some(line) => self.add_full(line),
            None => false,
        }
    }

    /// As `add_full`, where the line has 64 symbols.
    fn add_if_full(&mut self, line: &[u8]) -> bool
        ensures decodes { Decodes result line.now (state_of self.old) (state_of self.new) }
        ensures limit { limit_of self.new ≡ limit_of self.old }
    {
        match line.as_array::<64>() {
            Some(line) => self.add_full(line),
            None => false,
        }
    }

    /// Takes a line of base64 text, without its white space.
    ///
    /// # Errors
    /// `TooLong`, where the text would be longer than the limit; else memory is refused. The block is given up.
    fn add(&mut self, line: &[u8]) -> Result<(), Fault>
        ensures adds { MatchResult result (λ _. Adds (solid line.now) (state_of self.old) (state_of self.new))
            (λ fault. AddsNot (limit_of self.old) fault (solid line.now) (state_of self.old) × GivenUp (state_of self.new)) }
        ensures limit { limit_of self.new ≡ limit_of self.old }
    {
        if solid_len(line) > self.room() {
            self.give_up();
            return Err(Fault::TooLong);
        }
        if append_solid(&mut self.text, line).is_err() {
            self.give_up();
            return Err(Fault::OutOfMemory);
        }
        Ok(())
    }

    /// Whether the text can stand behind the bytes: behind a group that isn't whole, as padding makes it, nothing can.
    fn is_decodable(&self) -> bool
        ensures { result ≡ true → (length self.now.bytes.items % 3 ≡ 0) ⊎ (self.now.text.items ≡ []) }
    {
        self.bytes.len() % 3 == 0 || self.text.is_empty()
    }

    /// Ends the block, and decodes what is left of its text. No block is open in any case.
    ///
    /// # Errors
    /// `LabelMismatch`, where the label is another; else the text is invalid base64, or memory is refused.
    fn close(&mut self, label: &[u8]) -> Result<(), Fault>
        ensures closes { MatchResult result (λ _. ((state_of self.old).label ≡ label.now) × Closes (state_of self.old) (state_of self.new))
            (λ fault. ClosesNot fault label.now (state_of self.old) × GivenUp (state_of self.new)) }
        ensures limit { limit_of self.new ≡ limit_of self.old }
    {
        self.is_open = false;
        if self.label.as_slice() != label {
            self.give_up();
            return Err(Fault::LabelMismatch);
        }
        if !self.is_decodable() {
            self.give_up();
            return Err(Fault::BadBase64);
        }
        match decode_rest(self.text.as_slice(), &mut self.bytes) {
            Ok(()) => {
                self.text.clear();
                Ok(())
            }
            Err(error) => {
                self.give_up();
                Err(match error {
                    DecodeAllocError::OutOfMemory => Fault::OutOfMemory,
                    DecodeAllocError::DecodeError(_) => Fault::BadBase64,
                })
            }
        }
    }

    /// Takes a line inside of a block that is no boundary.
    ///
    /// # Errors
    /// `HasHeaders`, where the line has a colon, and else those of `add`.
    fn take_text(&mut self, line: &[u8]) -> Result<bool, Fault>
        requires { (state_of self.old).is_open ≡ true }
        ensures adds { MatchResult result (λ ends. (ends ≡ false) × Adds (solid line.now) (state_of self.old) (state_of self.new))
            (λ fault. TextRefused (limit_of self.old) fault line.now (state_of self.old) × GivenUp (state_of self.new)) }
        ensures limit { limit_of self.new ≡ limit_of self.old }
    {
        if memchr(b':', line).is_some() {
            self.give_up();
            return Err(Fault::HasHeaders);
        }
        match self.add(line) {
            Ok(()) => Ok(false),
            Err(fault) => Err(fault),
        }
    }

    /// Takes a line inside of a block, the one of a number.
    ///
    /// # Errors
    /// Those of `begin`, `add` and `close`; `NoEnd`, where another block begins, which is open then; `HasHeaders`, where
    /// the line has a colon, and no block is open then.
    fn take_inner(&mut self, line: &[u8], number: u64) -> Result<bool, Fault>
        requires { (state_of self.old).is_open ≡ true }
        ensures goes { MatchResult result (λ ends. Goes ends number line.now (state_of self.old) (state_of self.new))
            (λ fault. Refuses (limit_of self.old) number fault line.now (state_of self.old) (state_of self.new)) }
        ensures limit { limit_of self.new ≡ limit_of self.old }
    {
        match kind_of(line) {
            Kind::End(label) => match self.close(label) {
                Ok(()) => Ok(true),
                Err(fault) => Err(fault),
            },
            Kind::Begin(label) => match self.begin(label, number) {
                Ok(()) => Err(Fault::NoEnd),
                Err(fault) => Err(fault),
            },
            Kind::Text => self.take_text(line),
        }
    }

    /// Takes a line inside of a block, most of which are full lines of symbols.
    ///
    /// # Errors
    /// Those of `take_inner`.
    fn take_open(&mut self, line: &[u8], number: u64) -> Result<bool, Fault>
        requires { (state_of self.old).is_open ≡ true }
        ensures goes { MatchResult result (λ ends. Goes ends number line.now (state_of self.old) (state_of self.new))
            (λ fault. Refuses (limit_of self.old) number fault line.now (state_of self.old) (state_of self.new)) }
        ensures limit { limit_of self.new ≡ limit_of self.old }
    {
        if self.add_if_full(line) {
            return Ok(false);
        }
        self.take_inner(line, number)
    }

    /// Takes a line outside of blocks, the one of a number.
    ///
    /// # Errors
    /// That of `begin`.
    fn take_outer(&mut self, line: &[u8], number: u64) -> Result<bool, Fault>
        requires { (state_of self.old).is_open ≡ false }
        ensures goes { MatchResult result (λ ends. Goes ends number line.now (state_of self.old) (state_of self.new))
            (λ fault. Refuses (limit_of self.old) number fault line.now (state_of self.old) (state_of self.new)) }
        ensures limit { limit_of self.new ≡ limit_of self.old }
    {
        match kind_of(line) {
            Kind::Begin(label) => match self.begin(label, number) {
                Ok(()) => Ok(false),
                Err(fault) => Err(fault),
            },
            Kind::End(_) => Ok(false),
            Kind::Text => Ok(false),
        }
    }

    /// Takes the line of a number, and answers whether it ends a block.
    ///
    /// # Errors
    /// Those of `take_inner` and `take_outer`.
    pub(crate) fn take_line(&mut self, line: &[u8], number: u64) -> Result<bool, Fault>
        ensures goes { Trimmed line.now (λ r. MatchResult result (λ ends. Goes ends number r (state_of self.old) (state_of self.new))
            (λ fault. Refuses (limit_of self.old) number fault r (state_of self.old) (state_of self.new))) }
        ensures limit { limit_of self.new ≡ limit_of self.old }
    {
        let line = trimmed(line);
        if self.is_open {
            self.take_open(line, number)
        } else {
            self.take_outer(line, number)
        }
    }
}
