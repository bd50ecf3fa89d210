//! PEM in memory: where the next block of a text stands, and what base64 text stands for.

ghost use Rattle.std.specs.Prelude.{◌≡◌, ◌≤◌, length};
ghost use Rattle.cimaroly_c.specs.Pem.{BlockTold, DecodesTo, fault_number, flat_block, no_block};

use x509_flat::status::Status;
use x509_pem::{Cursor, Fault, Span, TextBlock, decode_in, next_in, room_for};

/// A block of a text.
#[repr(C)]
#[derive(Clone, Copy, Debug, PartialEq, Eq)]
pub struct FlatBlock {
    /// The label.
    pub label: Span,
    /// The lines between the boundaries.
    pub symbols: Span,
    /// How many bytes a buffer must have room for, so that these lines are decoded.
    pub room: usize,
    /// The number of the line that begins the block.
    pub first_line: u64,
    /// The number of the line that ends it, or that of the fault.
    pub last_line: u64,
    /// Where the next block is looked for.
    pub next: usize,
    /// The number of the line before that.
    pub next_line: u64,
}

impl FlatBlock {
    /// No block.
    fn none() -> FlatBlock
        ensures { result ≡ no_block }
    {
        let nowhere = Span { start: 0, end: 0 };
        FlatBlock {
            label: nowhere,
            symbols: nowhere,
            room: 0,
            first_line: 0,
            last_line: 0,
            next: 0,
            next_line: 0,
        }
    }

    /// The same block.
    fn of(text: &[u8], block: TextBlock) -> FlatBlock
        requires low { block.symbols.start ≤ block.symbols.end }
        requires high { block.symbols.end ≤ length text.now }
        ensures { result ≡ flat_block text.now block }
    {
        FlatBlock {
            label: block.label,
            symbols: block.symbols,
            room: room_for(&text[block.symbols.start..block.symbols.end]),
            first_line: block.first_line,
            last_line: block.last_line,
            next: block.next.at,
            next_line: block.next.line,
        }
    }
}

/// The number of a block's fault, 0 where it has none. A block that is found in a text has no other faults than these.
fn number_of(fault: Option<Fault>) -> u32
    ensures { result ≡ fault_number fault }
{
    match fault {
        None => 0,
        Some(Fault::LabelMismatch) => 2,
        Some(Fault::NoEnd) => 3,
        Some(Fault::HasHeaders) => 4,
        Some(Fault::BadBase64) => 5,
        Some(Fault::TooLong) => 5,
        Some(Fault::OutOfMemory) => 5,
    }
}

/// Where the next PEM block of a text stands, from byte `at` on, before which stand `line` lines.
#[unsafe(no_mangle)]
pub extern "C" fn cimaroly_pem_next(text: &[u8], at: usize, line: u64, block: &mut FlatBlock) -> u32
    ensures { BlockTold text.now at line result block.new }
{
    match next_in(text, Cursor::behind(text, at, line)) {
        Some(found) => {
            *block = FlatBlock::of(text, found);
            number_of(found.fault)
        }
        None => {
            *block = FlatBlock::none();
            1
        }
    }
}

/// Decodes base64 text, white space among its symbols, to the front of a buffer.
#[unsafe(no_mangle)]
pub extern "C" fn cimaroly_pem_decode(text: &[u8], out: &mut [u8], size: &mut usize) -> u32
    ensures { DecodesTo text.now out.old out.new result size.new }
{
    *size = room_for(text);
    if out.len() < *size {
        return Status::TooShort.number();
    }
    match decode_in(text, out) {
        Some(len) => {
            *size = len;
            Status::Done.number()
        }
        None => {
            *size = 0;
            Status::Refused.number()
        }
    }
}
