//! What can be wrong with a text.

use std::io;
use thiserror::Error;

/// What is wrong with a block.
#[derive(Clone, Copy, Debug, PartialEq, Eq, Error)]
pub enum Fault {
    /// The label of the line that ends the block isn't that of the line that begins it.
    #[error("the END line has another label than the BEGIN line")]
    LabelMismatch,
    /// The text isn't base64 with its padding (RFC 4648, 4).
    #[error("invalid base64")]
    BadBase64,
    /// Another block begins, or the input ends, before the block does.
    #[error("the block has no END line")]
    NoEnd,
    /// The block has headers, as keys have that are encrypted by a password (RFC 1421, 4.6).
    #[error("the block has headers, as encrypted keys do")]
    HasHeaders,
    /// A line, or the text of a block, is longer than the reader takes.
    #[error("the line or the block is too long")]
    TooLong,
    /// A request for memory was refused.
    #[error("out of memory")]
    OutOfMemory,
}

/// Why no block was read.
#[derive(Debug, Drop, Error)]
pub enum PemError {
    /// A fault, and the line where it was met. Reading can go on behind it.
    #[error("line {line}: {fault}")]
    Fault {
        /// What is wrong.
        fault: Fault,
        /// The number of the line, from 1.
        line: u64,
    },
    /// The input couldn't be read.
    #[error("{0}")]
    Input(io::Error),
}
