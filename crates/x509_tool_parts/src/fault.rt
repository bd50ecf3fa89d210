//! Why the program gives no output.

ghost use Rattle.std.specs.Prelude.{◌≡◌};
ghost use Rattle.x509_tool_parts.specs.Faults.{status_of, line_of};

use hex::FromHexError;
use picky_asn1_x509::{ReadError, SameEq, WriteError};
use std::alloc::AllocError;
use thiserror::Error;

/// Why a text gives no output.
#[derive(Clone, Copy, Debug, PartialEq, Eq, Error)]
pub enum ToolFault {
    /// The input is no encoding of the type.
    #[error("refused")]
    Refused,
    /// The type is not one that is served, or the input isn't hexadecimal text.
    #[error("usage: x509_tool TYPE")]
    Usage,
    /// A request for memory was refused.
    #[error("out of memory")]
    OutOfMemory,
    /// The DER encoding's length is above the greatest `usize`.
    #[error("too long")]
    TooLong,
}

impl SameEq for ToolFault {
    fn decides() {}
}

impl ToolFault {
    /// The program's exit status.
    pub fn status(self) -> u8
        ensures { result ≡ status_of self }
    {
        match self {
            ToolFault::Refused => 1,
            ToolFault::Usage => 2,
            ToolFault::OutOfMemory => 3,
            ToolFault::TooLong => 4,
        }
    }

    /// The line on standard error.
    pub fn line(self) -> &'static str
        ensures { result.now ≡ line_of self }
    {
        match self {
            ToolFault::Refused => "refused",
            ToolFault::Usage => "usage: x509_tool TYPE",
            ToolFault::OutOfMemory => "out of memory",
            ToolFault::TooLong => "too long",
        }
    }
}

impl From<AllocError> for ToolFault {
    ghost use Rattle.std.specs.Prelude.{◌≡◌};
    ghost use Rattle.x509_tool_parts.specs.declared.fault.ToolFault.TheVariants as variants;

    ghost from_gives = { λ _ fault. fault ≡ variants.OutOfMemory };

    fn from(_refused: AllocError) -> ToolFault {
        ToolFault::OutOfMemory
    }
}

impl From<ReadError> for ToolFault {
    ghost use Rattle.std.specs.Prelude.{◌≡◌};
    ghost use Rattle.x509_tool_parts.specs.Faults.{fault_of_read};

    ghost from_gives = { λ error fault. fault ≡ fault_of_read error };

    fn from(error: ReadError) -> ToolFault {
        match error {
            ReadError::OutOfMemory => ToolFault::OutOfMemory,
            _ => ToolFault::Refused,
        }
    }
}

impl From<WriteError> for ToolFault {
    ghost use Rattle.std.specs.Prelude.{◌≡◌};
    ghost use Rattle.x509_tool_parts.specs.Faults.{fault_of_write};

    ghost from_gives = { λ error fault. fault ≡ fault_of_write error };

    fn from(error: WriteError) -> ToolFault {
        match error {
            WriteError::OutOfMemory => ToolFault::OutOfMemory,
            WriteError::TooLong => ToolFault::TooLong,
        }
    }
}

impl From<FromHexError> for ToolFault {
    ghost use Rattle.std.specs.Prelude.{◌≡◌};
    ghost use Rattle.x509_tool_parts.specs.Faults.{fault_of_hex};

    ghost from_gives = { λ error fault. fault ≡ fault_of_hex error };

    fn from(error: FromHexError) -> ToolFault {
        match error {
            FromHexError::OutOfMemory => ToolFault::OutOfMemory,
            _ => ToolFault::Usage,
        }
    }
}
