//! Why a read or a write is refused.

ghost use Rattle.std.specs.Prelude.{◌≡◌, Some};
ghost use Rattle.x509_der_parts.specs.ReadErrors.{error_name, error_number};

use std::alloc::{AllocError, AllocFailed};
use std::fmt;
use thiserror::Error;

/// Why a read is refused. A refused read gives no value.
///
/// Where several faults stand in one input, or two names fit one fault, which of them is answered is left open.
/// Only `OutOfMemory` is told apart: it comes where a request for memory was refused, and says nothing of the input.
/// Numbers and names stay as they are.
#[derive(Clone, Copy, Debug, PartialEq, Eq)]
pub enum ReadError {
    /// A request for memory was refused.
    OutOfMemory,
    /// The input ends before the element does.
    Truncated,
    /// Bytes are left over behind the value.
    LeftOver,
    /// Another tag was asked for, or the tag is of several bytes.
    WrongTag,
    /// The length digits are missing, indefinite or not the shortest.
    BadLength,
    /// The content of an INTEGER is not minimal, or its number is out of range.
    BadNumber,
    /// The content of a BOOLEAN is neither 00 nor FF.
    BadBoolean,
    /// The count of unused bits of a BIT STRING is above 7, or not 0 where there are no bytes, or an unused bit is set.
    BadBits,
    /// The content of an OBJECT IDENTIFIER is no list of numbers of at most 64 bits.
    BadOid,
    /// A string holds a character that its type does not allow.
    BadText,
    /// A time is not in its DER form, or its day does not exist.
    BadTime,
    /// A version number is not one that the structure has.
    BadVersion,
    /// An object identifier or a choice is not one that is understood.
    Unsupported,
    /// A unique identifier stands in a certificate of version 1.
    UniqueIdNeedsV2,
    /// Extensions stand in a certificate that is not of version 3.
    ExtensionsNeedV3,
}

impl ReadError {
    /// The error's number, from 1 to 15.
    pub fn number(self) -> usize
        ensures { result ≡ error_number self }
    {
        match self {
            ReadError::OutOfMemory => 1,
            ReadError::Truncated => 2,
            ReadError::LeftOver => 3,
            ReadError::WrongTag => 4,
            ReadError::BadLength => 5,
            ReadError::BadNumber => 6,
            ReadError::BadBoolean => 7,
            ReadError::BadBits => 8,
            ReadError::BadOid => 9,
            ReadError::BadText => 10,
            ReadError::BadTime => 11,
            ReadError::BadVersion => 12,
            ReadError::Unsupported => 13,
            ReadError::UniqueIdNeedsV2 => 14,
            ReadError::ExtensionsNeedV3 => 15,
        }
    }

    /// The error's name in plain words, which it prints as.
    pub fn name(self) -> &'static str
        ensures { result.now ≡ error_name self }
    {
        match self {
            ReadError::OutOfMemory => "out of memory",
            ReadError::Truncated => "truncated element",
            ReadError::LeftOver => "bytes left over",
            ReadError::WrongTag => "wrong tag",
            ReadError::BadLength => "malformed length",
            ReadError::BadNumber => "malformed number",
            ReadError::BadBoolean => "malformed boolean",
            ReadError::BadBits => "malformed bit string",
            ReadError::BadOid => "malformed object identifier",
            ReadError::BadText => "character not allowed",
            ReadError::BadTime => "malformed time",
            ReadError::BadVersion => "unknown version",
            ReadError::Unsupported => "unsupported algorithm or choice",
            ReadError::UniqueIdNeedsV2 => "unique identifier without version 2",
            ReadError::ExtensionsNeedV3 => "extensions without version 3",
        }
    }
}

impl fmt::Display for ReadError {
    ghost output = { λ error. Some (error_name error) };

    fn fmt<W: fmt::Write>(&self, f: &mut fmt::Formatter<W>) -> fmt::Result {
        f.write_str(self.name())
    }
}

impl std::error::Error for ReadError {}

/// Why a read is refused, and where: it prints as `wrong tag at byte 1043`.
#[derive(Clone, Copy, Debug, PartialEq, Eq, Error)]
#[error("{error} at byte {at}")]
pub struct Refused {
    /// Why.
    pub error: ReadError,
    /// How many bytes of the input stand before what could not be read: an element, a byte of a content, or bytes that
    /// are left over. It is the first byte of a structure whose fields don't go together, such as extensions without
    /// version 3; and where memory was refused, any place that the read had got to.
    pub at: usize,
}

/// Why a write is refused. A refused write gives no bytes.
#[derive(Clone, Copy, Debug, PartialEq, Eq, Error)]
pub enum WriteError {
    /// The one request for memory was refused.
    #[error("out of memory")]
    OutOfMemory,
    /// The encoding's length is above the greatest `usize`.
    #[error("the encoding is too long")]
    TooLong,
}

/// Why a write into a slice is refused. The slice is as it was.
#[derive(Clone, Copy, Debug, PartialEq, Eq, Error)]
pub enum SliceError {
    /// The slice is shorter than the encoding.
    #[error("the slice is too short")]
    TooShort,
    /// The encoding's length is above the greatest `usize`.
    #[error("the encoding is too long")]
    TooLong,
}

/// An encoding's length is above the greatest `usize`.
#[derive(Clone, Copy, Debug, PartialEq, Eq, Error)]
#[error("the encoding is too long")]
pub struct TooLong;

impl From<AllocError> for ReadError {
    ghost use Rattle.std.specs.Prelude.{◌≡◌};
    ghost use Rattle.x509_der_parts.specs.declared.errors.ReadError.TheVariants.{OutOfMemory};

    ghost from_gives = { λ _ e. e ≡ OutOfMemory };

    fn from(_refused: AllocError) -> ReadError {
        ReadError::OutOfMemory
    }
}

impl<T: Drop> From<AllocFailed<T>> for ReadError {
    ghost use Rattle.std.specs.Prelude.{◌≡◌};
    ghost use Rattle.x509_der_parts.specs.declared.errors.ReadError.TheVariants.{OutOfMemory};

    ghost from_gives = { λ _ e. e ≡ OutOfMemory };

    fn from(_refused: AllocFailed<T>) -> ReadError {
        ReadError::OutOfMemory
    }
}

impl From<AllocError> for WriteError {
    ghost use Rattle.std.specs.Prelude.{◌≡◌};
    ghost use Rattle.x509_der_parts.specs.declared.errors.WriteError.TheVariants.{OutOfMemory};

    ghost from_gives = { λ _ e. e ≡ OutOfMemory };

    fn from(_refused: AllocError) -> WriteError {
        WriteError::OutOfMemory
    }
}

impl From<TooLong> for WriteError {
    ghost use Rattle.std.specs.Prelude.{◌≡◌};
    ghost use Rattle.x509_der_parts.specs.declared.errors.WriteError.TheVariants as variants;

    ghost from_gives = { λ _ e. e ≡ variants.TooLong };

    fn from(_refused: TooLong) -> WriteError {
        WriteError::TooLong
    }
}

impl From<TooLong> for SliceError {
    ghost use Rattle.std.specs.Prelude.{◌≡◌};
    ghost use Rattle.x509_der_parts.specs.declared.errors.SliceError.TheVariants as variants;

    ghost from_gives = { λ _ e. e ≡ variants.TooLong };

    fn from(_refused: TooLong) -> SliceError {
        SliceError::TooLong
    }
}
