//! What a call answers.

ghost use Rattle.std.specs.Prelude.{◌≡◌};
ghost use Rattle.x509_flat.specs.Numbers.{status_number};
ghost use Rattle.x509_flat.specs.Statuses.{IsStatusOf};

use picky_asn1_x509::ReadError;

/// What a call answers.
#[derive(Clone, Copy, Debug, PartialEq, Eq)]
pub enum Status {
    /// The bytes encode a value, and all is done.
    Done,
    /// They encode none.
    Refused,
    /// The memory was too little.
    OutOfMemory,
    /// The buffer was too short. It is as it was, and what is needed is told.
    TooShort,
    /// The number is that of no type, or of none that the call is for.
    UnknownKind,
    /// What is to be written is longer than a `usize` can say.
    TooLong,
}

impl Status {
    /// The number, from 0 to 5.
    pub fn number(self) -> u32
        ensures { result ≡ status_number self }
    {
        match self {
            Status::Done => 0,
            Status::Refused => 1,
            Status::OutOfMemory => 2,
            Status::TooShort => 3,
            Status::UnknownKind => 4,
            Status::TooLong => 5,
        }
    }
}

/// A status and a size, or a count.
#[derive(Clone, Copy, Debug, PartialEq, Eq)]
pub struct Sized {
    /// The status.
    pub status: Status,
    /// How many bytes or items there are; 0 where that isn't known.
    pub size: usize,
}

impl Sized {
    /// What a buffer was too short for.
    pub(crate) fn too_short(size: usize) -> Sized
        ensures status { result.status ≡ Status.TooShort }
        ensures size { result.size ≡ size }
    {
        Sized {
            status: Status::TooShort,
            size,
        }
    }
}

/// A status, and the fields that are told with it.
#[derive(Clone, Copy, Debug, PartialEq, Eq)]
pub struct Answer<F> {
    /// The status.
    pub status: Status,
    /// The fields: all zeros where there are none.
    pub fields: F,
}

impl<F> Answer<F> {
    /// These fields.
    pub(crate) fn done(fields: F) -> Answer<F>
        ensures status { result.status ≡ Status.Done }
        ensures fields { result.fields ≡ fields }
    {
        Answer {
            status: Status::Done,
            fields,
        }
    }

    /// No fields, for an error.
    pub(crate) fn refused(error: ReadError, none: F) -> Answer<F>
        ensures status { IsStatusOf error result.status }
        ensures fields { result.fields ≡ none }
    {
        Answer {
            status: status_of(error),
            fields: none,
        }
    }
}

/// The status of a read that gave no value.
pub fn status_of(error: ReadError) -> Status
    ensures { IsStatusOf error result }
{
    match error {
        ReadError::OutOfMemory => Status::OutOfMemory,
        _ => Status::Refused,
    }
}

/// A status without a size.
pub fn unsized_of(error: ReadError) -> Sized
    ensures status { IsStatusOf error result.status }
    ensures size { result.size ≡ 0 }
{
    Sized {
        status: status_of(error),
        size: 0,
    }
}
