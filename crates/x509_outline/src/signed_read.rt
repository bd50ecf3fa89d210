//! The bytes of the part that is signed, with a value that was read or alone.

use x509_der::Deviations;

/// What was read, with the bytes that its signature covers.
#[derive(Debug, Drop)]
pub struct SignedRead<'a, T> {
    /// What was read.
    pub value: T,
    /// The bytes of its first element, as they stand in what was read.
    pub signed: &'a [u8],
    /// How many bytes of what was read stand before them: the header of the SEQUENCE.
    pub start: usize,
    /// How many deviations of each kind stand inside those bytes.
    pub inside: Deviations,
    /// How many stand outside of them.
    pub outside: Deviations,
}

/// The bytes that a signature covers.
#[derive(Debug, Drop)]
pub struct SignedPart<'a> {
    /// The bytes of its first element, as they stand in what was checked.
    pub signed: &'a [u8],
    /// How many bytes of what was checked stand before them: the header of the SEQUENCE.
    pub start: usize,
    /// How many deviations of each kind stand inside those bytes.
    pub inside: Deviations,
    /// How many stand outside of them.
    pub outside: Deviations,
}
