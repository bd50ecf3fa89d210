//! What a report is written to.

use crate::cursor::Span;
use crate::types::{ByteStringType, StringType};

/// What a node is called.
#[derive(Clone, Copy, Drop)]
pub enum Label<'a> {
    /// By the name of its field, as the standard spells it.
    Field(&'static str),
    /// By an object identifier, as an attribute is: its content.
    Identifier(&'a [u8]),
    /// An extension, by its object identifier.
    Extension {
        /// The content of the object identifier.
        content: &'a [u8],
        /// Whether the extension is critical.
        is_critical: bool,
        /// Its octets, where they are told beside what was read from them, so that it can be made again.
        octets: Option<&'a [u8]>,
    },
}

/// What a node with nodes in it is.
#[derive(Clone, Copy, Debug, PartialEq, Eq)]
pub enum Shape {
    /// Fields, each by its name.
    Fields,
    /// Fields without fields in them, for which a text has one line.
    Line,
    /// Any number of items.
    Items,
    /// One item, which stands for the node in a text.
    Only,
}

/// A second of the calendar, in universal time.
#[derive(Clone, Copy, Debug, PartialEq, Eq)]
pub struct Moment {
    /// The year, the month and the day.
    pub date: (u16, u8, u8),
    /// The hour, the minute and the second.
    pub time: (u8, u8, u8),
}

/// What stands at a field without nodes in it.
#[derive(Clone, Copy, Drop)]
pub enum Value<'a> {
    /// Text of an IA5String.
    Text(&'a str),
    /// Text of a string of this type, where several may stand.
    Typed(StringType, &'a str),
    /// Text of a BMPString in UTF-16, high bytes first.
    Utf16(&'a [u8]),
    /// Text of a string of this type, each byte a character of ISO 8859-1.
    Latin1(ByteStringType, &'a [u8]),
    /// Text of a UniversalString: UTF-32 (UCS-4), high bytes first.
    Utf32(&'a [u8]),
    /// A number, by the word that the standard has for it.
    Word(&'static str),
    /// The same of an ENUMERATED.
    Enumerated(&'static str),
    /// A hash algorithm, by its name.
    Algorithm(&'static str),
    /// Named bits, by the names of those that are set.
    Words(&'a [&'static str]),
    /// Named bits, by the names of those that are set, behind the number of bits and these in bytes.
    Usages(u64, &'a [u8], &'a [&'static str]),
    /// An object identifier: its content.
    Identifier(&'a [u8]),
    /// The object identifier of something that isn't read: its content.
    UnreadIdentifier(&'a [u8]),
    /// A small number.
    Number(u64),
    /// A number in two's complement, high bytes first.
    Integer(&'a [u8]),
    /// A number of a key in two's complement, high bytes first, behind the number of bits of its absolute value.
    Sized(u64, &'a [u8]),
    /// Bytes.
    Octets(&'a [u8]),
    /// Bytes that stand for something that isn't known, told with their number.
    Kept(&'a [u8]),
    /// The same of bytes that don't encode what should stand there.
    Malformed {
        /// The bytes.
        octets: &'a [u8],
        /// Why they don't.
        reason: &'static str,
        /// How many bytes of the input stand before the first that couldn't be read.
        at: usize,
    },
    /// Bytes that aren't ASN.1.
    Opaque(&'a [u8]),
    /// A number that isn't ASN.1.
    Count(u64),
    /// How many bits, and these in bytes.
    Bits(u64, &'a [u8]),
    /// An element that isn't looked into, with its header.
    Raw(&'a [u8]),
    /// Yes or no.
    Flag(bool),
    /// A time, as a GeneralizedTime.
    Time(Moment),
    /// A time, as a UTCTime.
    UtcTime(Moment),
    /// An address of the internet protocol.
    Address(&'a [u8]),
    /// NULL.
    Null,
    /// A secret of so many bytes that isn't told.
    Hidden(u64),
}

/// What a report is written to. Nodes come in the order of the input, and each that begins ends.
pub trait Sink {
    /// Why writing fails.
    type Error: Drop;

    /// A node begins that has nodes in it.
    ///
    /// # Errors
    /// Writing failed.
    fn begin(&mut self, label: Label<'_>, span: Span, shape: Shape) -> Result<(), Self::Error>;

    /// A field without nodes in it.
    ///
    /// # Errors
    /// Writing failed.
    fn field(&mut self, label: Label<'_>, span: Span, value: Value<'_>) -> Result<(), Self::Error>;

    /// A field that isn't encoded, so that it has its default value. It stands nowhere, and only a text for people tells it.
    ///
    /// # Errors
    /// Writing failed.
    fn left_out(&mut self, _label: Label<'_>, _value: Value<'_>) -> Result<(), Self::Error> {
        Ok(())
    }

    /// What was told last, or is told next, was read from octets that the encoding around them keeps as they are, with so
    /// many deviations in them. Only what counts these takes note of it.
    ///
    /// # Errors
    /// Writing failed.
    fn deviating(&mut self, _count: usize) -> Result<(), Self::Error> {
        Ok(())
    }

    /// The node ends that began last and hasn't ended.
    ///
    /// # Errors
    /// Writing failed.
    fn end(&mut self) -> Result<(), Self::Error>;
}
