//! The types of ASN.1 that a value can have where its field doesn't say which.

/// The type of a string of characters (X.680, 41) whose text is told in UTF-8.
#[derive(Clone, Copy, Debug, PartialEq, Eq)]
pub enum StringType {
    /// UTF8String.
    Utf8,
    /// NumericString.
    Numeric,
    /// PrintableString.
    Printable,
    /// IA5String.
    Ia5,
    /// VisibleString.
    Visible,
}

impl StringType {
    /// The type that a universal tag says, if it is one of these (X.680, 8.4).
    pub fn from_tag(tag: u8) -> Option<Self> {
        match tag {
            0x0c => Some(StringType::Utf8),
            0x12 => Some(StringType::Numeric),
            0x13 => Some(StringType::Printable),
            0x16 => Some(StringType::Ia5),
            0x1a => Some(StringType::Visible),
            _ => None,
        }
    }

    /// Its universal tag.
    pub fn tag(self) -> u8 {
        match self {
            StringType::Utf8 => 0x0c,
            StringType::Numeric => 0x12,
            StringType::Printable => 0x13,
            StringType::Ia5 => 0x16,
            StringType::Visible => 0x1a,
        }
    }

    /// Its name in ASN.1.
    pub fn name(self) -> &'static str {
        match self {
            StringType::Utf8 => "UTF8String",
            StringType::Numeric => "NumericString",
            StringType::Printable => "PrintableString",
            StringType::Ia5 => "IA5String",
            StringType::Visible => "VisibleString",
        }
    }

    /// Whether a string of the type may have this byte of UTF-8 in it.
    fn has(self, byte: u8) -> bool {
        match self {
            StringType::Utf8 => true,
            StringType::Numeric => matches!(byte, b' ' | b'0'..=b'9'),
            StringType::Printable => {
                byte.is_ascii_alphanumeric()
                    || matches!(byte, b' ' | b'\'' | b'('..=b')' | b'+'..=b'/' | b':' | b'=' | b'?')
            }
            StringType::Ia5 => byte < 128,
            StringType::Visible => matches!(byte, b' '..=b'~'),
        }
    }

    /// Whether the type has all characters of a text.
    pub fn allows(self, text: &str) -> bool {
        text.as_bytes().iter().all(|byte| self.has(*byte))
    }
}

/// The type of a string whose characters are chosen by escape sequences (X.690, 8.23.5; ISO/IEC 2022). These aren't
/// followed: each byte is taken for a character of ISO 8859-1, as nearly all that write such strings mean it.
#[derive(Clone, Copy, Debug, PartialEq, Eq)]
pub enum ByteStringType {
    /// TeletexString, also called T61String.
    Teletex,
    /// VideotexString.
    Videotex,
    /// GraphicString.
    Graphic,
    /// GeneralString.
    General,
}

impl ByteStringType {
    /// The type that a universal tag says, if it is one of these (X.680, 8.4).
    pub fn from_tag(tag: u8) -> Option<Self> {
        match tag {
            0x14 => Some(ByteStringType::Teletex),
            0x15 => Some(ByteStringType::Videotex),
            0x19 => Some(ByteStringType::Graphic),
            0x1b => Some(ByteStringType::General),
            _ => None,
        }
    }

    /// Its name in ASN.1.
    pub fn name(self) -> &'static str {
        match self {
            ByteStringType::Teletex => "TeletexString",
            ByteStringType::Videotex => "VideotexString",
            ByteStringType::Graphic => "GraphicString",
            ByteStringType::General => "GeneralString",
        }
    }
}
