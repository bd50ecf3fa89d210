//! What a line of a table tells of a structure.

/// What a column of a table tells of a structure.
#[derive(Clone, Copy, Debug, PartialEq, Eq)]
pub enum Column {
    /// The path of the file.
    File,
    /// The line that begins its PEM block.
    Line,
    /// As what it is read.
    Type,
    /// How many bytes it has.
    Length,
    /// How many deviations it has.
    Deviations,
    /// The name of the subject.
    Subject,
    /// The name of the issuer.
    Issuer,
    /// The serial number, in hexadecimal.
    SerialNumber,
    /// From when on it is valid.
    NotBefore,
    /// Until when it is valid.
    NotAfter,
    /// The alternative names of the subject.
    Names,
    /// The algorithm of the public key, and its size.
    Key,
    /// By which algorithm it is signed.
    SignatureAlgorithm,
    /// The SHA-256 of its bytes.
    Sha256,
    /// The SHA-1 of its bytes.
    Sha1,
    /// The pin of the public key.
    Pin,
}

impl Column {
    /// All columns.
    pub const ALL: [Column; 16] = [
        Column::File,
        Column::Line,
        Column::Type,
        Column::Length,
        Column::Deviations,
        Column::Subject,
        Column::Issuer,
        Column::SerialNumber,
        Column::NotBefore,
        Column::NotAfter,
        Column::Names,
        Column::Key,
        Column::SignatureAlgorithm,
        Column::Sha256,
        Column::Sha1,
        Column::Pin,
    ];

    /// The name.
    pub fn name(self) -> &'static str {
        match self {
            Column::File => "file",
            Column::Line => "line",
            Column::Type => "type",
            Column::Length => "length",
            Column::Deviations => "deviations",
            Column::Subject => "subject",
            Column::Issuer => "issuer",
            Column::SerialNumber => "serialNumber",
            Column::NotBefore => "notBefore",
            Column::NotAfter => "notAfter",
            Column::Names => "names",
            Column::Key => "key",
            Column::SignatureAlgorithm => "signatureAlgorithm",
            Column::Sha256 => "sha256",
            Column::Sha1 => "sha1",
            Column::Pin => "pin",
        }
    }

    /// The column of a name, if it is one of theirs.
    pub fn from_name(name: &str) -> Option<Column> {
        for column in &Column::ALL {
            if column.name() == name {
                return Some(*column);
            }
        }
        None
    }
}
