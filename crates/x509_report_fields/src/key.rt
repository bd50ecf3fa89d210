//! Public keys.

use crate::algorithm::algorithm;
use picky_asn1_x509::{
    AlgorithmIdentifier, AlgorithmIdentifierParameters, BitString, EcParameters, IntegerAsn1,
    PublicKey, RsaPublicKey, SubjectPublicKeyInfo,
};
use std::alloc::Allocator;
use std::fmt::{self, Display, Write};
use x509_report_parts::text_sink::Named;
use x509_report_parts::values::Count;
use x509_report_parts::{Element, Identifiers, Label, Shape, Sink, Value};

/// A count, and the greatest that is told for a larger one.
fn count_of(count: u128) -> u64 {
    u64::try_from(count).unwrap_or(u64::MAX)
}

/// The value of a string of bits.
pub fn bits<A: Allocator>(bits: &BitString<A>) -> Value<'_> {
    Value::Bits(count_of(bits.get_num_bits()), bits.payload_view())
}

/// How many bits digits in base 256 have, from the highest that is 1.
fn bits_of(digits: &[u8]) -> u64 {
    match digits {
        [first, rest @ ..] => {
            let rest = rest.len() as u128 * 8;
            count_of(rest + u128::from(8 - first.leading_zeros().min(8)))
        }
        [] => 0,
    }
}

/// The content of a number below 0 without the bytes at its front that only carry the sign.
fn unsigned_front(content: &[u8]) -> &[u8] {
    let front = content.iter().take_while(|byte| **byte == 0xff).count();
    content.get(front..).unwrap_or(&[])
}

/// How many bits the absolute value of a number below 0 has, by its content in two's complement.
fn negative_bits(content: &[u8]) -> u64 {
    let [first, rest @ ..] = unsigned_front(content) else {
        // -1, whose content is 0xff
        return 1;
    };
    let inverted = !*first;
    let bits = count_of(rest.len() as u128 * 8 + u128::from(8 - inverted.leading_zeros().min(8)));
    let is_power = inverted & inverted.wrapping_add(1) == 0 && rest.iter().all(|byte| *byte == 0);
    bits.saturating_add(u64::from(is_power))
}

/// How many bits the absolute value of a number has.
fn size<A: Allocator>(number: &IntegerAsn1<A>) -> u64 {
    if number.is_negative() {
        return negative_bits(number.as_bytes());
    }
    bits_of(number.as_unsigned_bytes_be())
}

/// The value of a number of a key.
pub fn sized<A: Allocator>(number: &IntegerAsn1<A>) -> Value<'_> {
    Value::Sized(size(number), number.as_bytes())
}

/// Tells the fields of an RSA public key.
pub fn rsa<A: Allocator, S: Sink>(
    sink: &mut S,
    field: &'static str,
    at: Element<'_>,
    value: &RsaPublicKey<A>,
) -> Result<(), S::Error> {
    let mut fields = at.inside;
    sink.begin(Label::Field(field), at.span, Shape::Fields)?;
    let modulus = sized(&value.modulus);
    sink.field(Label::Field("modulus"), fields.next().span, modulus)?;
    let exponent = sized(&value.public_exponent);
    sink.field(Label::Field("publicExponent"), fields.next().span, exponent)?;
    sink.end()
}

/// Tells a key in its BIT STRING.
fn key<A: Allocator, S: Sink>(
    sink: &mut S,
    at: Element<'_>,
    value: &PublicKey<A>,
) -> Result<(), S::Error> {
    match value {
        PublicKey::Rsa(key) => {
            let mut content = at.inside.behind(1);
            let inside = content.next().inside;
            let at = Element { inside, ..at };
            rsa(sink, "subjectPublicKey", at, &key.0)
        }
        PublicKey::Ec(point) | PublicKey::Ed(point) => {
            sink.field(Label::Field("subjectPublicKey"), at.span, bits(&point.0))
        }
        PublicKey::Mldsa(key) => sink.field(
            Label::Field("subjectPublicKey"),
            at.span,
            bits(&key.0),
        ),
    }
}

/// Tells a public key with its algorithm.
pub fn public_key<A: Allocator, S: Sink>(
    sink: &mut S,
    field: &'static str,
    at: Element<'_>,
    value: &SubjectPublicKeyInfo<A>,
) -> Result<(), S::Error> {
    let mut fields = at.inside;
    sink.begin(Label::Field(field), at.span, Shape::Fields)?;
    algorithm(sink, "algorithm", fields.next(), &value.algorithm)?;
    key(sink, fields.next(), &value.subject_public_key)?;
    sink.end()
}

/// How large a key is.
#[derive(Clone, Copy, Debug, PartialEq, Eq)]
pub enum KeySize {
    /// It isn't known.
    Unknown,
    /// So many bits.
    Bits(u64),
    /// So many bits, where the keys of the algorithm have others.
    Other {
        own: u64,
        usual: u64,
    },
    /// So many bits by the curve, with a point or a private key of so many, which is none of that curve.
    Odd {
        bits: u64,
        part: &'static str,
        own: u64,
    },
    /// The modulus isn't positive.
    NoModulus,
}

/// What is said of a key on one line: its algorithm, its size, its curve.
#[derive(Clone, Copy, Drop)]
pub struct KeyLine<'a> {
    /// The object identifier of the algorithm.
    pub algorithm: &'a [u8],
    /// The object identifier of the curve, where the parameters name one.
    pub curve: Option<&'a [u8]>,
    /// The size.
    pub size: KeySize,
}

/// How many bytes hold so many bits.
fn bytes_for(bits: u64) -> u64 {
    bits.saturating_add(7) / 8
}

/// Whether so many bits are a point of a curve whose field has elements of so many bits (SEC 1, 2.3.3).
fn is_point(field: u64, own: u64, bytes: &[u8]) -> bool {
    let coordinate = bytes_for(field).saturating_mul(8);
    match bytes.first() {
        Some(2 | 3) => own == coordinate.saturating_add(8),
        Some(4 | 6 | 7) => own == coordinate.saturating_mul(2).saturating_add(8),
        _ => false,
    }
}

/// How many bytes a private key on a curve has whose field has elements of so many bits (RFC 5915, 3): those of the
/// order, which on sect233k1 and sect409k1 is shorter.
fn secret_bytes(curve: &[u8], field: u64) -> u64 {
    match curve {
        // 1.3.132.0.26 and 1.3.132.0.36
        [0x2b, 0x81, 0x04, 0x00, 26 | 36] => bytes_for(field).saturating_sub(1),
        _ => bytes_for(field),
    }
}

impl KeyLine<'_> {
    /// The same of a key whose size is that of its modulus.
    pub fn with_modulus<A: Allocator>(self, modulus: &IntegerAsn1<A>) -> Self {
        let size = match size(modulus) {
            0 => KeySize::NoModulus,
            _ if modulus.is_negative() => KeySize::NoModulus,
            bits => KeySize::Bits(bits),
        };
        KeyLine { size, ..self }
    }

    /// The same of a key that is a string of so many bits.
    pub fn with_bits(self, own: u64) -> Self {
        let size = match self.size {
            KeySize::Bits(usual) if usual != own => KeySize::Other { own, usual },
            _ => KeySize::Bits(own),
        };
        KeyLine { size, ..self }
    }

    /// The same of a public key that is a point of the curve.
    pub fn with_point<A: Allocator>(self, point: &BitString<A>) -> Self {
        let own = count_of(point.get_num_bits());
        let size = match self.size {
            KeySize::Bits(bits) if !is_point(bits, own, point.payload_view()) => KeySize::Odd {
                bits,
                part: "point",
                own,
            },
            size => size,
        };
        KeyLine { size, ..self }
    }

    /// The same of a private key on the curve.
    pub fn with_secret(self, secret: &[u8]) -> Self {
        let count = secret.len() as u64;
        let curve = self.curve.unwrap_or(&[]);
        let size = match self.size {
            KeySize::Bits(bits) if count != secret_bytes(curve, bits) => KeySize::Odd {
                bits,
                part: "private key",
                own: octet_bits(secret),
            },
            size => size,
        };
        KeyLine { size, ..self }
    }
}

/// How many bits some bytes have.
pub fn octet_bits(bytes: &[u8]) -> u64 {
    count_of(bytes.len() as u128 * 8)
}

/// The size of keys that have so many bits.
fn known(bits: Option<u64>) -> KeySize {
    match bits {
        Some(bits) => KeySize::Bits(bits),
        None => KeySize::Unknown,
    }
}

/// The size in bits of the keys of a curve or an algorithm, where it is known (RFC 5480, 2.1.1.1; RFC 7748, RFC 8032; FIPS
/// 204, table 2).
fn curve_bits(content: &[u8]) -> Option<u64> {
    match content {
        // 1.2.840.10045.3.1.1
        [0x2a, 0x86, 0x48, 0xce, 0x3d, 0x03, 0x01, 0x01] => Some(192),
        // 1.2.840.10045.3.1.7
        [0x2a, 0x86, 0x48, 0xce, 0x3d, 0x03, 0x01, 0x07] => Some(256),
        // under 1.3.132.0
        [0x2b, 0x81, 0x04, 0x00, last] => secg_bits(*last),
        // 1.3.101.110 and 1.3.101.112
        [0x2b, 0x65, 0x6e] | [0x2b, 0x65, 0x70] => Some(256),
        // 1.3.101.111
        [0x2b, 0x65, 0x6f] => Some(448),
        // 1.3.101.113
        [0x2b, 0x65, 0x71] => Some(456),
        // 2.16.840.1.101.3.4.3.17 to 19
        [0x60, 0x86, 0x48, 0x01, 0x65, 0x03, 0x04, 0x03, 0x11] => Some(10496),
        [0x60, 0x86, 0x48, 0x01, 0x65, 0x03, 0x04, 0x03, 0x12] => Some(15616),
        [0x60, 0x86, 0x48, 0x01, 0x65, 0x03, 0x04, 0x03, 0x13] => Some(20736),
        _ => None,
    }
}

/// The same, of the curves under 1.3.132.0.
fn secg_bits(last: u8) -> Option<u64> {
    match last {
        1 | 15 => Some(163),
        26 | 27 => Some(233),
        16 | 17 => Some(283),
        33 => Some(224),
        10 => Some(256),
        34 => Some(384),
        35 => Some(521),
        36 | 37 => Some(409),
        38 | 39 => Some(571),
        _ => None,
    }
}

/// What an algorithm identifier says of its keys.
pub fn line_of<A: Allocator>(value: &AlgorithmIdentifier<A>) -> KeyLine<'_> {
    let algorithm = value.oid().content();
    match value.parameters() {
        AlgorithmIdentifierParameters::Ec(EcParameters::NamedCurve(curve)) => KeyLine {
            algorithm,
            curve: Some(curve.0.content()),
            size: known(curve_bits(curve.0.content())),
        },
        _ => KeyLine {
            algorithm,
            curve: None,
            size: known(curve_bits(algorithm)),
        },
    }
}

/// What is said of an RSA key with a modulus.
pub fn rsa_line<A: Allocator>(modulus: &IntegerAsn1<A>) -> KeyLine<'static> {
    let line = KeyLine {
        // 1.2.840.113549.1.1.1
        algorithm: &[0x2a, 0x86, 0x48, 0x86, 0xf7, 0x0d, 0x01, 0x01, 0x01],
        curve: None,
        size: KeySize::Unknown,
    };
    line.with_modulus(modulus)
}

/// What is said of an elliptic curve key on a curve.
pub fn ec_line(curve: Option<&[u8]>) -> KeyLine<'_> {
    KeyLine {
        // 1.2.840.10045.2.1
        algorithm: &[0x2a, 0x86, 0x48, 0xce, 0x3d, 0x02, 0x01],
        curve,
        size: match curve {
            Some(content) => known(curve_bits(content)),
            None => KeySize::Unknown,
        },
    }
}

/// What is said of a public key.
pub fn public_line<A: Allocator>(value: &SubjectPublicKeyInfo<A>) -> KeyLine<'_> {
    let line = line_of(&value.algorithm);
    match &value.subject_public_key {
        PublicKey::Rsa(key) => line.with_modulus(&key.0.modulus),
        PublicKey::Ec(point) => line.with_point(&point.0),
        PublicKey::Ed(key) | PublicKey::Mldsa(key) => {
            line.with_bits(count_of(key.0.get_num_bits()))
        }
    }
}

/// The common name of a key's algorithm, where it is another than its identifier's.
fn common_word(content: &[u8]) -> Option<&'static str> {
    match content {
        // 1.2.840.113549.1.1.1
        [0x2a, 0x86, 0x48, 0x86, 0xf7, 0x0d, 0x01, 0x01, 0x01] => Some("RSA"),
        // 1.2.840.10045.2.1
        [0x2a, 0x86, 0x48, 0xce, 0x3d, 0x02, 0x01] => Some("EC"),
        // 1.3.101.110
        [0x2b, 0x65, 0x6e] => Some("X25519"),
        // 1.3.101.111
        [0x2b, 0x65, 0x6f] => Some("X448"),
        // 1.3.101.112
        [0x2b, 0x65, 0x70] => Some("Ed25519"),
        // 1.3.101.113
        [0x2b, 0x65, 0x71] => Some("Ed448"),
        // 2.16.840.1.101.3.4.3.17
        [0x60, 0x86, 0x48, 0x01, 0x65, 0x03, 0x04, 0x03, 0x11] => Some("ML-DSA-44"),
        // 2.16.840.1.101.3.4.3.18
        [0x60, 0x86, 0x48, 0x01, 0x65, 0x03, 0x04, 0x03, 0x12] => Some("ML-DSA-65"),
        // 2.16.840.1.101.3.4.3.19
        [0x60, 0x86, 0x48, 0x01, 0x65, 0x03, 0x04, 0x03, 0x13] => Some("ML-DSA-87"),
        _ => None,
    }
}

impl Display for KeyLine<'_> {
    fn fmt<W: Write>(&self, f: &mut fmt::Formatter<W>) -> fmt::Result {
        match common_word(self.algorithm) {
            Some(word) => f.write_str(word)?,
            None => write!(f, "{}", Named(self.algorithm, Identifiers::Named))?,
        }
        if let Some(curve) = self.curve {
            write!(f, ", {}", Named(curve, Identifiers::Named))?;
        }
        write!(f, "{}", self.size)
    }
}

impl Display for KeySize {
    fn fmt<W: Write>(&self, f: &mut fmt::Formatter<W>) -> fmt::Result {
        match *self {
            KeySize::Unknown => Ok(()),
            KeySize::Bits(bits) => write!(f, ", {}", Count(bits, "bit")),
            KeySize::Other { own, usual } => write!(
                f,
                ", {} instead of {usual}",
                Count(own, "bit")
            ),
            KeySize::Odd { bits, part, own } => {
                let (bits, own) = (Count(bits, "bit"), Count(own, "bit"));
                write!(f, ", {bits}, with a {part} of {own}")
            }
            KeySize::NoModulus => f.write_str(", with a modulus that isn't positive"),
        }
    }
}
