//! Private keys.

use crate::places::{field_at, place, whole};
use crate::reported::Reported;
use picky_asn1_x509::{
    BitString, ECPrivateKey, EcParameters, IntegerAsn1, PrivateKeyInfo, PrivateKeyValue,
    RsaPrivateKey,
};
use std::alloc::Allocator;
use std::fmt::{self, Write};
use x509_fields::PrivateKeyInfoFields;
use x509_report_fields::algorithm::algorithm;
use x509_report_fields::column::Column;
use x509_report_fields::key::{KeyLine, bits, line_of, octet_bits, rsa_line, sized};
use x509_report_further::Limited;
use x509_report_parts::{Cursor, Element, Label, Secrets, Shape, Value};

/// A secret number, or how many bytes it has.
fn secret_number<A: Allocator>(number: &IntegerAsn1<A>, secrets: Secrets) -> Value<'_> {
    match secrets {
        Secrets::Shown => sized(number),
        Secrets::Hidden => Value::Hidden(number.as_unsigned_bytes_be().len() as u64),
    }
}

/// Secret bytes, or how many they are.
pub fn secret_octets(bytes: &[u8], secrets: Secrets) -> Value<'_> {
    match secrets {
        Secrets::Shown => Value::Octets(bytes),
        Secrets::Hidden => Value::Hidden(bytes.len() as u64),
    }
}

/// The version of an RSA key: `two-prime` is 0 (RFC 8017, A.1.2).
fn rsa_version<A: Allocator>(version: &IntegerAsn1<A>) -> Value<'_> {
    match version.to_u64() {
        Some(0) => Value::Word("two-prime"),
        Some(number) => Value::Number(number),
        None => Value::Integer(version.as_bytes()),
    }
}

/// Tells the fields of an RSA private key up to the public exponent.
fn rsa_head<A: Allocator, S: Limited>(
    sink: &mut S,
    fields: &mut Cursor<'_>,
    value: &RsaPrivateKey<A>,
) -> Result<(), S::Error> {
    let version = rsa_version(&value.version);
    sink.field(Label::Field("version"), fields.next().span, version)?;
    let modulus = sized(&value.modulus);
    sink.field(Label::Field("modulus"), fields.next().span, modulus)?;
    let exponent = sized(&value.public_exponent);
    sink.field(Label::Field("publicExponent"), fields.next().span, exponent)
}

/// Tells a secret number of an RSA private key.
fn rsa_secret<A: Allocator, S: Limited>(
    sink: &mut S,
    field: &'static str,
    at: Element<'_>,
    number: &IntegerAsn1<A>,
    secrets: Secrets,
) -> Result<(), S::Error> {
    sink.field(Label::Field(field), at.span, secret_number(number, secrets))
}

/// Tells the fields of an RSA private key behind the public exponent.
fn rsa_tail<A: Allocator, S: Limited>(
    sink: &mut S,
    fields: &mut Cursor<'_>,
    value: &RsaPrivateKey<A>,
    secrets: Secrets,
) -> Result<(), S::Error> {
    let exponent = &value.private_exponent;
    rsa_secret(sink, "privateExponent", fields.next(), exponent, secrets)?;
    rsa_secret(sink, "prime1", fields.next(), &value.prime_1, secrets)?;
    rsa_secret(sink, "prime2", fields.next(), &value.prime_2, secrets)?;
    rsa_secret(sink, "exponent1", fields.next(), &value.exponent_1, secrets)?;
    rsa_secret(sink, "exponent2", fields.next(), &value.exponent_2, secrets)?;
    rsa_secret(
        sink,
        "coefficient",
        fields.next(),
        &value.coefficient,
        secrets,
    )
}

/// Tells an RSA private key.
fn rsa<A: Allocator, S: Limited>(
    sink: &mut S,
    field: &'static str,
    at: Element<'_>,
    value: &RsaPrivateKey<A>,
    secrets: Secrets,
) -> Result<(), S::Error> {
    let mut fields = at.inside;
    sink.begin(Label::Field(field), at.span, Shape::Fields)?;
    rsa_head(sink, &mut fields, value)?;
    rsa_tail(sink, &mut fields, value, secrets)?;
    sink.end()
}

/// Tells an elliptic curve private key.
fn ec<A: Allocator, S: Limited>(
    sink: &mut S,
    field: &'static str,
    at: Element<'_>,
    value: &ECPrivateKey<A>,
    secrets: Secrets,
) -> Result<(), S::Error> {
    let mut fields = at.inside;
    sink.begin(Label::Field(field), at.span, Shape::Fields)?;
    let version = Value::Word("ecPrivkeyVer1");
    sink.field(Label::Field("version"), fields.next().span, version)?;
    let secret = secret_octets(value.private_key.0.as_slice(), secrets);
    sink.field(Label::Field("privateKey"), fields.next().span, secret)?;
    if let Some(EcParameters::NamedCurve(curve)) = &value.parameters {
        let curve = Value::Identifier(curve.0.content());
        sink.field(Label::Field("parameters"), fields.next().span, curve)?;
    }
    if let Some(point) = &value.public_key {
        sink.field(
            Label::Field("publicKey"),
            fields.next().span,
            bits(&point.0),
        )?;
    }
    sink.end()
}

/// Tells the key in its OCTET STRING.
fn private_key<A: Allocator, S: Limited>(
    sink: &mut S,
    at: Element<'_>,
    value: &PrivateKeyValue<A>,
    secrets: Secrets,
) -> Result<(), S::Error> {
    let mut string = at.inside;
    let inside = string.next().inside;
    let within = Element { inside, ..at };
    match value {
        PrivateKeyValue::Rsa(key) => rsa(sink, "privateKey", within, &key.0, secrets),
        PrivateKeyValue::EC(key) => ec(sink, "privateKey", within, &key.0, secrets),
        PrivateKeyValue::ED(key) => {
            let secret = secret_octets(key.0.0.as_slice(), secrets);
            sink.field(Label::Field("privateKey"), at.span, secret)
        }
    }
}

/// Tells what stands behind a private key: an element that was skipped, and the public key.
fn tail<A: Allocator, S: Limited>(
    sink: &mut S,
    bytes: &[u8],
    at: &PrivateKeyInfoFields,
    public_key: &Option<BitString<A>>,
) -> Result<(), S::Error> {
    if let Some(skipped) = at.skipped {
        let skipped = field_at(bytes, skipped);
        let label = Label::Field("skipped");
        sink.field(label, skipped.span, Value::Opaque(skipped.inside.rest))?;
    }
    match (at.public_key, public_key) {
        (Some(at), Some(key)) => sink.field(Label::Field("publicKey"), place(at), bits(key)),
        _ => Ok(()),
    }
}

/// What is said of a private key.
fn private_line<A: Allocator>(value: &PrivateKeyInfo<A>) -> KeyLine<'_> {
    let line = line_of(&value.private_key_algorithm);
    match &value.private_key {
        PrivateKeyValue::Rsa(key) => line.with_modulus(&key.0.modulus),
        PrivateKeyValue::EC(key) => line.with_secret(key.0.private_key.0.as_slice()),
        PrivateKeyValue::ED(key) => line.with_bits(octet_bits(key.0.0.as_slice())),
    }
}

impl<A: Allocator + Copy> Reported for PrivateKeyInfo<A> {
    const TITLE: &'static str = "Private key";

    fn tell<S: Limited>(
        &self,
        sink: &mut S,
        bytes: &[u8],
        secrets: Secrets,
    ) -> Result<(), S::Error> {
        let at = PrivateKeyInfoFields::of(self, bytes);
        let label = Label::Field("PrivateKeyInfo");
        sink.begin(label, whole(bytes), Shape::Fields)?;
        let version = Value::Word(if self.version == 0 { "v1" } else { "v2" });
        sink.field(Label::Field("version"), place(at.version), version)?;
        let (field, kind) = ("privateKeyAlgorithm", &self.private_key_algorithm);
        algorithm(sink, field, field_at(bytes, at.private_key_algorithm), kind)?;
        let key = field_at(bytes, at.private_key);
        private_key(sink, key, &self.private_key, secrets)?;
        tail(sink, bytes, &at, &self.public_key)?;
        sink.end()
    }

    fn summary<W: Write>(&self, out: &mut W) -> fmt::Result {
        writeln!(out, "  key         {}", private_line(self))
    }

    fn column<W: Write>(&self, column: Column, out: &mut W) -> fmt::Result {
        match column {
            Column::Key => write!(out, "{}", private_line(self)),
            _ => Ok(()),
        }
    }
}

impl<A: Allocator> Reported for RsaPrivateKey<A> {
    const TITLE: &'static str = "RSA private key";

    fn tell<S: Limited>(
        &self,
        sink: &mut S,
        bytes: &[u8],
        secrets: Secrets,
    ) -> Result<(), S::Error> {
        rsa(
            sink,
            "RSAPrivateKey",
            Cursor::new(bytes).next(),
            self,
            secrets,
        )
    }

    fn summary<W: Write>(&self, out: &mut W) -> fmt::Result {
        writeln!(out, "  key         {}", rsa_line(&self.modulus))
    }

    fn column<W: Write>(&self, column: Column, out: &mut W) -> fmt::Result {
        match column {
            Column::Key => write!(out, "{}", rsa_line(&self.modulus)),
            _ => Ok(()),
        }
    }
}

/// What is said of an elliptic curve private key.
fn ec_line<A: Allocator>(value: &ECPrivateKey<A>) -> KeyLine<'_> {
    let curve = match &value.parameters {
        Some(EcParameters::NamedCurve(curve)) => Some(curve.0.content()),
        None => None,
    };
    x509_report_fields::key::ec_line(curve).with_secret(value.private_key.0.as_slice())
}

impl<A: Allocator> Reported for ECPrivateKey<A> {
    const TITLE: &'static str = "EC private key";

    fn tell<S: Limited>(
        &self,
        sink: &mut S,
        bytes: &[u8],
        secrets: Secrets,
    ) -> Result<(), S::Error> {
        ec(
            sink,
            "ECPrivateKey",
            Cursor::new(bytes).next(),
            self,
            secrets,
        )
    }

    fn summary<W: Write>(&self, out: &mut W) -> fmt::Result {
        writeln!(out, "  key         {}", ec_line(self))
    }

    fn column<W: Write>(&self, column: Column, out: &mut W) -> fmt::Result {
        match column {
            Column::Key => write!(out, "{}", ec_line(self)),
            _ => Ok(()),
        }
    }
}
