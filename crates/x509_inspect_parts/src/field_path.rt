//! Which field stands at a byte of an input that couldn't be read.

use crate::kind::Kind;
use std::fmt::{self, Display, Write};
use x509_report_parts::{Cursor, Element};

/// What stands in an element, as far as its fields have names: one of the types, or a part of one.
#[derive(Clone, Copy, Debug, PartialEq, Eq)]
enum Node {
    Type(Kind),
    Validity,
    NameSet,
    NameAttribute,
    ExtensionsField,
    Extension,
    Attributes,
    Attribute,
    Leaf,
}

/// A field: its name, what stands in it, and whether it is one that must be there.
#[derive(Clone, Copy, Debug, PartialEq, Eq)]
struct Field {
    name: &'static str,
    node: Node,
    is_counted: bool,
}

/// A field that must be there.
fn one(name: &'static str, node: Node) -> Field {
    Field {
        name,
        node,
        is_counted: true,
    }
}

/// A field that may be absent.
fn some(name: &'static str, node: Node) -> Field {
    Field {
        name,
        node,
        is_counted: false,
    }
}

/// The field of a certificate's signed part, behind so many that must be there (RFC 5280, 4.1).
fn tbs_field(tag: u8, index: usize) -> Field {
    match (tag, index) {
        (0xa0, 0) => some("version", Node::Leaf),
        (_, 0) => one("serialNumber", Node::Leaf),
        (_, 1) => one("signature", Node::Type(Kind::Algorithm)),
        (_, 2) => one("issuer", Node::Type(Kind::Name)),
        (_, 3) => one("validity", Node::Validity),
        (_, 4) => one("subject", Node::Type(Kind::Name)),
        (_, 5) => one("subjectPublicKeyInfo", Node::Type(Kind::PublicKey)),
        (0x81, _) => some("issuerUniqueID", Node::Leaf),
        (0x82, _) => some("subjectUniqueID", Node::Leaf),
        _ => some("extensions", Node::ExtensionsField),
    }
}

/// The field of a signed structure (RFC 5280, 4.1; RFC 2986, 4.2).
fn signed_field(first: Field, signature: &'static str, index: usize) -> Field {
    match index {
        0 => first,
        1 => one("signatureAlgorithm", Node::Type(Kind::Algorithm)),
        _ => one(signature, Node::Leaf),
    }
}

/// The field of a request's signed part (RFC 2986, 4.1).
fn info_field(index: usize) -> Field {
    match index {
        0 => one("version", Node::Leaf),
        1 => one("subject", Node::Type(Kind::Name)),
        2 => one("subjectPKInfo", Node::Type(Kind::PublicKey)),
        _ => one("attributes", Node::Attributes),
    }
}

/// The field of a private key (RFC 5958, 2).
fn private_field(tag: u8, index: usize) -> Field {
    match (tag, index) {
        (_, 0) => one("version", Node::Leaf),
        (_, 1) => one("privateKeyAlgorithm", Node::Type(Kind::Algorithm)),
        (_, 2) => one("privateKey", Node::Leaf),
        (0xa1, _) => some("publicKey", Node::Leaf),
        _ => some("attributes", Node::Leaf),
    }
}

/// The number of an RSA private key (RFC 8017, A.1.2).
fn rsa_field(index: usize) -> Field {
    let name = match index {
        0 => "version",
        1 => "modulus",
        2 => "publicExponent",
        3 => "privateExponent",
        4 => "prime1",
        5 => "prime2",
        6 => "exponent1",
        7 => "exponent2",
        _ => "coefficient",
    };
    one(name, Node::Leaf)
}

/// The field of an elliptic curve private key (RFC 5915, 3).
fn ec_field(tag: u8, index: usize) -> Field {
    match (tag, index) {
        (_, 0) => one("version", Node::Leaf),
        (_, 1) => one("privateKey", Node::Leaf),
        (0xa0, _) => some("parameters", Node::Leaf),
        _ => some("publicKey", Node::Leaf),
    }
}

/// The field of an extension (RFC 5280, 4.1).
fn extension_field(tag: u8, index: usize) -> Field {
    match (tag, index) {
        (_, 0) => one("extnID", Node::Leaf),
        (0x01, 1) => some("critical", Node::Leaf),
        _ => one("extnValue", Node::Leaf),
    }
}

/// One of two fields that must be there.
fn first_or(index: usize, first: Field, second: Field) -> Field {
    if index == 0 { first } else { second }
}

/// The field of a structure that begins with a tag, behind so many that must be there.
fn field_of(node: Node, tag: u8, index: usize) -> Field {
    let leaf = Node::Leaf;
    match node {
        Node::Type(Kind::Certificate) => {
            signed_field(
                one("tbsCertificate", Node::Type(Kind::TbsCertificate)),
                "signatureValue",
                index,
            )
        }
        Node::Type(Kind::TbsCertificate) => tbs_field(tag, index),
        Node::Type(Kind::Request) => {
            signed_field(
                one("certificationRequestInfo", Node::Type(Kind::RequestInfo)),
                "signature",
                index,
            )
        }
        Node::Type(Kind::RequestInfo) => info_field(index),
        Node::Type(Kind::PrivateKey) => private_field(tag, index),
        Node::Type(Kind::RsaPrivateKey) => rsa_field(index),
        Node::Type(Kind::EcPrivateKey) => ec_field(tag, index),
        Node::Extension => extension_field(tag, index),
        _ => small_field(node, index, leaf),
    }
}

/// The same, of structures of two fields and of lists.
fn small_field(node: Node, index: usize, leaf: Node) -> Field {
    match node {
        Node::Type(Kind::PublicKey) => {
            first_or(
                index,
                one("algorithm", Node::Type(Kind::Algorithm)),
                one("subjectPublicKey", leaf),
            )
        }
        Node::Type(Kind::RsaPublicKey) => first_or(
            index,
            one("modulus", leaf),
            one("publicExponent", leaf),
        ),
        Node::Validity => first_or(index, one("notBefore", leaf), one("notAfter", leaf)),
        Node::Type(Kind::Algorithm | Kind::RawAlgorithm) => first_or(
            index,
            one("algorithm", leaf),
            one("parameters", leaf),
        ),
        Node::Type(Kind::Name) => one("RelativeDistinguishedName", Node::NameSet),
        Node::NameSet => one("AttributeTypeAndValue", Node::NameAttribute),
        Node::NameAttribute | Node::Attribute => {
            first_or(index, one("type", leaf), one("value", leaf))
        }
        Node::ExtensionsField => one("Extensions", Node::Type(Kind::Extensions)),
        Node::Type(Kind::Extensions) => one("Extension", Node::Extension),
        _ => one("Attribute", Node::Attribute),
    }
}

/// How many fields deep a path may go: no structure has more that are named.
const DEPTH: usize = 16;

/// The names of the fields at a byte of an input, from the outermost in.
#[derive(Clone, Copy, Drop)]
pub(crate) struct FieldPath<'a> {
    /// As what the bytes were read.
    pub(crate) kind: Kind,
    /// The bytes.
    pub(crate) bytes: &'a [u8],
    /// The byte.
    pub(crate) at: usize,
    /// What stands between two names.
    pub(crate) separator: &'static str,
}

/// A field that was found, and a cursor over its content.
#[derive(Clone, Copy, Drop)]
struct Found<'a> {
    field: Field,
    inside: Cursor<'a>,
}

/// Whether a byte stands in an element, or at the start of what is none.
fn has_byte(element: &Element<'_>, at: usize) -> bool {
    let span = element.span;
    if span.start == span.end {
        span.start <= at
    } else {
        span.start <= at && at < span.end
    }
}

/// The field of a structure with a content in which a byte stands.
fn found_in<'a>(node: Node, content: Cursor<'a>, at: usize) -> Option<Found<'a>> {
    let mut cursor = content;
    let mut index: usize = 0;
    for _ in 0..content.rest.len() {
        if cursor.rest.is_empty() {
            return None;
        }
        let element = cursor.next();
        let field = field_of(node, element.tag, index);
        if has_byte(&element, at) {
            return Some(Found {
                field,
                inside: element.inside,
            });
        }
        index = index.saturating_add(usize::from(field.is_counted));
    }
    None
}

impl FieldPath<'_> {
    /// Whether the byte stands in no field that has a name.
    pub(crate) fn is_empty(&self) -> bool {
        let mut whole = Cursor::new(self.bytes);
        found_in(Node::Type(self.kind), whole.next().inside, self.at).is_none()
    }
}

impl Display for FieldPath<'_> {
    fn fmt<W: Write>(&self, f: &mut fmt::Formatter<W>) -> fmt::Result {
        let mut whole = Cursor::new(self.bytes);
        let mut node = Node::Type(self.kind);
        let mut content = whole.next().inside;
        for depth in 0..DEPTH {
            if node == Node::Leaf {
                return Ok(());
            }
            let Some(found) = found_in(node, content, self.at) else {
                return Ok(());
            };
            if depth > 0 {
                f.write_str(self.separator)?;
            }
            f.write_str(found.field.name)?;
            node = found.field.node;
            content = found.inside;
        }
        Ok(())
    }
}
