//! The members of a short description that stand for extensions.

use json::Value;
use std::alloc::Allocator;

/// An extension that a member of a short description stands for.
#[derive(Clone, Copy, Drop)]
pub(crate) enum Short {
    Names,
    IssuerNames,
    KeyUsage,
    BasicConstraints,
    ExtendedKeyUsage,
    SubjectKey,
    AuthorityKey,
}

/// Whether a name has no attributes.
fn is_nobody<A: Allocator>(node: Option<&Value<'_, A>>) -> bool {
    match node {
        None => true,
        Some(Value::String(text)) => text.trim().is_empty(),
        Some(Value::Array(list)) => list.is_empty(),
        Some(Value::Object(members)) => members.is_empty(),
        _ => false,
    }
}

impl Short {
    /// The extension of a member.
    pub(crate) fn of(name: &str) -> Option<Short> {
        match name {
            "names" => Some(Short::Names),
            "issuerNames" => Some(Short::IssuerNames),
            "keyUsage" => Some(Short::KeyUsage),
            "basicConstraints" => Some(Short::BasicConstraints),
            "extendedKeyUsage" => Some(Short::ExtendedKeyUsage),
            "subjectKeyIdentifier" => Some(Short::SubjectKey),
            "authorityKeyIdentifier" => Some(Short::AuthorityKey),
            _ => None,
        }
    }

    /// Its object identifier with dots (RFC 5280, 4.2.1).
    pub(crate) fn identifier(self) -> &'static str {
        match self {
            Short::Names => "2.5.29.17",
            Short::IssuerNames => "2.5.29.18",
            Short::KeyUsage => "2.5.29.15",
            Short::BasicConstraints => "2.5.29.19",
            Short::ExtendedKeyUsage => "2.5.29.37",
            Short::SubjectKey => "2.5.29.14",
            Short::AuthorityKey => "2.5.29.35",
        }
    }

    /// Whether it is critical where nothing is said (RFC 5280, 4.2.1.3, 4.2.1.6 and 4.2.1.9).
    pub(crate) fn is_critical<A: Allocator + Copy>(
        self,
        root: &Value<'_, A>,
        node: &Value<'_, A>,
    ) -> bool {
        match self {
            Short::KeyUsage => true,
            Short::BasicConstraints => matches!(node.get("ca"), Some(Value::Bool(true))),
            Short::Names => is_nobody(root.get("subject")),
            _ => false,
        }
    }
}
