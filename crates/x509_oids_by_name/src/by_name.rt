//! What a name stands for.

ghost use Rattle.std.specs.Prelude.{◌≡◌, ◌≢◌, ℕ, List, IfOk, IfErr, Err, option_map, MatchOption};
ghost use Rattle.x509_der.specs.ObjectIdentifier.{IsLawful, dotted};
ghost use Rattle.x509_oids_by_name.specs.Names.{arcs_of, Names};

use crate::table::among;
use crate::{algorithms, further, objects};
use std::alloc::Allocator;
use x509_der::{ObjectIdentifier, OidError};

/// The arcs that a name stands for, as `commonName` or `CN` for 2.5.4.3, if it is known. Names are told apart by
/// case, as the standards spell them; the short ones are those of RFC 4514, 3, and key purposes without `id-kp-`.
pub fn arcs_by_name(name: &str) -> Option<&'static [u64]>
    ensures { option_map (λ a. a.now) result ≡ arcs_of name.now }
{
    if let Some(arcs) = among(algorithms::TABLES, name) {
        return Some(arcs);
    }
    if let Some(arcs) = among(objects::TABLES, name) {
        return Some(arcs);
    }
    among(further::TABLES, name)
}

/// The object identifier that a text names, by a name or by its arcs with dots, as `2.5.4.3`. Takes memory where its
/// content is longer than 22 bytes, and for the arcs of a text with dots.
///
/// # Errors
/// `Bad` where the text is neither a name that is known nor the arcs of an object identifier; `OutOfMemory` where
/// memory is refused.
pub fn oid_by_name<A: Allocator + Copy>(
    alloc: A,
    text: &str,
) -> Result<ObjectIdentifier<A>, OidError>
    ensures ok { IfOk result (λ o. Names text.now o) }
    ensures bad { result ≡ Err OidError.Bad → arcs_of text.now ≡ None →
        (arcs : List ℕ) → IsLawful arcs → text.now ≢ dotted arcs }
{
    match arcs_by_name(text) {
        Some(arcs) => ObjectIdentifier::from_arcs(alloc, arcs),
        None => ObjectIdentifier::from_text(alloc, text),
    }
}
