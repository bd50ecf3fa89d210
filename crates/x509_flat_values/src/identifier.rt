//! Object identifiers, told by their contents.

ghost use Rattle.std.specs.Prelude.{◌≡◌, ℕ, List, MatchOption};
ghost use Rattle.x509_der.specs.ObjectIdentifier.{IsOid, arcs_spelled, is_arcs};

use std::marker::Model;
use x509_der::Arcs;

/// An object identifier that is lent by its content, what stands behind the tag and the length. Contracts see the arcs.
#[derive(Drop)]
pub struct Identifier<'a> {
    content: &'a [u8],
}

impl<'a> Model for Identifier<'a> {
    ghost use Rattle.std.specs.Prelude.{List, ℕ};
    ghost use Rattle.x509_der.specs.ObjectIdentifier.{IsOid, arcs_spelled};

    ghost Value = { List ℕ };

    ghost view = { λ o. arcs_spelled o.content.now };

    ghost invariant = { λ o. IsOid (arcs_spelled o.content.now) o.content.now };
}

impl<'a> Identifier<'a> {
    /// The object identifier with this content; none where the bytes aren't one's content (X.690, 8.19). Takes no memory.
    pub fn of(content: &'a [u8]) -> Option<Self>
        ensures { MatchOption result ((v : List ℕ) → IsOid v content.now → ⊥) (λ arcs. IsOid arcs content.now) }
    {
        match Arcs::in_content(content) {
            Some(_) => Some(Identifier { content }),
            None => None,
        }
    }

    /// Whether this is the content.
    pub fn is_content(&self, content: &[u8]) -> bool
        ensures { result ≡ is_arcs self.now (arcs_spelled content.now) }
    {
        self.content == content
    }
}

/// Whether an object identifier with this content is the one with another.
pub(crate) fn is_identifier(content: &[u8], known: &[u8]) -> bool
    ensures { (arcs : List ℕ) → IsOid arcs content.now → result ≡ is_arcs arcs (arcs_spelled known.now) }
{
    content == known
}
