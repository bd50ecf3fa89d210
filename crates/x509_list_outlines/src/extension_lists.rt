//! Lists of extensions that are left out where they are empty.

ghost use Rattle.std.specs.Prelude.{◌≡◌};
ghost use Rattle.x509_der.specs.Optional.{optional};
ghost use Rattle.x509_der.specs.View.{if_found};
ghost use Rattle.x509_outline.specs.Versions.{gone_kinds, is_nil, list_in, list_kinds, written_list};
ghost use Rattle.x509_outline_parts.specs.Extensions.{extensions as extension_lists};

use std::alloc::Allocator;
use x509_der::Deviation;
use x509_der::parts::Field;
use x509_outline_parts::ExtensionsOutline;

/// Whether a list of extensions is empty.
pub(crate) fn is_empty<A: Allocator>(extensions: &ExtensionsOutline<A>) -> bool
    ensures { result ≡ is_nil extensions.now }
{
    extensions.0.0.is_empty()
}

/// The extensions that are encoded, or none.
pub(crate) fn extensions_of<A: Allocator>(
    alloc: A,
    spelled: Option<ExtensionsOutline<A>>,
) -> ExtensionsOutline<A>
    ensures { result ≡ list_in spelled }
{
    match spelled {
        Some(extensions) => extensions,
        None => ExtensionsOutline::from(Vec::new(alloc)),
    }
}

/// The deviation of an empty list of extensions that is encoded.
pub(crate) fn spelled_empty<A: Allocator>(
    spelled: &Option<ExtensionsOutline<A>>,
) -> Option<Deviation>
    ensures { if_found result ≡ list_kinds spelled.now }
{
    match spelled {
        Some(extensions) => {
            if is_empty(extensions) {
                Some(Deviation::EmptyExtensionsSpelled)
            } else {
                None
            }
        }
        None => None,
    }
}

/// The deviation of an empty list that is encoded, of which this is kept.
pub(crate) fn gone_empty(extensions: Option<bool>) -> Option<Deviation>
    ensures { if_found result ≡ gone_kinds extensions }
{
    match extensions {
        Some(true) => Some(Deviation::EmptyExtensionsSpelled),
        Some(false) | None => None,
    }
}

/// Says that extensions are of their type. It does nothing when it runs.
pub(crate) fn known_extensions<A: Allocator + Copy>(extensions: &ExtensionsOutline<A>)
    ensures { (optional extension_lists).valid (written_list extensions.now) }
{
    extensions.known();
    let _empty = is_empty(extensions);
}
