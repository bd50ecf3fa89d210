//! Bytes that begin with an element of a tag.

ghost use Rattle.std.specs.Prelude.{◌≡◌, ◌<◌, true};
ghost use Rattle.x509_der.specs.Element.{is_tag};
ghost use Rattle.x509_signing.specs.Elements.{SplitsIf};

use x509_der::parts::first_element;

/// The element with the tag that the bytes begin with, its content, and what stands behind it; `None` where they begin with no
/// such element.
pub(crate) fn split_tagged(tag: u8, bytes: &[u8]) -> Option<(&[u8], &[u8], &[u8])>
    requires { is_tag tag ≡ true }
    ensures { SplitsIf tag bytes.now result }
{
    let Some(element) = first_element(bytes) else {
        return None;
    };
    if element.tag != tag {
        return None;
    }
    let (whole, rest) = bytes.split_at(element.end);
    let (_, content) = whole.split_at(element.start);
    Some((whole, content, rest))
}
