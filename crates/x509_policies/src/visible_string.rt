//! Strings of the characters of ASCII that are printed.

ghost use Rattle.std.specs.Prelude.{◌≡◌, refl};
ghost use Rattle.std.proofs.Common.{lit<};
ghost use Rattle.x509_prim.specs.CharSets.{is_within};
ghost use Rattle.x509_policies.specs.VisibleString.{are_visible};
ghost use Rattle.x509_policies.specs.facts.VisibleString.{ascii-from_visible};

use std::alloc::Global;
use std::fmt;
use x509_der::parts::{Primitive, Tag};
use x509_prim::{AsciiCharSet, CharSet, Ia5CharSet, RestrictedString, RestrictedStringAsn1};

/// The tag of VisibleString (X.680, 41, table 8).
pub const VISIBLE_STRING_TAG: u8 = 0x1A;

/// The characters of VisibleString: those of ASCII that are printed, and the space (X.680, 41, table 8).
#[derive(Drop)]
pub struct VisibleCharSet;

impl Tag for VisibleCharSet {
    type Form = Primitive;

    const BYTE: u8 = VISIBLE_STRING_TAG;

    ghost BYTE = { 26 };

    ghost form = { refl };

    ghost one_byte = { refl };

    ghost is_byte = { lit< tt };
}

/// Whether VisibleString has the character.
fn is_visible(byte: u8) -> bool
    ensures { result ≡ is_within 32 126 byte }
{
    byte >= 32 && byte <= 126
}

impl CharSet for VisibleCharSet {
    ghost primitive = { refl };

    ghost allowed = { are_visible };

    ghost text = { λ bytes. bytes };

    fn allows(bytes: &[u8]) -> bool {
        bytes.iter().all(|byte| is_visible(*byte))
    }

    fn write_text<W: fmt::Write>(f: &mut fmt::Formatter<W>, bytes: &[u8]) -> fmt::Result {
        Ia5CharSet::write_text(f, bytes)
    }
}

impl AsciiCharSet for VisibleCharSet {
    ghost ascii = { ascii-from_visible };
}

/// A text of the characters of ASCII that are printed, and spaces. Contracts see its bytes.
pub type VisibleString<A = Global> = RestrictedString<VisibleCharSet, A>;

/// A [`VisibleString`] as an element.
///
/// # Encoding
/// VisibleString: tag 1A, and a byte for each character (X.690, 8.23).
pub type VisibleStringAsn1<A = Global> = RestrictedStringAsn1<VisibleCharSet, A>;
