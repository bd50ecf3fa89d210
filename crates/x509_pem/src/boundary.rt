//! The lines that begin and end blocks.

ghost use Rattle.std.specs.Prelude.{◌≡◌, ◌≢◌, ◌++◌, ℕ, List, codes, MatchOption};
ghost use Rattle.x509_pem.specs.Line.{IsBoundary, IsNone, IsUnmarked, Says};

use crate::white::trimmed;

/// The byte order mark of UTF-8.
const MARK: [u8; 3] = [0xEF, 0xBB, 0xBF];

/// What a line is.
#[derive(Clone, Copy, Debug)]
pub(crate) enum Kind<'a> {
    /// It begins a block with this label.
    Begin(&'a [u8]),
    /// It ends one.
    End(&'a [u8]),
    /// Neither.
    Text,
}

/// What stands in a line behind its front.
fn behind<'a>(front: &[u8], line: &'a [u8]) -> Option<&'a [u8]>
    ensures { MatchOption result ((rest : List ℕ) → line.entry.now ≢ front.now ++ rest)
        (λ rest. line.entry.now ≡ front.now ++ rest.now) }
{
    line.strip_prefix(front)
}

/// What stands behind a byte order mark and white space; the line itself, where it begins with no mark.
fn unmarked(line: &[u8]) -> &[u8]
    ensures { IsUnmarked line.now result.now }
{
    match behind(MARK.as_slice(), line) {
        Some(rest) => trimmed(rest),
        None => line,
    }
}

/// What stands in a line before five hyphens at its end.
fn before_hyphens(line: &[u8]) -> Option<&[u8]>
    ensures { MatchOption result ((rest : List ℕ) → line.now ≢ rest ++ codes "-----")
        (λ rest. line.now ≡ rest.now ++ codes "-----") }
{
    line.strip_suffix(b"-----".as_slice())
}

/// The label in a line that begins with `front` and ends with five hyphens.
fn label_behind<'a>(front: &[u8], line: &'a [u8]) -> Option<&'a [u8]>
    ensures { MatchOption result (IsNone front.now line.entry.now)
        (λ label. IsBoundary front.now label.now line.entry.now) }
{
    match behind(front, line) {
        Some(rest) => before_hyphens(rest),
        None => None,
    }
}

/// What a line is, which has no white space at its ends.
pub(crate) fn kind_of(line: &[u8]) -> Kind<'_>
    ensures { Says result line.now }
{
    let inner = unmarked(line);
    match label_behind(b"-----BEGIN ".as_slice(), inner) {
        Some(label) => Kind::Begin(label),
        None => match label_behind(b"-----END ".as_slice(), inner) {
            Some(label) => Kind::End(label),
            None => Kind::Text,
        },
    }
}
