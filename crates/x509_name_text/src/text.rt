//! Names (RFC 4514, 2.1 and 2.2).

ghost use Rattle.std.specs.Prelude.{◌≡◌, ◌+◌, ◌-◌, ◌^◌, ◌≤◌, ◌++◌, ℕ, min, Bool, List, length};
ghost use Rattle.x509_name_text.specs.Texts.{AreAttributes, AreSets, IsName, Kept, NameAttribute, NameTold, SomeText, Spells, TellsShown, Writes};
ghost use Rattle.x509_name_text.specs.Texts.{attribute_text, lead, name_text as full_text, set_text};

use crate::attribute::put_attribute;
use crate::put::put;
use x509_report_parts::Cursor;

/// Writes an attribute, behind a plus sign unless it is the first.
fn put_next(attribute: Cursor<'_>, is_first: bool, at: usize, out: &mut [u8]) -> usize
    ensures { (shown : ℕ → Bool) (a : NameAttribute) → TellsShown shown → Spells a attribute.entry.rest.now →
        Writes (lead 43 is_first ++ attribute_text shown a) at out.old result out.new }
{
    if is_first {
        return put_attribute(attribute, at, out);
    }
    let behind = put(b"+", at, out);
    put_attribute(attribute, behind, out)
}

/// Writes the attributes of a set from a place on, and answers where they end.
fn put_set(set: Cursor<'_>, at: usize, out: &mut [u8]) -> usize
    ensures { (shown : ℕ → Bool) (attributes : List NameAttribute) → TellsShown shown → AreAttributes attributes set.entry.rest.now →
        Writes (set_text shown attributes) at out.old result out.new }
{
    let mut attributes = set;
    let mut at = at;
    let mut is_first = true;
    'attributes: for _ in 0..set.rest.len() {
        let Some(attribute) = attributes.take() else {
            break;
        };
        at = put_next(attribute.inside, is_first, at, out);
        is_first = false;
    }
    at
}

/// How many bytes the text of a set has.
fn set_len(set: Cursor<'_>) -> usize
    ensures { (shown : ℕ → Bool) (attributes : List NameAttribute) → TellsShown shown → AreAttributes attributes set.entry.rest.now →
        result ≡ min (2 ^ 64 - 1) (length (set_text shown attributes)) }
{
    let mut nothing: [u8; 0] = [];
    put_set(set, 0, &mut nothing)
}

/// How many bytes a text has with a set before it, and a comma between them unless the set is the first.
fn longer(len: usize, is_first: bool, set: Cursor<'_>) -> usize
    ensures { (shown : ℕ → Bool) (attributes : List NameAttribute) → TellsShown shown → AreAttributes attributes set.entry.rest.now →
        result ≡ min (2 ^ 64 - 1) (len + (length (lead 44 is_first) + length (set_text shown attributes))) }
{
    let own = set_len(set);
    if is_first {
        return len.saturating_add(own);
    }
    len.saturating_add(1).saturating_add(own)
}

/// How many bytes the text of a name has, whose sets are given.
fn text_len(sets: Cursor<'_>) -> usize
    ensures { (shown : ℕ → Bool) (all : List (List NameAttribute)) → TellsShown shown → AreSets all sets.entry.rest.now →
        result ≡ min (2 ^ 64 - 1) (length (full_text shown all)) }
{
    let mut left = sets;
    let mut len: usize = 0;
    let mut is_first = true;
    'sets: for _ in 0..sets.rest.len() {
        let Some(set) = left.take() else {
            break;
        };
        len = longer(len, is_first, set.inside);
        is_first = false;
    }
    len
}

/// Writes a comma before what stands from a place on, unless nothing does.
fn put_mark(is_first: bool, at: usize, out: &mut [u8]) -> usize
    ensures same { length out.new ≡ length out.old }
    ensures mark { (front back : List ℕ) → out.old ≡ front ++ back → length front ≡ at → length (lead 44 is_first) ≤ at →
        Kept (lead 44 is_first) back result out.new }
{
    if is_first {
        return at;
    }
    let mark = at.saturating_sub(1);
    put(b",", mark, out);
    mark
}

/// Writes a set before what stands from a place on.
fn put_before(set: Cursor<'_>, is_first: bool, at: usize, out: &mut [u8]) -> usize
    ensures same { length out.new ≡ length out.old }
    ensures set { (shown : ℕ → Bool) (attributes : List NameAttribute) → TellsShown shown → AreAttributes attributes set.entry.rest.now →
        (front back : List ℕ) → out.old ≡ front ++ back → length front ≡ at →
        length (lead 44 is_first) + length (set_text shown attributes) ≤ at →
        Kept (set_text shown attributes) (lead 44 is_first ++ back) result out.new }
{
    let mark = put_mark(is_first, at, out);
    let start = mark.saturating_sub(set_len(set));
    put_set(set, start, out);
    start
}

/// Writes the sets of a name to a buffer of just their length, the first set at its end.
fn put_back(sets: Cursor<'_>, out: &mut [u8])
    ensures same { length out.new ≡ length out.old }
    ensures name { (shown : ℕ → Bool) (all : List (List NameAttribute)) → TellsShown shown → AreSets all sets.entry.rest.now →
        length out.old ≡ length (full_text shown all) → out.new ≡ full_text shown all }
{
    let mut left = sets;
    let mut at = out.len();
    let mut is_first = true;
    'sets: for _ in 0..sets.rest.len() {
        let Some(set) = left.take() else {
            break;
        };
        at = put_before(set.inside, is_first, at, out);
        is_first = false;
    }
}

/// Writes a name to the front of a buffer, and answers how many bytes its text has: the last set first, as RFC 4514 asks, and
/// what isn't a string, or has no short name there, in hexadecimal. Of bytes that encode no name it writes some text.
///
/// # Errors
/// How many bytes the text has, where the buffer has fewer, which is then as it was.
pub fn name_text(name: &[u8], out: &mut [u8]) -> Result<usize, usize>
    ensures some { SomeText out.old out.new result }
    ensures exact { (shown : ℕ → Bool) (sets : List (List NameAttribute)) → TellsShown shown → IsName sets name.now →
        NameTold (full_text shown sets) out.old out.new result }
{
    let sets = Cursor::new(name).next().inside;
    let len = text_len(sets);
    if out.len() < len {
        return Err(len);
    }
    let (front, _) = out.split_at_mut(len);
    put_back(sets, front);
    Ok(len)
}
