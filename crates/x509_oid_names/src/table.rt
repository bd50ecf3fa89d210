//! Tables of names.

ghost use Rattle.std.specs.Prelude.{◌≡◌, option_map, map};
ghost use Rattle.x509_oid_names.specs.Names.{name_if, name_beside, name_under, name_among};

/// The last arcs of identifiers whose other arcs are the same, and the name of each.
pub type Names = &'static [(u64, &'static str)];

/// The arcs before the last, and the names under them.
pub type Table = &'static [(&'static [u64], Names)];

/// The name of a line, if its arc is this one.
fn named(line: &(u64, &'static str), last: u64) -> Option<&'static str>
    ensures { option_map (λ t. t.now) result ≡ name_if line.now.0 line.now.1.now last }
{
    if line.0 == last { Some(line.1) } else { None }
}

/// The name beside a last arc, if it stands there.
fn beside(names: Names, last: u64) -> Option<&'static str>
    ensures { option_map (λ t. t.now) result ≡ name_beside last (map (λ n. (n.0, n.1.now)) names.now) }
{
    for line in names {
        if let Some(name) = named(line, last) {
            return Some(name);
        }
    }
    None
}

/// The name beside a last arc in a line, if this has the arcs before it.
fn under(line: &(&'static [u64], Names), front: &[u64], last: u64) -> Option<&'static str>
    ensures { option_map (λ t. t.now) result ≡ name_under front.now last
        (line.now.0.now, map (λ n. (n.0, n.1.now)) line.now.1.now) }
{
    if line.0 == front {
        beside(line.1, last)
    } else {
        None
    }
}

/// The name of an identifier in a table, by its last arc and those before it, if it stands there.
pub(crate) fn among(table: Table, front: &[u64], last: u64) -> Option<&'static str>
    ensures { option_map (λ t. t.now) result ≡ name_among front.now last
        (map (λ l. (l.0.now, map (λ n. (n.0, n.1.now)) l.1.now)) table.now) }
{
    for line in table {
        if let Some(name) = under(line, front, last) {
            return Some(name);
        }
    }
    None
}
