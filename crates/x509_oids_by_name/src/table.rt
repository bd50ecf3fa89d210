//! Tables of names.

ghost use Rattle.std.specs.Prelude.{◌≡◌, option_map, map};
ghost use Rattle.x509_oids_by_name.specs.Names.{arcs_if_named, arcs_beside, arcs_among};

/// Names, and the arcs that each stands for.
pub type Table = &'static [(&'static str, &'static [u64])];

/// The arcs of a line, if its name is this one.
fn named(line: &(&'static str, &'static [u64]), name: &str) -> Option<&'static [u64]>
    ensures { option_map (λ a. a.now) result ≡ arcs_if_named name.now (line.now.0.now, line.now.1.now) }
{
    if line.0 == name { Some(line.1) } else { None }
}

/// The arcs beside a name in a table, if it stands there.
fn beside(table: Table, name: &str) -> Option<&'static [u64]>
    ensures { option_map (λ a. a.now) result ≡ arcs_beside name.now (map (λ l. (l.0.now, l.1.now)) table.now) }
{
    for line in table {
        if let Some(arcs) = named(line, name) {
            return Some(arcs);
        }
    }
    None
}

/// The arcs beside a name in the first of some tables where it stands.
pub(crate) fn among(tables: &'static [Table], name: &str) -> Option<&'static [u64]>
    ensures { option_map (λ a. a.now) result ≡ arcs_among name.now
        (map (λ t. map (λ l. (l.0.now, l.1.now)) t.now) tables.now) }
{
    for table in tables {
        if let Some(arcs) = beside(*table, name) {
            return Some(arcs);
        }
    }
    None
}
