//! Writing to the front of a slice, as far as there is room.

ghost use Rattle.std.specs.Prelude.{◌≡◌, ◌∷◌, ◌++◌, [], List, length};
ghost use Rattle.x509_values.specs.Told.{filled};

/// Writes an item behind so many that were put in front of a slice, where there is room for it.
pub fn put<P: Copy>(item: P, count: usize, out: &mut [P])
    ensures { (done base : List P) → count ≡ length done → out.old ≡ filled done base →
        out.new ≡ filled (done ++ item ∷ []) base }
{
    if out.len() <= count {
        return;
    }
    out[count] = item;
}
