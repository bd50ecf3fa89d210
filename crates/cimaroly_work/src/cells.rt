//! Which cells the lines of a table have.

use std::alloc::{AllocError, Global};
use x509_inspect::Cell;

/// The cells that are asked for, by their names with commas between them. What names none was refused before.
///
/// # Errors
/// `AllocError` where memory is refused.
pub(crate) fn cells_of<'t>(alloc: Global, names: &'t str) -> Result<Vec<Cell<'t>>, AllocError> {
    let mut cells: Vec<Cell<'t>> = Vec::new(alloc);
    for name in names.split(',') {
        if let Some(cell) = Cell::from_name(name) {
            cells.push(cell)?;
        }
    }
    Ok(cells)
}
