//! Rows by their numbers and names.

ghost use Rattle.std.specs.Prelude.{◌≡◌, ◌<◌, ◌≤◌, ◌↔◌, length, bytes_eq, Some, IsTrue};
ghost use Rattle.ax_attrs.specs.Entry.{number_named, row_of, IsTable};
ghost use Rattle.ax_attrs.specs.Rows.{entries, entry_of};

use crate::Row;

/// The row of that number.
pub(crate) fn row_at(rows: &'static [Row], number: u16) -> Row
    requires above { 0 < number }
    requires within { number ≤ length rows.now }
    ensures { row_of (entries rows.now) number ≡ Some (entry_of result) }
{
    rows[number as usize - 1]
}

/// Whether the two texts are the same. Their lengths are compared first, so that most rows cost one comparison.
fn is_same(a: &str, b: &str) -> bool
    ensures { result ≡ bytes_eq a.now b.now }
{
    a.len() == b.len() && a == b
}

/// The number of the first row that has the name.
pub(crate) fn number_named(rows: &[Row], name: &str) -> Option<u16>
    ensures { result ≡ number_named (entries rows.now) name.now }
{
    for row in rows {
        if is_same(row.name, name) {
            return Some(row.number);
        }
    }
    None
}

/// Whether the numbers are 1, 2, 3 and so on and no name stands twice, that is, each row is the first with its name.
pub(crate) fn is_table(rows: &[Row]) -> bool
    ensures { IsTrue result ↔ IsTable (entries rows.now) }
{
    for (i, row) in rows.iter().enumerate() {
        if row.number as usize != i + 1 {
            return false;
        }
        if number_named(rows, row.name) != Some(row.number) {
            return false;
        }
    }
    true
}
