//! The list of records, one place a label.

ghost use Rattle.std.specs.Prelude.{◌≡◌, ◌≤◌, None, length};
ghost use Rattle.leaf_table.specs.Rows.{row_in, rows_below, IsLeastRow};

use pw_leaf::LEAF_BYTES;
use pw_path::Label;

/// There are so many labels.
pub(crate) const PLACES: usize = 16_384;

/// The record at one label, or none.
pub(crate) type Row = Option<[u8; LEAF_BYTES]>;

// How many labels have a record.
pub(crate) fn count_rows(rows: &[Row]) -> usize
    requires { length rows.now ≡ 16384 }
    ensures value { result ≡ rows_below (row_in rows.now) 16384 }
    ensures most { result ≤ 16384 }
{
    let mut count = 0;
    for number in 0..PLACES {
        if rows[number].is_some() {
            count += 1;
        }
    }
    count
}

// The least label that has a record.
pub(crate) fn least_row(rows: &[Row]) -> Option<Label>
    requires { length rows.now ≡ 16384 }
    ensures { IsLeastRow (row_in rows.now) result }
{
    for number in 0..PLACES {
        if rows[number].is_some() {
            return Label::new(number as u16);
        }
    }
    None
}

// Takes all records away.
pub(crate) fn clear_rows(rows: &mut [Row])
    requires { length rows.old ≡ 16384 }
    ensures size { length rows.new ≡ 16384 }
    ensures empty { row_in rows.new ≡ (λ _. None) }
{
    for number in 0..PLACES {
        rows[number] = None;
    }
}
