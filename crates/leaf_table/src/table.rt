//! The table.

ghost use Rattle.std.specs.Prelude.{◌≡◌, ℕ, ◌≤◌, IfOk, None, Some, option_copied};
ghost use Rattle.leaf_table.specs.Rows.{row_in, with_row, no_rows, rows_below, IsLeastRow};

use crate::rows::{PLACES, Row, clear_rows, count_rows, least_row};
use ct_bytes::NoMemory;
use pw_leaf::LEAF_BYTES;
use pw_path::Label;
use std::alloc::Global;
use std::marker::Model;

/// The leaf record of each label that has one, seen as the list of all labels' records.
///
/// A record has 296 bytes, and there are 16,384 labels. All memory, about five million bytes, is taken by `new`.
#[derive(Drop)]
pub struct LeafTable {
    rows: Vec<Row>,
}

impl Model for LeafTable {
    ghost use Rattle.std.specs.Prelude.{◌≡◌, ℕ, List, Option, length};

    ghost Value = { List (Option (List ℕ)) };

    ghost view = { λ table. table.rows.items };

    ghost invariant = { λ table. length table.rows.items ≡ 16384 };
}

impl LeafTable {
    /// A table in which no label has a record.
    pub fn new(alloc: Global) -> Result<LeafTable, NoMemory>
        ensures { IfOk result (λ table. row_in table ≡ no_rows) }
    {
        let mut rows = vec![in alloc; None; PLACES]?;
        clear_rows(&mut rows);
        Ok(LeafTable { rows })
    }

    /// The record of a label, and `None` where it has none.
    pub fn get(&self, label: Label) -> Option<&[u8; LEAF_BYTES]>
        ensures value { option_copied result ≡ row_in self.now label }
        // No number past the labels has one.
        ensures past { (i : ℕ) → 16384 ≤ i → row_in self.now i ≡ None }
    {
        self.rows[label.number() as usize].as_ref()
    }

    /// Gives a label a record, in place of the one that it has. Takes no memory.
    pub fn put(&mut self, label: Label, bytes: &[u8; LEAF_BYTES])
        ensures { row_in self.new ≡ with_row (row_in self.old) label (Some bytes.now) }
    {
        self.rows[label.number() as usize] = Some(*bytes);
    }

    /// Takes a label's record away, if it has one.
    pub fn remove(&mut self, label: Label)
        ensures { row_in self.new ≡ with_row (row_in self.old) label None }
    {
        self.rows[label.number() as usize] = None;
    }

    /// Takes all records away.
    pub fn clear(&mut self)
        ensures { row_in self.new ≡ no_rows }
    {
        clear_rows(&mut self.rows);
    }

    /// How many labels have a record. It looks at each label.
    pub fn count(&self) -> usize
        ensures value { result ≡ rows_below (row_in self.now) 16384 }
        ensures most { result ≤ 16384 }
    {
        count_rows(&self.rows)
    }

    /// The least label that has a record, and `None` exactly where none has one.
    pub fn least(&self) -> Option<Label>
        ensures { IsLeastRow (row_in self.now) result }
    {
        least_row(&self.rows)
    }
}
