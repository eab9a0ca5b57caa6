//! The map: a vector of rows in the order of their names.

ghost use Rattle.std.specs.Prelude.{◌≡◌, ℕ, ◌∷◌, ◌++◌, [], ◌<◌, ◌≤◌, length, true, false, IfOk, IfErr, OnOk, OnErr, option_copied, is_some, ◌==◌};
ghost use Rattle.std.specs.Ordering.{nat_cmp};
ghost use Rattle.std.specs.Cmp.Lexicographic.{slice_cmp};
ghost use Rattle.std.specs.FinMap.{find, put};
ghost use Rattle.std.specs.FinMap as map;
ghost use Rattle.name_map.specs.Rows.{place, stands, without, IsRows};

use crate::Copied;
use ct_bytes::{NoMemory, Text};
use std::alloc::Global;
use std::cmp::Ordering;
use std::marker::Model;

/// A map from names to values, seen as a finite map by the names' bytes.
#[derive(Debug, Drop)]
pub struct NameMap<V> {
    alloc: Global,
    rows: Vec<(Text, V)>,
}

impl<V> Model for NameMap<V> {
    ghost use Rattle.std.specs.Prelude.{ℕ};
    ghost use Rattle.std.specs.Ordering.{nat_cmp};
    ghost use Rattle.std.specs.Coded.{coded_ℕ, coded_list};
    ghost use Rattle.std.specs.Cmp.Lexicographic.{slice_cmp};
    ghost use Rattle.std.specs.FinMap.{FinMap, from_sorted, code};
    ghost use Rattle.name_map.specs.Rows.{IsRows};

    ghost Value = { FinMap (slice_cmp nat_cmp) V };

    ghost coded = { code (coded_list coded_ℕ) V.code };

    ghost view = { λ m. from_sorted m.rows.items };

    ghost invariant = { λ m. IsRows m.rows.items };
}

// Where the name's row stands, or where it would.
fn seek<V>(rows: &[(Text, V)], name: &Text) -> Result<usize, usize>
    ensures found { IfOk result (λ at. (at ≡ place name.now rows.now) × (stands name.now rows.now ≡ true)) }
    ensures absent { IfErr result (λ at. (at ≡ place name.now rows.now) × (stands name.now rows.now ≡ false)) }
{
    for (at, row) in rows.iter().enumerate() {
        match name.cmp(&row.0) {
            Ordering::Greater => {}
            Ordering::Equal => return Ok(at),
            Ordering::Less => return Err(at),
        }
    }
    Err(rows.len())
}

// The value of the name's row.
fn found<'a, V>(rows: &'a [(Text, V)], name: &Text) -> Option<&'a V>
    ensures { option_copied result ≡ find (slice_cmp nat_cmp) name.now rows.now }
{
    for row in rows {
        if row.0 == *name {
            return Some(&row.1);
        }
    }
    None
}

// The name's row gets this value, or is made.
fn put<V: Drop>(rows: &mut Vec<(Text, V)>, name: Text, value: V) -> Result<(), NoMemory>
    ensures ok { OnOk result (rows.new.items ≡ put (slice_cmp nat_cmp) name value rows.old.items) }
    ensures err { OnErr result (rows.new.items ≡ rows.old.items) }
{
    match seek(rows, &name) {
        Ok(at) => {
            rows[at] = (name, value);
            Ok(())
        }
        Err(at) => Ok(rows.insert(at, (name, value))?),
    }
}

// The name's row goes.
fn leave_out<V: Drop>(rows: &mut Vec<(Text, V)>, name: &Text)
    ensures { rows.new.items ≡ without name.now rows.old.items }
{
    if let Ok(at) = seek(rows, name) {
        rows.remove(at);
    }
}

impl<V> NameMap<V> {
    /// No name.
    pub fn new(alloc: Global) -> NameMap<V>
        ensures { result ≡ map.empty }
    {
        NameMap {
            alloc,
            rows: Vec::new(alloc),
        }
    }

    /// The value of a name.
    pub fn get(&self, name: &Text) -> Option<&V>
        ensures { option_copied result ≡ map.get self.now name.now }
    {
        found(&self.rows, name)
    }

    /// The number of names.
    pub fn len(&self) -> usize
        ensures { result ≡ map.len self.now }
    {
        self.rows().len()
    }

    /// Whether there is no name.
    pub fn is_empty(&self) -> bool
        ensures { result ≡ (map.len self.now == 0) }
    {
        self.rows().is_empty()
    }

    /// The names with their values, in rising order of the names' bytes.
    pub fn rows(&self) -> &[(Text, V)]
        ensures { result.now ≡ map.entries self.now }
    {
        &self.rows
    }
}

impl<V: Drop> NameMap<V> {
    /// Gives a name this value. A refusal leaves the map as it is.
    pub fn insert(&mut self, name: Text, value: V) -> Result<(), NoMemory>
        ensures ok { OnOk result (self.new ≡ map.insert self.old name value) }
        ensures err { OnErr result (self.new ≡ self.old) }
    {
        put(&mut self.rows, name, value)
    }

    /// Takes a name away.
    pub fn remove(&mut self, name: &Text)
        ensures { self.new ≡ map.remove self.old name.now }
    {
        leave_out(&mut self.rows, name);
    }
}

impl<V: Copied + Drop> Copied for NameMap<V> {
    fn copy(&self) -> Result<NameMap<V>, NoMemory> {
        Ok(NameMap {
            alloc: self.alloc,
            rows: copies(self.alloc, &self.rows)?,
        })
    }
}

// Equal rows.
fn copies<V: Copied + Drop>(alloc: Global, rows: &[(Text, V)]) -> Result<Vec<(Text, V)>, NoMemory>
    ensures value { IfOk result (λ copies. copies.items ≡ rows.now) }
{
    let mut copies = Vec::with_capacity(alloc, rows.len())?;
    for row in rows {
        copies.push((row.0.copy()?, row.1.copy()?))?;
    }
    Ok(copies)
}
