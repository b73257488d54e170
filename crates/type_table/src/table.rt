//! Rows with an index, so that a row is found by what it is.
use crate::Row;
use std::alloc::{AllocError, Global};
use std::collections::BTreeMap;
use std::marker::Model;

/// Rows without repeats, each of which names earlier ones. A type is the number of its row.
#[derive(Drop)]
pub struct Table {
    rows: Vec<Row>,
    places: BTreeMap<Row, usize>,
}

impl Model for Table {
    ghost use Rattle.std.specs.Prelude.{List};
    ghost use Rattle.type_table.specs.declared.row.Row.{Row};
    ghost use Rattle.type_table.specs.Index.{IsIndex};
    ghost use Rattle.type_table.specs.Rows.{IsTable};

    ghost Value = { List Row };

    ghost view = { λ t. t.rows.items };

    ghost invariant = { λ t. IsIndex t.rows.items t.places × IsTable t.rows.items };
}

impl Table {
    ghost use Rattle.std.specs.Prelude.{◌≡◌, ℕ, ◌<◌, List, [], ◌∷◌, ◌++◌, length, OnOk, OnErr, IfOk};
    ghost use Rattle.type_table.specs.Index.{place_of};
    ghost use Rattle.type_table.specs.Rows.{Names, IsTable, Keeps, Stands, type_at, type_of, types, row_at};

    pub fn new(alloc: Global) -> Self
        ensures { result ≡ [] }
    {
        Table {
            rows: Vec::new(alloc),
            places: BTreeMap::new(alloc),
        }
    }

    /// How many rows there are.
    pub fn len(&self) -> usize
        ensures len { result ≡ length self.now }
        ensures table { IsTable self.now }
    {
        self.rows.len()
    }

    /// The row of a type.
    pub fn row(&self, number: usize) -> Row
        requires { number < length self.now }
        ensures row { result ≡ row_at self.now number }
        ensures earlier { Names number result }
        ensures stands { type_at self.now number ≡ type_of (types self.now) result }
    {
        self.rows[number]
    }

    fn find(&self, row: Row) -> Option<usize>
        ensures place { result ≡ place_of row self.now }
        ensures table { IsTable self.now }
    {
        self.places.get(&row).copied()
    }

    fn push(&mut self, row: Row) -> Result<(), AllocError>
        requires new { place_of row self.old ≡ None }
        requires names { Names (length self.old) row }
        ensures ok { OnOk result (self.new ≡ self.old ++ row ∷ []) }
        ensures err { OnErr result (self.new ≡ self.old) }
    {
        self.rows.reserve(1)?;
        let place = self.rows.len();
        self.places.insert(row, place)?;
        self.rows.push(row)?;
        Ok(())
    }

    /// The number of a row, which is added where it is new.
    pub fn intern(&mut self, row: Row) -> Result<usize, AllocError>
        requires { Names (length self.old) row }
        ensures kept { Keeps self.old self.new }
        ensures number { IfOk result (λ n. Stands self.new n (type_of (types self.old) row)) }
        ensures err { OnErr result (self.new ≡ self.old) }
    {
        match self.find(row) {
            Some(place) => return Ok(place),
            None => {}
        }
        let place = self.len();
        self.push(row)?;
        Ok(place)
    }
}
