//! A table that replaces generics by arguments.
use crate::{Row, Table};
use std::alloc::{AllocError, Global};
use std::collections::BTreeMap;
use std::marker::Model;

/// Types by number, and what was replaced in them so far.
#[derive(Drop)]
pub struct Types {
    table: Table,
    known: BTreeMap<(usize, usize), usize>,
}

impl Model for Types {
    ghost use Rattle.std.specs.Prelude.{List};
    ghost use Rattle.type_table.specs.declared.row.Row.{Row};
    ghost use Rattle.type_table.specs.Rows.{IsTable};
    ghost use Rattle.type_table.specs.Memo.{IsMemo};

    ghost Value = { List Row };

    ghost view = { λ t. t.table };

    ghost invariant = { λ t. IsMemo t.table t.known };
}

impl Types {
    ghost use Rattle.std.specs.Prelude.{◌≡◌, ℕ, ◌<◌, List, [], length, OnOk, OnErr, IfOk};
    ghost use Rattle.type_table.specs.Rows.{Names, IsTable, Keeps, Stands, type_at, type_of, types, row_at};
    ghost use Rattle.type_table.specs.Memo.{Replaces, IfKnown};
    ghost use Rattle.type_table.specs.Substitution.{subst, argument, IsMember};

    pub fn new(alloc: Global) -> Self
        ensures { result ≡ [] }
    {
        Types {
            table: Table::new(alloc),
            known: BTreeMap::new(alloc),
        }
    }

    /// How many rows there are.
    pub fn len(&self) -> usize
        ensures len { result ≡ length self.now }
        ensures table { IsTable self.now }
    {
        self.table.len()
    }

    /// The row of a type.
    pub fn row(&self, number: usize) -> Row
        requires { number < length self.now }
        ensures row { result ≡ row_at self.now number }
        ensures earlier { Names number result }
        ensures stands { type_at self.now number ≡ type_of (types self.now) result }
    {
        self.table.row(number)
    }

    /// The number of a row, which is added where it is new.
    pub fn intern(&mut self, row: Row) -> Result<usize, AllocError>
        requires { Names (length self.old) row }
        ensures kept { Keeps self.old self.new }
        ensures number { IfOk result (λ n. Stands self.new n (type_of (types self.old) row)) }
        ensures err { OnErr result (self.new ≡ self.old) }
    {
        self.table.intern(row)
    }

    /// Member k of a list of arguments.
    pub fn argument(&self, list: usize, k: usize) -> Option<usize>
        requires { list < length self.now }
        ensures { IsMember self.now result (argument (type_at self.now list) k) }
    {
        match self.row(list) {
            Row::More(first, others) => {
                if k == 0 {
                    Some(first)
                } else {
                    self.argument(others, k - 1)
                }
            }
            _ => None,
        }
    }

    fn known(&self, ty: usize, arguments: usize) -> Option<usize>
        ensures { IfKnown self.now (ty, arguments) result }
    {
        self.known.get(&(ty, arguments)).copied()
    }

    fn learn(&mut self, ty: usize, arguments: usize, number: usize) -> Result<(), AllocError>
        requires { Replaces self.old (ty, arguments) number }
        ensures { self.new ≡ self.old }
    {
        self.known.insert((ty, arguments), number)?;
        Ok(())
    }

    /// The type with the arguments in place of its generics. No type is gone into twice for the same arguments.
    #[cycle(replacing)]
    pub fn substitute(&mut self, ty: usize, arguments: usize) -> Result<usize, AllocError>
        requires ty { ty < length self.old }
        requires arguments { arguments < length self.old }
        ensures kept { Keeps self.old self.new }
        ensures number { IfOk result (λ n. Stands self.new n (subst (type_at self.old arguments) (type_at self.old ty))) }
    {
        match self.known(ty, arguments) {
            Some(number) => return Ok(number),
            None => {}
        }
        let number = self.replaced(ty, arguments)?;
        self.learn(ty, arguments, number)?;
        Ok(number)
    }

    #[cycle(replacing)]
    fn replaced(&mut self, ty: usize, arguments: usize) -> Result<usize, AllocError>
        requires ty { ty < length self.old }
        requires arguments { arguments < length self.old }
        ensures kept { Keeps self.old self.new }
        ensures number { IfOk result (λ n. Stands self.new n (subst (type_at self.old arguments) (type_at self.old ty))) }
    {
        match self.row(ty) {
            Row::Param(k) => match self.argument(arguments, k) {
                Some(number) => Ok(number),
                None => Ok(ty),
            },
            Row::More(first, others) => {
                let first = self.substitute(first, arguments)?;
                let others = self.substitute(others, arguments)?;
                self.intern(Row::More(first, others))
            }
            Row::Tuple(parts) => {
                let parts = self.substitute(parts, arguments)?;
                self.intern(Row::Tuple(parts))
            }
            Row::Struct(number, list) => {
                let list = self.substitute(list, arguments)?;
                self.intern(Row::Struct(number, list))
            }
            Row::Int | Row::Bool | Row::Number(_) | Row::End => Ok(ty),
        }
    }
}
