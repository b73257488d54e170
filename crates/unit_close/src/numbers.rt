//! The numbers that stand for const generics.
ghost use Rattle.std.specs.Prelude.{◌≡◌, ◌<◌, ◌++◌, length, IfOk, OnOk, Some};
ghost use Rattle.type_table.specs.Rows.{type_at};
ghost use Rattle.closed_input.specs.Bodies.{number_value};
ghost use Rattle.unit_close.specs.Functions.{numbers_of};

use std::alloc::{AllocError, Global};
use type_table::{Row, Types};

/// The number that a row is, or 0 for a type.
fn number_at(types: &Types, row: usize) -> i64
    requires { row < length types.now }
    ensures { result ≡ number_value (Some (type_at types.now row)) }
{
    match types.row(row) {
        Row::Number(value) => value,
        _ => 0,
    }
}

fn put_numbers(types: &Types, list: usize, out: &mut Vec<i64>) -> Result<(), AllocError>
    requires { list < length types.now }
    ensures { OnOk result (out.new.items ≡ out.old.items ++ numbers_of (type_at types.now list)) }
{
    match types.row(list) {
        Row::More(first, others) => {
            out.push(number_at(types, first))?;
            put_numbers(types, others, out)
        }
        _ => Ok(()),
    }
}

/// The numbers in a list of arguments, by place; 0 for an argument that is a type.
pub(crate) fn numbers_of(alloc: Global, types: &Types, list: usize) -> Result<Vec<i64>, AllocError>
    requires { list < length types.now }
    ensures { IfOk result (λ numbers. numbers.items ≡ numbers_of (type_at types.now list)) }
{
    let mut out = Vec::new(alloc);
    put_numbers(types, list, &mut out)?;
    Ok(out)
}
