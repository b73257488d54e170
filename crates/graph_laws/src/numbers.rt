//! The numbers in a table of types.
ghost use Rattle.std.specs.Prelude.{◌≡◌, ◌<◌, ◌^◌, length, pos};
ghost use Rattle.type_table.specs.Rows.{IsTable};
ghost use Rattle.graph_laws.specs.Numbers.{IsSmall, SmallRow, AreSmall};

use type_table::{Row, Types};

/// A number of 64 bits.
fn small(value: i64)
    ensures { IsSmall value }
{
    let _value = value;
}

/// A row's number is one of 64 bits.
fn small_row(row: Row)
    ensures { SmallRow row }
{
    match row {
        Row::Number(value) => small(value),
        _ => {}
    }
}

/// Reads all rows: each number in them is one of 64 bits, so its text says which it is.
pub fn read_numbers(types: &Types)
    ensures small { AreSmall types.now }
    ensures table { IsTable types.now }
{
    for number in 0..types.len() {
        small_row(types.row(number));
    }
}
