//! Parts and nesting.
ghost use Rattle.std.specs.Prelude.{◌≡◌, ℕ, ◌<◌, ◌≤◌, ◌⊎◌, ◌↔◌, IsTrue, List, length, OnOk, min, max, ◌+◌, ◌-◌, ◌^◌};
ghost use Rattle.type_table.specs.declared.row.Row.{Row};
ghost use Rattle.type_table.specs.Rows.{type_at};
ghost use Rattle.type_sizes.specs.Sizes.{parts, nesting, IsSize, AreSizes};

use std::alloc::AllocError;
use type_table::{Row, Types};

/// The parts and the nesting of a type; the last value stands for it and all above.
#[derive(Clone, Copy, Debug, Drop)]
pub struct Size {
    pub parts: u16,
    pub nesting: u16,
}

/// A size of these numbers.
fn size_of(parts: u16, nesting: u16) -> Size
    ensures { (result.parts ≡ parts) × (result.nesting ≡ nesting) }
{
    Size { parts, nesting }
}

/// The size of a list, from those of its first member and of the others.
fn joined(first: Size, others: Size) -> Size
    ensures parts { result.parts ≡ min (others.parts + first.parts) (2 ^ 16 - 1) }
    ensures nesting { result.nesting ≡ max others.nesting first.nesting }
{
    size_of(
        others.parts.saturating_add(first.parts),
        others.nesting.max(first.nesting),
    )
}

/// The size of a tuple or struct, from that of its list.
fn wrapped(list: Size) -> Size
    ensures parts { result.parts ≡ min (list.parts + 1) (2 ^ 16 - 1) }
    ensures nesting { result.nesting ≡ min (list.nesting + 1) (2 ^ 16 - 1) }
{
    size_of(list.parts.saturating_add(1), list.nesting.saturating_add(1))
}

/// The size of a row's type, where those of earlier rows are known.
fn measured(types: &Types, sizes: &[Size], number: usize) -> Size
    requires within { number < length types.now }
    requires next { number ≡ length sizes.now }
    requires known { AreSizes types.now sizes.now }
    ensures { IsSize types.now number result }
{
    match types.row(number) {
        Row::Int => size_of(1, 0),
        Row::Bool => size_of(1, 0),
        Row::Param(_) => size_of(1, 0),
        Row::Number(_) => size_of(0, 0),
        Row::End => size_of(0, 0),
        Row::More(first, others) => joined(sizes[first], sizes[others]),
        Row::Tuple(list) => match types.row(list) {
            Row::End => size_of(1, 0),
            _ => wrapped(sizes[list]),
        },
        Row::Struct(_, list) => wrapped(sizes[list]),
    }
}

/// The size of each row, those of new rows after the ones that are known.
pub fn sizes(types: &Types, known: &mut Vec<Size>) -> Result<(), AllocError>
    requires len { length known.old.items ≤ length types.now }
    requires known { AreSizes types.now known.old.items }
    ensures len { OnOk result (length known.new.items ≡ length types.now) }
    ensures known { AreSizes types.now known.new.items }
{
    for number in known.len()..types.len() {
        let size = measured(types, known, number);
        known.push(size)?;
    }
    Ok(())
}

/// Whether a type may not be an argument of a call.
pub fn is_too_large(size: Size) -> bool
    ensures { (rows : List Row) (r : ℕ) → IsSize rows r size → IsTrue result ↔ ((16 < nesting (type_at rows r)) ⊎ (255 < parts (type_at rows r))) }
{
    size.nesting > 16 || size.parts > 255
}
