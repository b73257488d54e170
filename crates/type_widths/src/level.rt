//! How many structs deep types are.
ghost use Rattle.std.specs.Prelude.{◌≡◌, ℕ, ◌<◌, ◌≤◌, length, IfOk, slice_index};
ghost use Rattle.type_table.specs.Rows.{type_at};
ghost use Rattle.type_table.specs.Depth.{depth_of, AreFalling};
ghost use Rattle.type_widths.specs.Level.{level_of, AreLevels};

use std::alloc::{AllocError, Global};
use type_table::{Row, StructDecl, Types};

/// The depth of a struct; one that is not there has none.
fn depth(structs: &[StructDecl], name: usize) -> usize
    ensures { result ≡ depth_of structs.now name }
{
    match structs.get(name) {
        Some(decl) => decl.depth,
        None => 0,
    }
}

/// The level of a row's type, where those of earlier rows are known.
fn level(types: &Types, structs: &[StructDecl], levels: &[usize], number: usize) -> usize
    requires falling { AreFalling types.now structs.now }
    requires within { number < length types.now }
    requires next { number ≡ length levels.now }
    requires known { AreLevels types.now structs.now levels.now }
    ensures { result ≡ level_of (depth_of structs.now) (type_at types.now number) }
{
    match types.row(number) {
        Row::Int => 0,
        Row::Bool => 0,
        Row::Param(_) => 0,
        Row::Number(_) => 0,
        Row::End => 0,
        Row::More(first, others) => levels[first].max(levels[others]),
        Row::Tuple(parts) => levels[parts],
        Row::Struct(name, list) => depth(structs, name).saturating_add(1).max(levels[list]),
    }
}

/// The level of each row's type.
pub(crate) fn levels(
    alloc: Global,
    types: &Types,
    structs: &[StructDecl],
) -> Result<Vec<usize>, AllocError>
    requires { AreFalling types.now structs.now }
    ensures count { IfOk result (λ levels. length levels.items ≡ length types.now) }
    ensures each { IfOk result (λ levels. AreLevels types.now structs.now levels.items) }
{
    let mut levels = Vec::new(alloc);
    for number in 0..types.len() {
        let level = level(types, structs, &levels, number);
        levels.push(level)?;
    }
    Ok(levels)
}

/// The greatest of the levels.
pub(crate) fn deepest(levels: &[usize]) -> usize
    ensures { (r : ℕ) → r < length levels.now → slice_index levels.now r ≤ result }
{
    let mut most = 0;
    for level in levels {
        most = most.max(*level);
    }
    most
}
