//! The copies of a codegen unit.
//!
//! An item without a home is compiled into each unit that needs it: it is a copy in a unit where calls lead to it from an item of
//! the unit through items without a home alone. A call of an item with a home leads out of the unit, and nothing behind it counts.
//! So copies are what is found from the unit's own items by the calls that lead to items without a home (`free_calls`).
//!
//! One list of marks serves all units, each of which has a mark of its own, above those of the units before. So no list is cleared
//! or made for each unit, and a unit costs its own items, its copies and their calls.
//! The crate stands on reach.
#![tactic(auto)]

ghost use Rattle.std.specs.Prelude.{◌≡◌, ℕ, ◌<◌, ◌≤◌, List, [], ◌∷◌, length, OnOk, IfOk, All, nat_eq};
ghost use Rattle.std.specs.List.{IsDistinct};
ghost use Rattle.reach.specs.Reach.{IsFound};
ghost use Rattle.cgu_copies.specs.Copies.{free_calls, IsMarked, InRange, Reached};

pub mod laws;

use std::alloc::{AllocError, Global};

#[cfg(test)]
mod tests;

/// Adds the item that a call leads to, unless it has a home or is there.
fn reach_one(
    target: usize,
    homeless: &[bool],
    mark: usize,
    seen: &mut [usize],
    found: &mut Vec<usize>,
) -> Result<(), AllocError>
    requires inside { target < length homeless.now }
    requires seen { length seen.old ≡ length homeless.now }
    requires marks { All (λ s. s ≤ mark) seen.old }
    requires marked { IsMarked mark seen.old found.old.items }
    ensures reached { OnOk result (Reached homeless.now mark (target ∷ []) found.old.items seen.new found.new.items) }
    ensures marks { OnOk result (All (λ s. s ≤ mark) seen.new) }
{
    if !homeless[target] {
        return Ok(());
    }
    if seen[target] == mark {
        return Ok(());
    }
    found.push(target)?;
    seen[target] = mark;
    Ok(())
}

/// Adds the items without a home that a row of calls leads to.
fn reach_row(
    row: &[usize],
    homeless: &[bool],
    mark: usize,
    seen: &mut [usize],
    found: &mut Vec<usize>,
) -> Result<(), AllocError>
    requires row { All (λ t. t < length homeless.now) row.now }
    requires seen { length seen.old ≡ length homeless.now }
    requires marks { All (λ s. s ≤ mark) seen.old }
    requires marked { IsMarked mark seen.old found.old.items }
    ensures reached { OnOk result (Reached homeless.now mark row.now found.old.items seen.new found.new.items) }
    ensures marks { OnOk result (All (λ s. s ≤ mark) seen.new) }
{
    for target in row {
        reach_one(*target, homeless, mark, seen, found)?;
    }
    Ok(())
}

/// The items of a unit, with its copies behind them in the order in which they are found. `callees` has the targets of each item's
/// calls; `homeless` says of each item whether it has no home; `home` are the unit's own items, and the marks so far are below the
/// unit's.
pub fn copies(
    alloc: Global,
    callees: &[Vec<usize>],
    homeless: &[bool],
    home: &[usize],
    mark: usize,
    seen: &mut [usize],
) -> Result<Vec<usize>, AllocError>
    requires graph { InRange callees.now (length homeless.now) }
    requires count { length callees.now ≡ length homeless.now }
    requires home { All (λ t. t < length homeless.now) home.now }
    requires once { IsDistinct nat_eq home.now }
    requires seen { length seen.old ≡ length homeless.now }
    requires fresh { All (λ s. s < mark) seen.old }
    ensures found { IfOk result (λ us. IsFound nat_eq (free_calls callees.now homeless.now) home.now us.items) }
    ensures marked { IfOk result (λ us. IsMarked mark seen.new us.items) }
    ensures inside { IfOk result (λ us. All (λ t. t < length homeless.now) us.items) }
    ensures marks { OnOk result (All (λ s. s ≤ mark) seen.new) }
{
    let mut found = Vec::new(alloc);
    for item in home {
        found.push(*item)?;
        seen[*item] = mark;
    }
    let mut member = 0;
    while member < found.len() {
        let item = found[member];
        let row = callees[item].as_slice();
        reach_row(row, homeless, mark, seen, &mut found)?;
        member += 1;
    }
    Ok(found)
}
