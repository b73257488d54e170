//! Units as plans: their own items and their copies, in the order of symbols.
ghost use Rattle.std.specs.Prelude.{◌≡◌, ◌<◌, ◌≤◌, length, OnOk, IfOk, All, nat_eq};
ghost use Rattle.std.specs.List.{AllZip, IsDistinct};
ghost use Rattle.cgu_partition.specs.Placed.{AreListed, ArePlaces, IsFilled, AreFilled, IsPlaced};
ghost use Rattle.cgu_partition.specs.Buckets.{AreShared, AreRanks};

use crate::buckets::homes_in_order;
use crate::ranks::{copies_in_order, ranks_of};
use cgu_copies::copies;
use cgu_merge::MergedUnit;
use lar_bytes::Text;
use mono_items::UnitPlan;
use std::alloc::{AllocError, Global};

/// The plan of a unit with these items of its own.
fn plan_of(
    alloc: Global,
    order: &[usize],
    ranks: &[usize],
    homeless: &[bool],
    callees: &[Vec<usize>],
    unit: &MergedUnit,
    own: &[usize],
    mark: usize,
    seen: &mut [usize],
) -> Result<UnitPlan, AllocError>
    requires listed { AreListed (length seen.old) order.now homeless.now callees.now }
    requires ranks { AreRanks order.now (length homeless.now) ranks.now }
    requires own { All (λ p. p < length homeless.now) own.now }
    requires once { IsDistinct nat_eq own.now }
    requires fresh { All (λ s. s < mark) seen.old }
    ensures plan { IfOk result (λ plan. IsFilled order.now homeless.now callees.now unit.now own.now plan) }
    ensures seen { OnOk result (All (λ s. s ≤ mark) seen.new) }
{
    let found = copies(alloc, callees, homeless, own, mark, seen)?;
    let copies = copies_in_order(alloc, order, ranks, homeless, found.as_slice())?;
    let home = own.to_vec(alloc)?;
    let name = Text::copied(alloc, unit.name.as_str())?;
    Ok(UnitPlan {
        name,
        size: unit.size,
        home,
        copies,
    })
}

/// The plans of the units, each with its items. All marks so far are 0.
fn plans_with(
    alloc: Global,
    order: &[usize],
    ranks: &[usize],
    homeless: &[bool],
    callees: &[Vec<usize>],
    units: &[MergedUnit],
    homes: &[Vec<usize>],
    seen: &mut [usize],
) -> Result<Vec<UnitPlan>, AllocError>
    requires listed { AreListed (length seen.old) order.now homeless.now callees.now }
    requires ranks { AreRanks order.now (length homeless.now) ranks.now }
    requires count { length homes.now ≡ length units.now }
    requires homes { All (λ h. All (λ p. p < length homeless.now) h.items) homes.now }
    requires once { All (λ h. IsDistinct nat_eq h.items) homes.now }
    requires seen { All (λ s. s ≤ 0) seen.old }
    ensures { IfOk result (λ plans. AreFilled order.now homeless.now callees.now units.now homes.now (length units.now) plans.items) }
{
    let mut plans = Vec::new(alloc);
    for (number, unit) in units.iter().enumerate() {
        let own = homes[number].as_slice();
        let mark = number + 1;
        let plan = plan_of(
            alloc, order, ranks, homeless, callees, unit, own, mark, seen,
        )?;
        plans.push(plan)?;
    }
    Ok(plans)
}

/// The plans of the units; `firsts` is how many names of homes there are.
pub(crate) fn plans_of(
    alloc: Global,
    order: &[usize],
    owners: &[Option<usize>],
    homeless: &[bool],
    callees: &[Vec<usize>],
    units: &[MergedUnit],
    firsts: usize,
) -> Result<Vec<UnitPlan>, AllocError>
    requires places { ArePlaces (length homeless.now) order.now owners.now homeless.now callees.now firsts }
    requires firsts { All (λ u. All (λ p. p < firsts) u.firsts.items) units.now }
    requires shared { AreShared firsts units.now }
    ensures { IfOk result (λ plans. AllZip (IsPlaced order.now owners.now homeless.now callees.now) units.now plans.items) }
{
    let ranks = ranks_of(alloc, order, homeless.len())?;
    let homes = homes_in_order(alloc, order, owners, units, firsts)?;
    let mut seen = vec![in alloc; 0; homeless.len()]?;
    plans_with(
        alloc,
        order,
        ranks.as_slice(),
        homeless,
        callees,
        units,
        homes.as_slice(),
        seen.as_mut_slice(),
    )
}
