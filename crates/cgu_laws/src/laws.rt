//! What holds of the units of a graph: a law is the contract of a function that does nothing, which a caller calls to have it.
ghost use Rattle.std.specs.Prelude.{◌≡◌, ℕ, ◌<◌, ◌++◌, ◌⊎◌, true, List, length, slice_get, Some, nat_eq};
ghost use Rattle.std.specs.List.{IsDistinct};
ghost use Rattle.reach.specs.Reach.{has};
ghost use Rattle.cgu_copies.specs.Copies.{row_of};
ghost use Rattle.lar_typed.specs.TreeView.{Contents};
ghost use Rattle.mono_items.specs.declared.items.MonoItem.{MonoItem};
ghost use Rattle.mono_items.specs.declared.items.MonoGraph.{MonoGraph};
ghost use Rattle.mono_items.specs.declared.items.UnitPlan.{UnitPlan};
ghost use Rattle.mono_items.specs.Homes.{has_home};
ghost use Rattle.mono_items.specs.Units.{IsGraph, AreUnits};
ghost use Rattle.cgu_laws.specs.Shared.{at_home, IsHome, has_item};

/// How units share items: an item with a home is at home in one unit, and items at home have one; what an item of a unit calls is
/// in the unit or at home in one; no unit has an item twice, and none has what is not an item.
pub fn units()
    ensures homes { (tree : Contents) (graph : MonoGraph) (limit : ℕ) (plans : List UnitPlan) (p : ℕ) (x : MonoItem) → IsGraph tree graph → AreUnits tree graph limit plans → slice_get graph.items.items p ≡ Some x → has_home x ≡ true → (k : ℕ) × IsHome plans p k }
    ensures only { (tree : Contents) (graph : MonoGraph) (limit : ℕ) (plans : List UnitPlan) (k p : ℕ) → IsGraph tree graph → AreUnits tree graph limit plans → at_home plans k p ≡ true → (x : MonoItem) × (slice_get graph.items.items p ≡ Some x) × (has_home x ≡ true) }
    ensures callees { (tree : Contents) (graph : MonoGraph) (limit : ℕ) (plans : List UnitPlan) (k p t : ℕ) (plan : UnitPlan) → IsGraph tree graph → AreUnits tree graph limit plans → slice_get plans k ≡ Some plan → has_item plan p ≡ true → has nat_eq t (row_of (slice_get graph.callees.items p)) ≡ true → (has_item plan t ≡ true) ⊎ ((j : ℕ) × IsHome plans t j) }
    ensures once { (tree : Contents) (graph : MonoGraph) (limit : ℕ) (plans : List UnitPlan) (k : ℕ) (plan : UnitPlan) → IsGraph tree graph → AreUnits tree graph limit plans → slice_get plans k ≡ Some plan → IsDistinct nat_eq (plan.home.items ++ plan.copies.items) }
    ensures inside { (tree : Contents) (graph : MonoGraph) (limit : ℕ) (plans : List UnitPlan) (k p : ℕ) (plan : UnitPlan) → IsGraph tree graph → AreUnits tree graph limit plans → slice_get plans k ≡ Some plan → has_item plan p ≡ true → p < length graph.items.items }
{}
