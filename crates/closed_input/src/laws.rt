//! What holds of closed inputs: each law is the contract of a function that does nothing, which a caller calls to have the law.
ghost use Rattle.std.specs.Prelude.{◌≡◌, ℕ, ◌<◌, ◌≤◌, ◌++◌, true, length, nat_eq, slice_get, Some};
ghost use Rattle.std.specs.List.{AllByRecursion, IsDistinct};
ghost use Rattle.reach.specs.Reach.{has};
ghost use Rattle.lar_typed.specs.TreeView.{Contents, IsTypedTree, plain};
ghost use Rattle.mono_items.specs.declared.items.MonoGraph.{MonoGraph};
ghost use Rattle.mono_items.specs.declared.items.UnitPlan.{UnitPlan};
ghost use Rattle.mono_items.specs.Units.{IsGraph};
ghost use Rattle.mono_graph.specs.Graphs.{IsGraphOf};
ghost use Rattle.unit_input.specs.Rules.{IsInput};
ghost use Rattle.closed_input.specs.Lawful.{IsLawful};
ghost use Rattle.closed_input.specs.Held.{IsHeld};
ghost use Rattle.closed_input.specs.Unit.{IsPlanned, callees_at, externals, input, instance_at, own};

/// The instances of a graph have the arguments that their functions ask for.
pub fn items()
    ensures { (tree : Contents) (graph : MonoGraph) (p : ℕ) → IsTypedTree tree → IsGraphOf tree graph → p < length graph.items.items → IsLawful (plain tree) (instance_at tree graph.items.items p) }
{}

/// The two lists of a unit: their items are there, none stands in them twice, and what a function of the unit calls is in them.
pub fn lists()
    ensures inside { (tree : Contents) (graph : MonoGraph) (plan : UnitPlan) → IsGraph tree graph → IsPlanned graph plan → AllByRecursion (λ p. p < length graph.items.items) (own plan ++ externals tree graph plan) }
    ensures once { (tree : Contents) (graph : MonoGraph) (plan : UnitPlan) → IsGraph tree graph → IsPlanned graph plan → IsDistinct nat_eq (own plan ++ externals tree graph plan) }
    ensures called { (tree : Contents) (graph : MonoGraph) (plan : UnitPlan) (i p q : ℕ) → IsGraph tree graph → IsPlanned graph plan → slice_get (own plan) i ≡ Some p → has nat_eq q (callees_at graph.callees.items p) ≡ true → (j : ℕ) × (slice_get (own plan ++ externals tree graph plan) j ≡ Some q) }
{}

/// The input of a unit keeps the rules of inputs: it is closed, since each number in it is in range, and each place takes as many
/// words as stand in it. What a machine brings along that holds it is a premise, `IsHeld`.
pub fn inputs_keep()
    ensures { (tree : Contents) (graph : MonoGraph) (plan : UnitPlan) (level : ℕ) → level ≤ 2 → IsTypedTree tree → IsGraph tree graph → IsGraphOf tree graph → IsPlanned graph plan → IsHeld (input tree graph plan level) → IsInput (input tree graph plan level) }
{}
