//! What holds of graphs and units: each law is the contract of a function that does nothing, which a caller calls to have the law.
ghost use Rattle.std.specs.Prelude.{◌≡◌, ℕ, List, map, Result};
ghost use Rattle.lar_bytes.specs.declared.memory.OrMemory.{OrMemory};
ghost use Rattle.lar_typed.specs.TreeView.{Contents};
ghost use Rattle.mono_items.specs.declared.items.MonoGraph.{MonoGraph};
ghost use Rattle.mono_graph.specs.declared.refused.RefusedCall.{RefusedCall};
ghost use Rattle.mono_graph.specs.Graphs.{IsAnswer};
ghost use Rattle.mono_graph.specs.Graphs.{IsGraphOf, instances};
ghost use Rattle.lar_typed.specs.TreeView.{plain};
ghost use Rattle.mono_items.specs.Units.{AreUnits};
ghost use Rattle.mono_items.specs.declared.items.UnitPlan.{UnitPlan};
ghost use Rattle.units_text.specs.Lines.{unit_view, unit_lines};
ghost use Rattle.program_units.specs.Collected.{IsCollected};
ghost use Rattle.program_units.specs.Units.{units_of, units_listed};

/// Whatever answer code may give for a program, it is what is collected.
pub fn answer_is_collected()
    ensures { (tree : Contents) (answer : Result MonoGraph (OrMemory RefusedCall)) → IsAnswer tree answer → IsCollected tree answer }
{}

/// Whatever units code may make of a program's graph, they are those of the program and its instances.
pub fn units_are()
    ensures units { (tree : Contents) (graph : MonoGraph) (limit : ℕ) (plans : List UnitPlan) → IsGraphOf tree graph → AreUnits tree graph limit plans → map unit_view plans ≡ units_of (plain tree) limit (instances tree graph.items.items) }
    ensures lines { (tree : Contents) (graph : MonoGraph) (limit : ℕ) (plans : List UnitPlan) → IsGraphOf tree graph → AreUnits tree graph limit plans → unit_lines (map unit_view plans) ≡ units_listed (plain tree) limit (instances tree graph.items.items) }
{}
