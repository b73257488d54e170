//! What holds of the parts that are made: each law is the contract of a function that does nothing, which a caller
//! calls to have it.
ghost use Rattle.std.specs.Prelude.{◌≡◌, ℕ, List, Option, None};
ghost use Rattle.type_table.specs.declared.row.Row.{Row};
ghost use Rattle.type_table.specs.Rows.{Keeps};
ghost use Rattle.lar_typed.specs.Stmts.{StmtsOf};
ghost use Rattle.lar_typed.specs.Trees.{FunctionOf, PlainFunction};
ghost use Rattle.lar_rules.specs.Functions.{body_done};
ghost use Rattle.lar_rules.specs.Printed.{joined};
ghost use Rattle.lar_rules.specs.Signatures.{outcome, function_sorts};
ghost use Rattle.lar_rules.specs.Checked.{typed_function};
ghost use Rattle.lar_rules.specs.Declared.{Declared, Function, Source, declared};
ghost use Rattle.lar_rules.specs.Faults.{first_fault, fault_or_main};
ghost use Rattle.lar_sound.specs.InOrder.{known_tree};
ghost use Rattle.lar_sound.specs.Sources.{AreSources};
ghost use Rattle.fault_order.specs.Places.{AreSourcesOrdered};
ghost use Rattle.type_table.specs.declared.decl.StructDecl.{StructDecl};
ghost use Rattle.lar_typed.specs.declared.tree.TypedConst.{TypedConst};
ghost use Rattle.lar_typed.specs.declared.tree.TypedFunction.{TypedFunction};
ghost use Rattle.lar_typed.specs.TreeView.{IsTypedTree, contents, plain};
ghost use Rattle.lar_assembled.specs.Programs.{ItemsStand, noted};
ghost use Rattle.lar_written.specs.Standing.{StandsIf, AllStand};
ghost use Rattle.lar_assembled.specs.Functions.{all_there, function_with, FunctionStandsIf, BodyStandsIf};

/// A function that is made of what stands for the types of the rules stands for the function of the rules, where there
/// is one.
pub fn functions()
    ensures { (rows : List Row) (all : List Declared) (x : Function) (locals : List (Option ℕ)) (result : Option ℕ) (body : Option (StmtsOf ℕ))
        → AllStand rows locals (body_done all x).after.types → StandsIf rows result (outcome all x) → BodyStandsIf rows body (body_done all x).typed
        → FunctionStandsIf rows (function_with (joined x.from.modules) x.it (function_sorts x) (all_there locals) result body) (typed_function all x) }
{}

/// What stands in a table stands in a larger one.
pub fn kept()
    ensures { (old new : List Row) (f : Option (FunctionOf ℕ)) (p : Option PlainFunction) → Keeps old new → FunctionStandsIf old f p → FunctionStandsIf new f p }
{
    lar_typed::laws::kept();
}

/// What was noted of ordered sources, in this order, is the first fault, but for that of `main`.
pub fn first_faults()
    ensures { (sources : List Source) → AreSourcesOrdered sources → first_fault sources ≡ fault_or_main (noted (declared sources)) (declared sources) }
{
    fault_order::laws::orders();
}

/// Where there is no fault, the tree of all items that are known is that of the rules, and keeps the facts of a typed
/// tree.
pub fn programs()
    ensures facts { (sources : List Source) (rows : List Row) (ss : List StructDecl) (cs : List TypedConst) (fs : List TypedFunction)
        → AreSources sources → first_fault sources ≡ None → ItemsStand rows (declared sources) ss cs fs → IsTypedTree (contents rows ss cs fs) }
    ensures same { (sources : List Source) (rows : List Row) (ss : List StructDecl) (cs : List TypedConst) (fs : List TypedFunction)
        → first_fault sources ≡ None → ItemsStand rows (declared sources) ss cs fs → known_tree (declared sources) ≡ plain (contents rows ss cs fs) }
{
    lar_sound::laws::in_order();
    lar_sound::laws::sound();
}
