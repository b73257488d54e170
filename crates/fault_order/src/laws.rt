//! In which orders faults may be noted: each law is the contract of a function that does nothing, which a caller calls to have it.

ghost use Rattle.std.specs.Prelude.{◌≡◌, List, [], ◌++◌, Option, None};
ghost use Rattle.lar_tree.specs.Lawful.{Every};
ghost use Rattle.lar_tree.specs.Items.{flat_struct, flat_head};
ghost use Rattle.lar_tree.specs.Stmts.{flat_block};
ghost use Rattle.lar_rules.specs.Fault.{Fault, least};
ghost use Rattle.lar_rules.specs.Declared.{Source, Declared, Struct, Function, declared};
ghost use Rattle.lar_rules.specs.Structs.{struct_faults};
ghost use Rattle.lar_rules.specs.Twice.{repeated_items};
ghost use Rattle.lar_rules.specs.Faults.{none_yet, max_functions, past_limit, faults};
ghost use Rattle.fault_order.specs.Places.{StandsIn, AreSourcesOrdered};
ghost use Rattle.fault_order.specs.Order.{head_faults, body_faults, struct_part, head_part, body_part, declaration_part, parts_from, AllDifferent, merged};

/// Two lists may be looked at in either order where no fault of the one is told for one of the other.
pub fn swapped()
    ensures { (best : Option Fault) (xs ys : List Fault) → AllDifferent xs ys → least best (xs ++ ys) ≡ least best (ys ++ xs) }
{}

/// The least of a list may be taken alone, and then with what was found before.
pub fn merges()
    ensures { (best : Option Fault) (fs : List Fault) → least best fs ≡ merged best (least None fs) }
{}

/// The faults of a struct, of a function's names and types, and of its body stand at their tokens.
pub fn places()
    ensures structs { (all : List Declared) (x : Struct) → Every (StandsIn x.from.file (flat_struct x.it)) (struct_faults all x) }
    ensures heads { (all : List Declared) (x : Function) → Every (StandsIn x.from.file (flat_head x.it)) (head_faults all x) }
    ensures bodies { (all : List Declared) (x : Function) → Every (StandsIn x.from.file (flat_block x.it.body)) (body_faults all x) }
{}

/// Where the tokens of each source are in order, the same fault is told if names that are defined twice and too many functions come
/// first, then all declarations, and then all bodies; of the declarations the structs may come before the functions.
pub fn orders()
    ensures by_kind { (sources : List Source) → AreSourcesOrdered sources → least None (faults sources) ≡ least None ((repeated_items [] (declared sources) ++ past_limit (declared sources) max_functions) ++ (parts_from struct_part (declared sources) none_yet (declared sources) ++ (parts_from head_part (declared sources) none_yet (declared sources) ++ parts_from body_part (declared sources) none_yet (declared sources)))) }
    ensures by_place { (sources : List Source) → AreSourcesOrdered sources → least None (faults sources) ≡ least None ((repeated_items [] (declared sources) ++ past_limit (declared sources) max_functions) ++ (parts_from declaration_part (declared sources) none_yet (declared sources) ++ parts_from body_part (declared sources) none_yet (declared sources))) }
{}
