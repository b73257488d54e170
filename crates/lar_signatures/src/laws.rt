//! What holds of all signatures: each law is the contract of a function that does nothing, which a caller calls to have the law.
ghost use Rattle.std.specs.Prelude.{◌≡◌, ◌==◌, ◌≤◌, ℕ, List, Some, length, map, slice_get};
ghost use Rattle.type_table.specs.declared.row.Row.{Row};
ghost use Rattle.type_table.specs.Rows.{Keeps, type_at};
ghost use Rattle.type_sizes.specs.Spelling.{struct_text};
ghost use Rattle.lar_typed.specs.Trees.{struct_map};
ghost use Rattle.lar_typed.specs.TreeView.{struct_view};
ghost use Rattle.lar_typed.specs.Within.{StructsWithin};
ghost use Rattle.lar_rules.specs.Declared.{Declared, Struct, Function, function_meant, struct_meant};
ghost use Rattle.lar_rules.specs.Faults.{none_yet};
ghost use Rattle.lar_rules.specs.Printed.{struct_path};
ghost use Rattle.lar_rules.specs.Signatures.{struct_numbered};
ghost use Rattle.lar_rules.specs.Structs.{is_followed, followers, max_chain};
ghost use Rattle.lar_sound.specs.InOrder.{structs_from};
ghost use Rattle.lar_names.specs.declared.names.Names.{Names};
ghost use Rattle.lar_names.specs.NamesView.{names_view};
ghost use Rattle.lar_names.specs.Numbered.{function_numbered};
ghost use Rattle.lar_tree.specs.declared.name.Path.{Path};
ghost use Rattle.lar_signatures.specs.declared.signatures.Signatures.{Signatures};
ghost use Rattle.lar_signatures.specs.Depths.{AreDepths};
ghost use Rattle.lar_signatures.specs.EachStands.{IfStands};
ghost use Rattle.lar_signatures.specs.Signatures.{StructStands, FunctionStands, DeclStands, SignaturesStand, struct_if_known};

/// What stands in a table stands in a larger one.
pub fn grown()
    ensures { (old new : List Row) (all : List Declared) (s : Signatures) → Keeps old new → SignaturesStand old all s → SignaturesStand new all s }
{}

/// The signature of a number stands for the item of that number, where there is one.
pub fn by_number()
    ensures structs { (rows : List Row) (all : List Declared) (s : Signatures) (n : ℕ) → SignaturesStand rows all s → IfStands (StructStands rows all) (slice_get s.structs.items n) (struct_numbered all n) }
    ensures functions { (rows : List Row) (all : List Declared) (s : Signatures) (n : ℕ) → SignaturesStand rows all s → IfStands (FunctionStands rows all) (slice_get s.functions.items n) (function_numbered all n) }
    ensures decls { (rows : List Row) (all : List Declared) (s : Signatures) (n : ℕ) → SignaturesStand rows all s → IfStands (DeclStands rows all) (slice_get s.decls n) (struct_numbered all n) }
{}

/// The struct or the function that a path means is the one of its number.
pub fn meant()
    ensures structs { (all : List Declared) (here : List (List ℕ)) (p : Path) (x : Struct) → struct_meant all here p ≡ Some x → struct_numbered all x.number ≡ Some x }
    ensures functions { (all : List Declared) (here : List (List ℕ)) (p : Path) (x : Function) → function_meant all here p ≡ Some x → function_numbered all x.number ≡ Some x }
{}

/// Types are printed by these structs as the rules say.
pub fn printed()
    ensures { (rows : List Row) (names : Names) (s : Signatures) (n : ℕ) → SignaturesStand rows (names_view names) s → struct_text s.decls n ≡ struct_path (names_view names) n }
{}

/// A struct is followed by n others exactly where its followers up to n are n.
pub fn followed()
    ensures as_many { (all : List Declared) (n : ℕ) (x : Struct) → is_followed all n x ≡ (followers all n x == n) }
    ensures at_most { (all : List Declared) (n : ℕ) (x : Struct) → followers all n x ≤ n }
{}

/// The followers of all structs, in reading order, are their depths.
pub fn depths()
    ensures { (all : List Declared) (ns : List ℕ) → ns ≡ map (followers all max_chain) (structs_from none_yet all) → AreDepths all ns }
{}

/// The structs as types name them stand for all structs, in reading order.
pub fn in_order()
    ensures within { (rows : List Row) (all : List Declared) (s : Signatures) → SignaturesStand rows all s → StructsWithin (length rows) (map struct_view s.decls) }
    ensures are { (rows : List Row) (all : List Declared) (s : Signatures) → SignaturesStand rows all s → map (struct_map (type_at rows)) (map struct_view s.decls) ≡ map (struct_if_known all) (structs_from none_yet all) }
{}
