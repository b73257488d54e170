//! What holds of sizes: each law is the contract of a function that does nothing, which a caller calls to have the law.
ghost use Rattle.std.specs.Prelude.{◌≡◌, ℕ, ◌≤◌, List, length};
ghost use Rattle.type_table.specs.declared.row.Row.{Row};
ghost use Rattle.type_table.specs.Rows.{Keeps};
ghost use Rattle.type_sizes.specs.declared.measure.Size.{Size};
ghost use Rattle.type_table.specs.declared.decl.StructDecl.{StructDecl};
ghost use Rattle.type_sizes.specs.Lengths.{AreLengths};
ghost use Rattle.type_sizes.specs.Sizes.{AreSizes};

/// Sizes that are known stay right where the table grows.
pub fn sizes_stay()
    ensures { (old new : List Row) (sizes : List Size) → Keeps old new → length sizes ≤ length old → AreSizes old sizes → AreSizes new sizes }
{}

/// Lengths that are known stay right where the table grows.
pub fn lengths_stay()
    ensures { (old new : List Row) (structs : List StructDecl) (generics : List (List ℕ)) (lengths : List ℕ) → Keeps old new → length lengths ≤ length old → AreLengths old structs generics lengths → AreLengths new structs generics lengths }
{}
