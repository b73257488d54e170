//! What the rules of names and types give: each law is the contract of a function that does nothing, which a caller calls to have
//! the law. `told` and `sound` are of whole programs; the others are of their parts.

ghost use Rattle.std.specs.Prelude.{◌≡◌, ℕ, ◌<◌, ◌≤◌, true, false, List, Some, None};
ghost use Rattle.type_table.specs.TypeOf.{TypeOf};
ghost use Rattle.type_table.specs.declared.sort.Sort.{Sort};
ghost use Rattle.type_table.specs.declared.sort.Sort.TheVariants.{Ty as of_type};
ghost use Rattle.type_table.specs.Lawful.{one, fits};
ghost use Rattle.lar_typed.specs.Exprs.{PlainExpr as TypedExpr};
ghost use Rattle.lar_typed.specs.Stmts.{PlainStmts as TypedStmts};
ghost use Rattle.lar_typed.specs.Trees.{PlainTree};
ghost use Rattle.lar_typed.specs.Lawful.{Frame, lawful};
ghost use Rattle.lar_typed.specs.LawfulBody.{is_static, stmts_lawful, returns};
ghost use Rattle.lar_typed.specs.Size.{expr_size as typed_size, stmts_size as typed_block_size};
ghost use Rattle.lar_typed.specs.Paths.{item_path, is_name};
ghost use Rattle.lar_typed.specs.IsTyped.{IsTyped};
ghost use Rattle.lar_tree.specs.Types.{PlainTy};
ghost use Rattle.lar_tree.specs.Exprs.{PlainExpr};
ghost use Rattle.lar_tree.specs.Stmts.{IfThere, PlainBlock};
ghost use Rattle.lar_tree.specs.Sizes.{expr_size, block_size};
ghost use Rattle.lar_tree.specs.Lawful.{Every, LimitedType, LimitedExpr, LimitedBlock};
ghost use Rattle.lar_rules.specs.Declared.{Source, Declared, Struct, Function, declared};
ghost use Rattle.lar_rules.specs.Printed.{joined};
ghost use Rattle.lar_rules.specs.Written.{Site, written};
ghost use Rattle.lar_rules.specs.Judged.{Local, Env};
ghost use Rattle.lar_rules.specs.Exprs.{judge};
ghost use Rattle.lar_rules.specs.Bodies.{Body, State, assert_env, block_done, block_returns};
ghost use Rattle.lar_rules.specs.Functions.{function_faults};
ghost use Rattle.lar_rules.specs.Structs.{struct_faults, next_structs, is_followed, followers, max_chain};
ghost use Rattle.lar_rules.specs.Faults.{none_yet, faults_from, first_fault};
ghost use Rattle.lar_rules.specs.Checked.{typed_struct, typed_function, typed};
ghost use Rattle.lar_sound.specs.Known.{IsKnown, IsFaultless, IsTold};
ghost use Rattle.lar_sound.specs.KnownNames.{AreNamesKnown, IsBodyKnown, IsStateKnown};
ghost use Rattle.lar_sound.specs.InOrder.{known_tree};
ghost use Rattle.lar_sound.specs.Frames.{AreSortsOf, IsFrameOf, AreNumbered, IsBodyFrame};
ghost use Rattle.lar_sound.specs.Sources.{IsModules, AreSources};

/// A written type without a fault is known, and one that is known keeps the generics of each struct and the limits of tuples.
pub fn types()
    ensures told { (s : Site) (t : PlainTy) → IsTold (written s t).of (written s t).faults }
    ensures lawful { (structs : List (List Sort)) (generics : List Sort) (s : Site) → AreSortsOf structs generics s → (t : PlainTy) → LimitedType t → IfThere (λ (u : TypeOf). fits structs generics u (one of_type) ≡ true) (written s t).of }
{}

/// Where all names have types, an expression without a fault has one. One with its types is lawful in a frame that fits, static
/// where it is asserted, and no larger than it is written.
pub fn exprs()
    ensures told { (env : Env) → AreNamesKnown env → (e : PlainExpr) → IsTold (judge env e).typed (judge env e).faults }
    ensures lawful { (fr : Frame) (env : Env) → IsFrameOf fr env → (e : PlainExpr) → LimitedExpr e → IfThere (λ (x : TypedExpr). lawful fr x ≡ true) (judge env e).typed }
    ensures asserted { (b : Body) (s : State) (e : PlainExpr) → IfThere (λ (x : TypedExpr). is_static x ≡ true) (judge (assert_env b s) e).typed }
    ensures small { (env : Env) (e : PlainExpr) → IfThere (λ (x : TypedExpr). typed_size x ≤ expr_size e) (judge env e).typed }
{}

/// Where all names have types, a block without a fault has them, and so have all locals after it. One with its types is lawful in a
/// frame that has the types of all its locals, returns where it does as it is written, and is no larger.
pub fn blocks()
    ensures told { (b : Body) → IsBodyKnown b → (s : State) → IsStateKnown s → (x : PlainBlock) → IsFaultless (block_done b s x).faults → IsKnown (block_done b s x).typed × IsStateKnown (block_done b s x).after }
    ensures lawful { (fr : Frame) (b : Body) (s : State) (n : ℕ) (x : PlainBlock) → IsBodyFrame fr b (block_done b s x).after.types → AreNumbered s.types s.locals → LimitedBlock n x → IfThere (λ (y : TypedStmts). stmts_lawful fr y ≡ true) (block_done b s x).typed }
    ensures same_end { (b : Body) (s : State) (x : PlainBlock) → IfThere (λ (y : TypedStmts). returns y ≡ block_returns x) (block_done b s x).typed }
    ensures small { (b : Body) (s : State) (x : PlainBlock) → IfThere (λ (y : TypedStmts). typed_block_size y ≤ block_size x) (block_done b s x).typed }
{}

/// A struct that no chain of n others follows has fewer than n followers, and more than each struct that its fields mention.
pub fn chains()
    ensures shallow { (all : List Declared) (n : ℕ) (x : Struct) → is_followed all n x ≡ false → followers all n x < n }
    ensures falls { (all : List Declared) (n : ℕ) (x : Struct) → is_followed all n x ≡ false → Every (λ (y : Struct). followers all n y < followers all n x) (next_structs all x) }
{}

/// Two items have one path only where their modules and their names are one.
pub fn paths()
    ensures { (ms ns : List (List ℕ)) (a b : List ℕ) → IsModules ms → IsModules ns → is_name a ≡ true → is_name b ≡ true → item_path (joined ms) a ≡ item_path (joined ns) b → (ms ≡ ns) × (a ≡ b) }
{}

/// A struct or a function without a fault has its types, where no item has a fault.
pub fn items()
    ensures structs { (all : List Declared) (x : Struct) → IsFaultless (struct_faults all x) → IsKnown (typed_struct all x) }
    ensures functions { (all : List Declared) → IsFaultless (faults_from all none_yet all) → (x : Function) → IsFaultless (function_faults all x) → IsKnown (typed_function all x) }
{}

/// A program without a fault has its types.
pub fn told()
    ensures { (sources : List Source) → first_fault sources ≡ None → (t : PlainTree) × (typed sources ≡ Some t) }
{}

/// It is made of all that is known of its items, in reading order.
pub fn in_order()
    ensures { (sources : List Source) → first_fault sources ≡ None → typed sources ≡ Some (known_tree (declared sources)) }
{}

/// A program without a fault, whose sources keep what the parser promises, is a lawful typed tree.
pub fn sound()
    ensures { (sources : List Source) (t : PlainTree) → AreSources sources → first_fault sources ≡ None → typed sources ≡ Some t → IsTyped t }
{}
