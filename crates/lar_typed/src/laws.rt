//! What holds of typed trees: each law is the contract of a function that does nothing, which a caller calls to have the law.
ghost use Rattle.std.specs.Prelude.{◌≡◌, ℕ, ℤ, Bool, true, List, ◌∷◌, length, Some, slice_get};
ghost use Rattle.lar_source.specs.declared.file.Span.{Span};
ghost use Rattle.type_table.specs.declared.row.Row.{Row};
ghost use Rattle.type_table.specs.TypeOf.{TypeOf};
ghost use Rattle.type_table.specs.TypeOf as type;
ghost use Rattle.type_table.specs.Rows.{Keeps};
ghost use Rattle.type_table.specs.declared.sort.Sort.{Sort};
ghost use Rattle.type_table.specs.Substitution.{Below};
ghost use Rattle.type_table.specs.Lawful.{Wanted, fits};
ghost use Rattle.type_table.specs.Depth.{AreFalling};
ghost use Rattle.lar_typed.specs.TreeView.{Contents, IsTypedTree};
ghost use Rattle.lar_typed.specs.declared.op.UnaryOp.{UnaryOp};
ghost use Rattle.lar_typed.specs.declared.op.BinaryOp.{BinaryOp};
ghost use Rattle.lar_typed.specs.Exprs.{ExprOf, ExprsOf, PlainExpr, PlainExprs, label_of};
ghost use Rattle.lar_typed.specs.Exprs as plain;
ghost use Rattle.lar_typed.specs.Stmts.{StepOf, StmtOf, StmtsOf, PlainStmt, PlainStmts};
ghost use Rattle.lar_typed.specs.Stmts as stmt;
ghost use Rattle.lar_typed.specs.Lawful.{Frame, lawful, all_lawful, part_type, unary_fits, binary_fits};
ghost use Rattle.lar_typed.specs.LawfulBody.{stmt_lawful, stmts_lawful, steps_fit, is_static};
ghost use Rattle.lar_typed.specs.Parts.{LocalParts, ConstantParts, GenericParts, TupleParts, MadeParts, CallParts, Has};
ghost use Rattle.lar_typed.specs.Trees.{FunctionOf, PlainFunction, TreeOf, PlainTree};
ghost use Rattle.lar_typed.specs.Standing.{ExprStands, ExprsStand, StepsStand, StmtStands, StmtsStand, FunctionStands, TreeStands};
ghost use Rattle.lar_typed.specs.SameType.{same_type};

/// Types are told to be one exactly where they are.
pub fn same_types()
    ensures means { (t u : TypeOf) → same_type t u ≡ true → t ≡ u }
    ensures itself { (t : TypeOf) → same_type t t ≡ true }
{}

/// What a tree stands for stays the same while the table grows.
pub fn kept()
    ensures exprs { (old new : List Row) (e : ExprOf ℕ) (p : PlainExpr) → Keeps old new → ExprStands old e p → ExprStands new e p }
    ensures lists { (old new : List Row) (es : ExprsOf ℕ) (ps : PlainExprs) → Keeps old new → ExprsStand old es ps → ExprsStand new es ps }
    ensures steps { (old new : List Row) (ss : List (StepOf ℕ)) (ps : List (StepOf TypeOf)) → Keeps old new → StepsStand old ss ps → StepsStand new ss ps }
    ensures stmts { (old new : List Row) (s : StmtOf ℕ) (p : PlainStmt) → Keeps old new → StmtStands old s p → StmtStands new s p }
    ensures blocks { (old new : List Row) (ss : StmtsOf ℕ) (ps : PlainStmts) → Keeps old new → StmtsStand old ss ps → StmtsStand new ss ps }
    ensures functions { (old new : List Row) (f : FunctionOf ℕ) (p : PlainFunction) → Keeps old new → FunctionStands old f p → FunctionStands new f p }
    ensures trees { (old new : List Row) (t : TreeOf ℕ) (p : PlainTree) → Keeps old new → TreeStands old t p → TreeStands new t p }
{}

/// What is known of each kind of lawful expression.
pub fn exprs()
    ensures int { (fr : Frame) (t : TypeOf) (v : ℤ) → lawful fr (plain.int t v) ≡ true → t ≡ type.int }
    ensures truth { (fr : Frame) (t : TypeOf) (b : Bool) → lawful fr (plain.truth t b) ≡ true → t ≡ type.bool }
    ensures local { (fr : Frame) (t : TypeOf) (n : ℕ) → lawful fr (plain.local t n) ≡ true → LocalParts fr t n }
    ensures constant { (fr : Frame) (t : TypeOf) (n : ℕ) → lawful fr (plain.constant t n) ≡ true → ConstantParts fr t n }
    ensures generic { (fr : Frame) (t : TypeOf) (k : ℕ) → lawful fr (plain.generic t k) ≡ true → GenericParts fr t k }
    ensures tuple { (fr : Frame) (t : TypeOf) (es : PlainExprs) → lawful fr (plain.tuple_of t es) ≡ true → TupleParts fr t es }
    ensures made { (fr : Frame) (t : TypeOf) (es : PlainExprs) → lawful fr (plain.made t es) ≡ true → MadeParts fr t es }
    ensures part { (fr : Frame) (t : TypeOf) (e : PlainExpr) (k : ℕ) → lawful fr (plain.part t e k) ≡ true → (part_type fr.structs (label_of e) k ≡ Some t) × (lawful fr e ≡ true) }
    ensures unary { (fr : Frame) (t : TypeOf) (op : UnaryOp) (e : PlainExpr) → lawful fr (plain.unary t op e) ≡ true → (unary_fits op t (label_of e) ≡ true) × (lawful fr e ≡ true) }
    ensures binary { (fr : Frame) (t : TypeOf) (op : BinaryOp) (a b : PlainExpr) → lawful fr (plain.binary t op a b) ≡ true → (binary_fits op t (label_of a) (label_of b) ≡ true) × (lawful fr a ≡ true) × (lawful fr b ≡ true) }
    ensures call { (fr : Frame) (t : TypeOf) (n : ℕ) (gs : TypeOf) (es : PlainExprs) (at : Span) → lawful fr (plain.call t n gs es at) ≡ true → CallParts fr t n gs es }
    ensures list { (fr : Frame) (e : PlainExpr) (es : PlainExprs) → all_lawful fr (plain.exprs e es) ≡ true → (lawful fr e ≡ true) × (all_lawful fr es ≡ true) }
{}

/// What is known of each kind of lawful statement.
pub fn stmts()
    ensures let_local { (fr : Frame) (n : ℕ) (e : PlainExpr) → stmt_lawful fr (stmt.let_local n e) ≡ true → (slice_get fr.locals n ≡ Some (label_of e)) × (lawful fr e ≡ true) }
    ensures assign { (fr : Frame) (n : ℕ) (ps : List (StepOf TypeOf)) (e : PlainExpr) → stmt_lawful fr (stmt.assign n ps e) ≡ true → (steps_fit fr (slice_get fr.locals n) ps (label_of e) ≡ true) × (lawful fr e ≡ true) }
    ensures step { (fr : Frame) (u : TypeOf) (p : StepOf TypeOf) (ps : List (StepOf TypeOf)) (t : TypeOf) → steps_fit fr (Some u) (p ∷ ps) t ≡ true → (part_type fr.structs u p.part ≡ Some p.of) × (steps_fit fr (Some p.of) ps t ≡ true) }
    ensures fork { (fr : Frame) (c : PlainExpr) (a b : PlainStmts) → stmt_lawful fr (stmt.fork c a b) ≡ true → Has fr type.bool c × (stmts_lawful fr a ≡ true) × (stmts_lawful fr b ≡ true) }
    ensures repeated { (fr : Frame) (c : PlainExpr) (a : PlainStmts) → stmt_lawful fr (stmt.loop c a) ≡ true → Has fr type.bool c × (stmts_lawful fr a ≡ true) }
    ensures return_nothing { (fr : Frame) → stmt_lawful fr stmt.return_nothing ≡ true → fr.outcome ≡ type.tuple type.end }
    ensures return_value { (fr : Frame) (e : PlainExpr) → stmt_lawful fr (stmt.return_value e) ≡ true → Has fr fr.outcome e }
    ensures print { (fr : Frame) (e : PlainExpr) → stmt_lawful fr (stmt.print e) ≡ true → Has fr type.int e }
    ensures assert { (fr : Frame) (e : PlainExpr) (at : Span) → stmt_lawful fr (stmt.assert e at) ≡ true → Has fr type.bool e × (is_static e ≡ true) }
    ensures eval { (fr : Frame) (e : PlainExpr) → stmt_lawful fr (stmt.eval e) ≡ true → lawful fr e ≡ true }
    ensures block { (fr : Frame) (s : PlainStmt) (ss : PlainStmts) → stmts_lawful fr (stmt.stmts s ss) ≡ true → (stmt_lawful fr s ≡ true) × (stmts_lawful fr ss ≡ true) }
{}

/// The structs of a typed tree are falling, so that widths can be computed; and a lawful type has no generics but those that are there.
pub fn structs()
    ensures falling { (c : Contents) → IsTypedTree c → AreFalling c.rows c.structs }
    ensures below { (structs : List (List Sort)) (generics : List Sort) (t : TypeOf) (w : Wanted) → fits structs generics t w ≡ true → Below (length generics) t }
{}
